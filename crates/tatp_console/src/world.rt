//! The system over which lines are answered.
ghost use Rattle.std.specs.Prelude.{◌≤◌, IfOk, IfErr, OnOk, length};
ghost use Rattle.tatp_tables.specs.Clean.{IsClean};
ghost use Rattle.tatp_extents.specs.Opening.{RefusesRows};
ghost use Rattle.tatp_dispatch.specs.Opened.{IsOpened};
ghost use Rattle.tatp_dispatch.specs.Serving.{IsWorld};
ghost use Rattle.tatp_tasks.specs.Populations.{IsSetup};
ghost use Rattle.tatp_inputs.specs.Work.{AreCleanWhereDrawn};

use std::alloc::Global;
use tatp_dispatch::World;
use tatp_extents::OpenError;
use tatp_limits::MAX_SUBSCRIBERS;
use tatp_loader::Loaded;
use tatp_tables::Rows;
use tatp_tasks::{Population, Setup};

/// The system with the rows of a run. Drawn rows are known to be clean, so they aren't audited.
pub(crate) fn open_world<'m>(
    alloc: Global,
    loaded: &'m Loaded,
    setup: Setup,
    rows: Rows,
) -> Result<World<'m>, OpenError>
    requires setup { IsSetup setup }
    requires drawn { AreCleanWhereDrawn setup.population rows }
    ensures opened { IfOk result (IsOpened loaded.now rows setup.partitions setup.clients) }
    ensures world { IfOk result IsWorld }
    ensures few { OnOk result (length rows.subscribers ≤ MAX_SUBSCRIBERS) }
    ensures clean { OnOk result (IsClean rows) }
    ensures refusal { IfErr result (RefusesRows rows) }
{
    let Setup {
        population,
        partitions,
        clients,
        ..
    } = setup;
    match population {
        Population::Read => World::open(alloc, loaded, rows, partitions, clients),
        Population::Generated { .. } => {
            Ok(World::open_clean(alloc, loaded, rows, partitions, clients)?)
        }
    }
}
