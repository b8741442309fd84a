//! What the debugger does: it stops one partition after another.
ghost use Rattle.std.specs.Prelude.{◌≡◌, Result, length, [], ◌∷◌};
ghost use Rattle.tatp_debug.specs.declared.snapshot.Snapshot.{Snapshot};
ghost use Rattle.tatp_partition.specs.declared.item.Stepped.{Stepped};
ghost use Rattle.tatp_partition.specs.declared.refusal.SiteRefusal.{SiteRefusal};
ghost use Rattle.tatp_workers.specs.Growing.{Grows, Does, InTurn};
ghost use Rattle.tatp_workers.specs.Debugging.{effects_of_inspection, IsDebugged};
ghost use Rattle.tatp_workers.specs.declared.effects.Effect.TheVariants.{Stops, Looks, Steps, Resumes};

use crate::Answering;
use crate::effects::follow_step;
use tatp_debug::Snapshot;
use tatp_partition::{SiteRefusal, Stepped};

/// Stops sites, looks at them, has their calls make a step, and resumes them.
pub trait Debugging: Answering {
    /// Stops the site of a partition, if there is one and it isn't stopped. Whether it did.
    fn stop(&mut self, partition: u8) -> bool
        ensures { Grows (Self.effects self.old) (Self.effects self.new)
            (Stops partition result ∷ []) };

    /// Looks at the running call, and shows the gate what was seen.
    fn look(&mut self, partition: u8) -> Result<Snapshot, SiteRefusal>
        ensures { Grows (Self.effects self.old) (Self.effects self.new)
            (Looks partition result ∷ []) };

    /// Has the running call make one step, though its site is stopped.
    fn one(&mut self, partition: u8) -> Result<Stepped, SiteRefusal>
        ensures { Grows (Self.effects self.old) (Self.effects self.new)
            (Steps partition result ∷ []) };

    /// Ends a stop.
    fn resume(&mut self, partition: u8)
        ensures { Grows (Self.effects self.old) (Self.effects self.new) (Resumes partition ∷ []) };
}

/// Looks at a stopped site, has its call make one step, and resumes it.
fn inspect<D: Debugging>(debugging: &mut D, partition: u8)
    ensures { (seen : Result Snapshot SiteRefusal) × (answer : Result Stepped SiteRefusal)
        × Grows (D.effects debugging.old) (D.effects debugging.new)
        (effects_of_inspection partition seen answer) }
{
    let _seen = debugging.look(partition);
    let stepped = debugging.one(partition);
    follow_step(debugging, partition, &stepped);
    debugging.resume(partition);
}

/// Stops a site, unless there is none or it is stopped, and inspects it.
fn debug<D: Debugging>(debugging: &mut D, partition: u8)
    ensures { Does (IsDebugged partition) (D.effects debugging.old) (D.effects debugging.new) }
{
    if debugging.stop(partition) {
        inspect(debugging, partition);
    }
}

/// Makes the stops of a run, one after another. A stop is the partition that is to be stopped.
pub fn debug_all<D: Debugging>(debugging: &mut D, stops: &[u8])
    ensures { Does (InTurn IsDebugged stops.now (length stops.now)) (D.effects debugging.old)
        (D.effects debugging.new) }
{
    for number in 0..stops.len() {
        debug(debugging, stops[number]);
    }
}
