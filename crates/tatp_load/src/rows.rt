//! The command `rows`: the rows of a drawn population.
ghost use Rattle.std.specs.Prelude.{◌≡◌, ◌⊎◌, OnOk, OnErr, IfErr};
ghost use Rattle.std.specs.Io.KnownBytes.{Appends};
ghost use Rattle.tatp_streams.specs.declared.fault.StreamFault.TheVariants.{NoMemory, WriteFault};
ghost use Rattle.tatp_tasks.specs.Loads.{IsRowsPlan};
ghost use Rattle.tatp_load.specs.Written.{WritesFrontOf};
ghost use Rattle.tatp_load.specs.Rows.{rows_written};

use rand_pcg::Pcg64;
use std::alloc::Global;
use std::io::Write;
use tatp_population::push_subscriber;
use tatp_streams::{StreamFault, write_if_full, write_last};
use tatp_tasks::RowsPlan;

/// Draws a population and writes its rows, a line each, in the order drawn. A subscriber's rows are
/// drawn once those before them are in the pending text, so no more than one piece of the output is
/// held. `Err` means that memory was refused or that the writer failed.
pub fn run_rows<W: Write>(alloc: Global, writer: &mut W, plan: &RowsPlan) -> Result<(), StreamFault>
    requires { IsRowsPlan plan.now }
    ensures written { OnOk result
        (Appends (W.contents writer.old) (W.contents writer.new) (rows_written plan.now)) }
    ensures front { OnErr result
        (WritesFrontOf (rows_written plan.now) (W.contents writer.old) (W.contents writer.new)) }
    ensures faults { IfErr result (λ fault. (fault ≡ NoMemory) ⊎ (fault ≡ WriteFault)) }
{
    let mut words = Pcg64::new(plan.seed as u128, 0);
    let mut pending = String::new(alloc);
    for before in 0..plan.subscribers {
        push_subscriber(&mut pending, before + 1, &mut words)?;
        write_if_full(writer, &mut pending)?;
    }
    write_last(writer, pending.as_bytes())?;
    Ok(())
}
