//! The command `calls`: the calls that a client of the benchmark draws.
ghost use Rattle.std.specs.Prelude.{◌≡◌, ◌⊎◌, OnOk, OnErr, IfErr};
ghost use Rattle.std.specs.Io.KnownBytes.{Appends};
ghost use Rattle.tatp_streams.specs.declared.fault.StreamFault.TheVariants.{NoMemory, WriteFault};
ghost use Rattle.tatp_tasks.specs.Loads.{IsCallsPlan};
ghost use Rattle.tatp_load.specs.Written.{WritesFrontOf};
ghost use Rattle.tatp_load.specs.Calls.{calls_written};

use crate::call_line::push_call_line;
use std::alloc::Global;
use std::io::Write;
use tatp_driver::Driver;
use tatp_streams::{StreamFault, write_if_full, write_last};
use tatp_tasks::CallsPlan;

/// Draws the calls of a client and writes them, a line each. A call is drawn once those before it
/// are in the pending text, so no more than one piece of the output is held. `Err` means that
/// memory was refused or that the writer failed.
pub fn run_calls<W: Write>(
    alloc: Global,
    writer: &mut W,
    plan: &CallsPlan,
) -> Result<(), StreamFault>
    requires { IsCallsPlan plan.now }
    ensures written { OnOk result
        (Appends (W.contents writer.old) (W.contents writer.new) (calls_written plan.now)) }
    ensures front { OnErr result
        (WritesFrontOf (calls_written plan.now) (W.contents writer.old) (W.contents writer.new)) }
    ensures faults { IfErr result (λ fault. (fault ≡ NoMemory) ⊎ (fault ≡ WriteFault)) }
{
    let mut driver = Driver::new(plan.seed, plan.client, plan.subscribers, plan.distribution);
    let mut pending = String::new(alloc);
    for _ in 0..plan.calls {
        push_call_line(&mut pending, &driver.next_call())?;
        write_if_full(writer, &mut pending)?;
    }
    write_last(writer, pending.as_bytes())?;
    Ok(())
}
