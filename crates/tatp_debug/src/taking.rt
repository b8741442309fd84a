//! Taking a snapshot.
ghost use Rattle.std.specs.Prelude.{◌≡◌};
ghost use Rattle.tatp_debug.specs.Snapshots.{IsSnapshot, name_of, register_values};

use crate::{CurrentKeys, Snapshot};
use arrayvec::ArrayString;
use tatp_calls::Outputs;
use tatp_instr::text;
use tatp_limits::{MAX_NAME_BYTES, REGISTERS};
use tatp_loader::Loaded;
use tatp_machine::Machine;
use tatp_tables::Table;

/// The state of a machine's call, of a procedure of this module.
pub fn snapshot_of(loaded: &Loaded, machine: &Machine<'_>) -> Snapshot
    ensures { IsSnapshot loaded.now machine.now.frame result }
{
    Snapshot {
        procedure: machine.proc(),
        name: name_of(loaded, machine.proc()),
        pc: machine.pc(),
        registers: registers_of(machine),
        current: CurrentKeys {
            subscriber: machine.current(Table::Subscriber),
            access: machine.current(Table::AccessInfo),
            facility: machine.current(Table::SpecialFacility),
            forwarding: machine.current(Table::CallForwarding),
        },
        outputs: Outputs::from_slice(machine.outputs()),
        steps_made: machine.steps_made(),
        writes_made: machine.writes_made(),
        line: text(&machine.instr()),
    }
}

/// The values of all registers.
fn registers_of(machine: &Machine<'_>) -> [u64; REGISTERS]
    ensures { result ≡ register_values machine.now.frame }
{
    [
        machine.reg(0),
        machine.reg(1),
        machine.reg(2),
        machine.reg(3),
        machine.reg(4),
        machine.reg(5),
        machine.reg(6),
        machine.reg(7),
        machine.reg(8),
        machine.reg(9),
        machine.reg(10),
        machine.reg(11),
        machine.reg(12),
        machine.reg(13),
        machine.reg(14),
        machine.reg(15),
    ]
}

/// The name of a procedure of a module.
fn name_of(loaded: &Loaded, procedure: usize) -> ArrayString<MAX_NAME_BYTES>
    ensures { result.bytes ≡ name_of loaded.now procedure }
{
    let mut name = ArrayString::new();
    if let Some(proc) = loaded.module().procs().get(procedure) {
        name.push_str(proc.name());
    }
    name
}
