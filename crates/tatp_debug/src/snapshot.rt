//! Snapshots of running calls.
use arrayvec::ArrayString;
use tatp_calls::Outputs;
use tatp_instr::Line;
use tatp_limits::{MAX_NAME_BYTES, REGISTERS};

/// The keys of a call's current rows, table by table: three parts, 0 in those that the table's key
/// lacks; or none.
#[derive(Clone, Copy, Debug)]
pub struct CurrentKeys {
    /// Of the current Subscriber row.
    pub subscriber: Option<[u64; 3]>,
    /// Of the current Access_Info row.
    pub access: Option<[u64; 3]>,
    /// Of the current Special_Facility row.
    pub facility: Option<[u64; 3]>,
    /// Of the current Call_Forwarding row.
    pub forwarding: Option<[u64; 3]>,
}

/// The state of a running call. It takes no memory.
#[derive(Clone, Copy, Debug)]
pub struct Snapshot {
    /// The number of its procedure in the module.
    pub procedure: usize,
    /// The name of its procedure.
    pub name: ArrayString<MAX_NAME_BYTES>,
    /// The position of the next instruction.
    pub pc: usize,
    /// The values of the registers.
    pub registers: [u64; REGISTERS],
    /// The keys of the current rows.
    pub current: CurrentKeys,
    /// What it put out, in its order.
    pub outputs: Outputs,
    /// How many steps it has made.
    pub steps_made: usize,
    /// How many of those steps were writes: PUT, INS or DEL.
    pub writes_made: usize,
    /// The text of the next instruction.
    pub line: Line,
}
