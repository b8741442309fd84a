//! The standard procedures that change rows.
ghost use Rattle.std.specs.Prelude.{◌≡◌};
ghost use Rattle.tatp_procs.specs.Standard.{update_subscriber_data_code, update_location_code, insert_call_forwarding_code, delete_call_forwarding_code};

use super::registers::{registers, registers_from};
use tatp_instr::{Instr, KeyRegisters, RowRegisters};

/// UPDATE_SUBSCRIBER_DATA: 12 instructions.
pub(super) fn update_subscriber_data() -> [Instr; 12]
    ensures { result ≡ update_subscriber_data_code }
{
    let [r0, r1, r2, r3, r4, ..] = registers();
    let none = 11;
    [
        Instr::Arg(r0, 0),
        Instr::Fsub(r1, r0),
        Instr::Jz(r1, none),
        Instr::Arg(r2, 1),
        Instr::Put(r2, 2),
        Instr::Arg(r3, 2),
        Instr::Ffac(r1, r0, r3),
        Instr::Jz(r1, none),
        Instr::Arg(r4, 3),
        Instr::Put(r4, 44),
        Instr::Done,
        Instr::Fail(1),
    ]
}

/// UPDATE_LOCATION: 7 instructions.
pub(super) fn update_location() -> [Instr; 7]
    ensures { result ≡ update_location_code }
{
    let [r0, r1, r2, ..] = registers();
    let none = 6;
    [
        Instr::Arg(r0, 0),
        Instr::Fnum(r1, r0),
        Instr::Jz(r1, none),
        Instr::Arg(r2, 1),
        Instr::Put(r2, 33),
        Instr::Done,
        Instr::Fail(1),
    ]
}

/// INSERT_CALL_FORWARDING: 19 instructions.
pub(super) fn insert_call_forwarding() -> [Instr; 19]
    ensures { result ≡ insert_call_forwarding_code }
{
    let [r0, r1, r2, r3, r4, r5, r6, r7, r8, ..] = registers();
    let row: RowRegisters = registers_from(2);
    let [bad, parent, none] = [13, 17, 18];
    [
        Instr::Arg(r0, 0),
        Instr::Fnum(r1, r0),
        Instr::Jz(r1, none),
        Instr::Get(r2, 0),
        Instr::Arg(r3, 1),
        Instr::Arg(r4, 2),
        Instr::Arg(r5, 3),
        Instr::Arg(r6, 4),
        Instr::Ins(r7, row),
        Instr::Ldi(r8, 1),
        Instr::Eq(r8, r7, r8),
        Instr::Jz(r8, bad),
        Instr::Done,
        Instr::Ldi(r8, 2),
        Instr::Eq(r8, r7, r8),
        Instr::Jz(r8, parent),
        Instr::Fail(2),
        Instr::Fail(3),
        Instr::Fail(1),
    ]
}

/// DELETE_CALL_FORWARDING: 11 instructions.
pub(super) fn delete_call_forwarding() -> [Instr; 11]
    ensures { result ≡ delete_call_forwarding_code }
{
    let [r0, r1, r2, r3, r4, r5, ..] = registers();
    let key: KeyRegisters = registers_from(2);
    let none = 10;
    [
        Instr::Arg(r0, 0),
        Instr::Fnum(r1, r0),
        Instr::Jz(r1, none),
        Instr::Get(r2, 0),
        Instr::Arg(r3, 1),
        Instr::Arg(r4, 2),
        Instr::Fcfw(r5, key),
        Instr::Jz(r5, none),
        Instr::Del,
        Instr::Done,
        Instr::Fail(1),
    ]
}
