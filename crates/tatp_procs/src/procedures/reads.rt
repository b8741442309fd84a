//! The standard procedures that read.
ghost use Rattle.std.specs.Prelude.{◌≡◌};
ghost use Rattle.tatp_procs.specs.Standard.{get_subscriber_data_code, get_new_destination_code, get_access_data_code};

use super::registers::{registers, registers_from};
use tatp_instr::{Instr, KeyRegisters};

/// GET_SUBSCRIBER_DATA: 73 instructions, of which 34 pairs read a column each and put it out.
pub(super) fn get_subscriber_data() -> [Instr; 73]
    ensures { result ≡ get_subscriber_data_code }
{
    let [r0, r1, r2, ..] = registers();
    let none = 72;
    let mut code = [Instr::Out(r2); 73];
    code[0] = Instr::Arg(r0, 0);
    code[1] = Instr::Fsub(r1, r0);
    code[2] = Instr::Jz(r1, none);
    code[71] = Instr::Done;
    code[72] = Instr::Fail(1);
    for column in 0..34 {
        code[3 + 2 * column] = Instr::Get(r2, column as u32);
    }
    code
}

/// GET_NEW_DESTINATION: 27 instructions, of which 12 are a round for each of three start times.
pub(super) fn get_new_destination() -> [Instr; 27]
    ensures { result ≡ get_new_destination_code }
{
    let [r0, r1, r2, r3, r4, r5, r6, r7, r8, r9, r10] = registers();
    let key: KeyRegisters = registers_from(0);
    let [next, skip, none] = [12, 22, 26];
    [
        Instr::Arg(r0, 0),
        Instr::Arg(r1, 1),
        Instr::Arg(r5, 2),
        Instr::Arg(r6, 3),
        Instr::Ffac(r7, r0, r1),
        Instr::Jz(r7, none),
        Instr::Get(r7, 42),
        Instr::Jz(r7, none),
        Instr::Ldi(r4, 1),
        Instr::Add(r5, r5, r4),
        Instr::Ldi(r3, 8),
        Instr::Ldi(r10, 2),
        Instr::Fcfw(r7, key),
        Instr::Jz(r7, skip),
        Instr::Lt(r7, r2, r5),
        Instr::Jz(r7, skip),
        Instr::Get(r8, 49),
        Instr::Lt(r7, r6, r8),
        Instr::Jz(r7, skip),
        Instr::Get(r8, 50),
        Instr::Out(r8),
        Instr::Mov(r9, r4),
        Instr::Add(r2, r2, r3),
        Instr::Loop(r10, next),
        Instr::Jz(r9, none),
        Instr::Done,
        Instr::Fail(1),
    ]
}

/// GET_ACCESS_DATA: 14 instructions.
pub(super) fn get_access_data() -> [Instr; 14]
    ensures { result ≡ get_access_data_code }
{
    let [r0, r1, r2, r3, ..] = registers();
    let none = 13;
    [
        Instr::Arg(r0, 0),
        Instr::Arg(r1, 1),
        Instr::Facc(r2, r0, r1),
        Instr::Jz(r2, none),
        Instr::Get(r3, 36),
        Instr::Out(r3),
        Instr::Get(r3, 37),
        Instr::Out(r3),
        Instr::Get(r3, 38),
        Instr::Out(r3),
        Instr::Get(r3, 39),
        Instr::Out(r3),
        Instr::Done,
        Instr::Fail(1),
    ]
}
