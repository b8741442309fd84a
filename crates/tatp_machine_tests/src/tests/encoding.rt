//! Spellings typed out by hand, and what is wrong with other bytes.
use std::process::Abort;
use std::test::Fail;
use tatp_encoding::{Bad, decode, encode};
use tatp_instr::{Instr, KeyRegisters, Register, RowRegisters, Version};

fn register(number: u8) -> Result<Register, &'static str> {
    Register::new(number).ok_or("a register")
}

fn expect_spelling(rt: &impl Abort, instr: Instr, bytes: [u8; 8]) {
    assert_eq!(rt; encode(&instr), bytes);
    assert_eq!(rt; decode(Version::One, &bytes), Ok(instr));
    assert_eq!(rt; decode(Version::Two, &bytes), Ok(instr));
}

fn expect_fault(rt: &impl Abort, bytes: [u8; 8], fault: Bad) {
    assert_eq!(rt; decode(Version::One, &bytes), Err(fault));
    assert_eq!(rt; decode(Version::Two, &bytes), Err(fault));
}

#[test]
fn one_spelling_of_each_op(rt: HostRuntime) -> Result<(), Fail> {
    let rt = &rt;
    let (a, b, c) = (register(1)?, register(7)?, register(15)?);
    let key = KeyRegisters::new(13).ok_or("the registers of a key")?;
    let row = RowRegisters::new(11).ok_or("the registers of a row")?;
    expect_spelling(
        rt,
        Instr::Ldi(register(3)?, 4294967295),
        [1, 3, 0, 0, 255, 255, 255, 255],
    );
    expect_spelling(rt, Instr::Mov(a, b), [2, 1, 7, 0, 0, 0, 0, 0]);
    expect_spelling(rt, Instr::Arg(b, 2), [3, 7, 0, 0, 0, 0, 0, 2]);
    expect_spelling(rt, Instr::Add(a, b, c), [4, 1, 7, 15, 0, 0, 0, 0]);
    expect_spelling(rt, Instr::Sub(c, b, a), [5, 15, 7, 1, 0, 0, 0, 0]);
    expect_spelling(rt, Instr::Eq(a, b, c), [6, 1, 7, 15, 0, 0, 0, 0]);
    expect_spelling(rt, Instr::Lt(a, b, c), [7, 1, 7, 15, 0, 0, 0, 0]);
    expect_spelling(rt, Instr::Jmp(16909060), [8, 0, 0, 0, 1, 2, 3, 4]);
    expect_spelling(rt, Instr::Jz(a, 258), [9, 1, 0, 0, 0, 0, 1, 2]);
    expect_spelling(rt, Instr::Fsub(a, b), [10, 1, 7, 0, 0, 0, 0, 0]);
    expect_spelling(rt, Instr::Fnum(a, b), [11, 1, 7, 0, 0, 0, 0, 0]);
    expect_spelling(rt, Instr::Facc(a, b, c), [12, 1, 7, 15, 0, 0, 0, 0]);
    expect_spelling(rt, Instr::Ffac(a, b, c), [13, 1, 7, 15, 0, 0, 0, 0]);
    expect_spelling(rt, Instr::Fcfw(c, key), [14, 15, 13, 0, 0, 0, 0, 0]);
    expect_spelling(rt, Instr::Get(b, 44), [15, 7, 0, 0, 0, 0, 0, 44]);
    expect_spelling(rt, Instr::Put(register(4)?, 44), [16, 4, 0, 0, 0, 0, 0, 44]);
    expect_spelling(rt, Instr::Ins(c, row), [17, 15, 11, 0, 0, 0, 0, 0]);
    expect_spelling(rt, Instr::Del, [18, 0, 0, 0, 0, 0, 0, 0]);
    expect_spelling(rt, Instr::Out(b), [19, 7, 0, 0, 0, 0, 0, 0]);
    expect_spelling(rt, Instr::Done, [20, 0, 0, 0, 0, 0, 0, 0]);
    expect_spelling(rt, Instr::Fail(1), [21, 0, 0, 0, 0, 0, 0, 1]);
    Ok(())
}

#[test]
fn an_op_of_version_2_alone(rt: HostRuntime) -> Result<(), Fail> {
    let rt = &rt;
    let bytes = [22, 15, 0, 0, 0, 0, 1, 2];
    let back = Instr::Loop(register(15)?, 258);
    assert_eq!(rt; encode(&back), bytes);
    assert_eq!(rt; decode(Version::Two, &bytes), Ok(back));
    for (bytes, fault) in [
        ([22, 0, 1, 0, 0, 0, 0, 0], Bad::UnusedNotZero),
        ([22, 16, 0, 1, 0, 0, 0, 0], Bad::UnusedNotZero),
        ([22, 16, 0, 0, 0, 0, 0, 0], Bad::BadRegister),
    ] {
        assert_eq!(rt; decode(Version::Two, &bytes), Err(fault));
        assert_eq!(rt; decode(Version::One, &bytes), Err(Bad::BadOp));
    }
    assert_eq!(rt; decode(Version::One, &bytes), Err(Bad::BadOp));
    Ok(())
}

#[test]
fn ops_outside_the_table(rt: HostRuntime) {
    for op in [0, 23, 255] {
        expect_fault(&rt, [op, 0, 0, 0, 0, 0, 0, 0], Bad::BadOp);
        expect_fault(&rt, [op, 255, 255, 255, 255, 255, 255, 255], Bad::BadOp);
    }
}

#[test]
fn first_fault(rt: HostRuntime) {
    let rt = &rt;
    expect_fault(rt, [1, 3, 1, 0, 255, 255, 255, 255], Bad::UnusedNotZero);
    expect_fault(rt, [1, 16, 0, 1, 0, 0, 0, 0], Bad::UnusedNotZero);
    expect_fault(rt, [4, 16, 16, 16, 0, 0, 0, 1], Bad::UnusedNotZero);
    expect_fault(rt, [4, 0, 0, 16, 0, 0, 0, 0], Bad::BadRegister);
    expect_fault(rt, [14, 0, 14, 0, 0, 0, 0, 0], Bad::BadRegister);
    expect_fault(rt, [17, 0, 12, 0, 0, 0, 0, 0], Bad::BadRegister);
}

// MOV r2,r3 with one byte changed.
#[test]
fn each_byte_changed(rt: HostRuntime) -> Result<(), Fail> {
    let rt = &rt;
    let (a, b, c) = (register(2)?, register(3)?, register(4)?);
    expect_spelling(rt, Instr::Mov(a, b), [2, 2, 3, 0, 0, 0, 0, 0]);
    expect_fault(rt, [3, 2, 3, 0, 0, 0, 0, 0], Bad::UnusedNotZero);
    expect_spelling(rt, Instr::Mov(c, b), [2, 4, 3, 0, 0, 0, 0, 0]);
    expect_spelling(rt, Instr::Mov(a, c), [2, 2, 4, 0, 0, 0, 0, 0]);
    expect_fault(rt, [2, 2, 3, 1, 0, 0, 0, 0], Bad::UnusedNotZero);
    expect_fault(rt, [2, 2, 3, 0, 1, 0, 0, 0], Bad::UnusedNotZero);
    expect_fault(rt, [2, 2, 3, 0, 0, 1, 0, 0], Bad::UnusedNotZero);
    expect_fault(rt, [2, 2, 3, 0, 0, 0, 1, 0], Bad::UnusedNotZero);
    expect_fault(rt, [2, 2, 3, 0, 0, 0, 0, 1], Bad::UnusedNotZero);
    Ok(())
}

#[test]
fn texts_and_numbers_of_faults(rt: HostRuntime) -> Result<(), Fail> {
    let faults = [
        (Bad::BadOp, 6, "6 BadOp"),
        (Bad::UnusedNotZero, 7, "7 UnusedNotZero"),
        (Bad::BadRegister, 8, "8 BadRegister"),
    ];
    for (fault, number, expected) in faults {
        assert_eq!(rt; fault as u8, number);
        assert_eq!(rt; format!(in rt.alloc(); "{fault}")?.as_str(), expected);
    }
    Ok(())
}
