//! The table, typed out a second time.
ghost use Rattle.std.specs.Prelude.{◌≡◌};
ghost use Rattle.tatp_instr.specs.Instrs.{parts_with};

use std::process::Abort;
use std::test::Fail;
use tatp_instr::Word::{Argument, Column, Count, Nothing, Target};
use tatp_instr::{
    BOOK, Instr, KeyRegisters, Parts, Register, RowRegisters, Shape, Version, Word, operands,
    row_named, text,
};

fn register(number: u8) -> Result<Register, &'static str> {
    Register::new(number).ok_or("a register")
}

fn expect_row(rt: &impl Abort, instr: Instr, expected: &str, op: u8, registers: u8, word: Word) {
    assert_eq!(rt; text(&instr).as_str(), expected);
    assert_eq!(rt; instr.parts().op, op, "{expected}");
    assert_eq!(rt; operands(op), Some(Shape { registers, word }), "{expected}");
}

#[test]
fn each_row_of_the_table(rt: HostRuntime) -> Result<(), Fail> {
    let rt = &rt;
    let (a, b, c) = (register(0)?, register(7)?, register(15)?);
    let key = KeyRegisters::new(13).ok_or("the registers of a key")?;
    let row = RowRegisters::new(11).ok_or("the registers of a row")?;
    expect_row(rt, Instr::Ldi(b, 10), "LDI r7,#10", 0x01, 1, Count);
    expect_row(rt, Instr::Mov(a, b), "MOV r0,r7", 0x02, 2, Nothing);
    expect_row(rt, Instr::Arg(b, 2), "ARG r7,#2", 0x03, 1, Argument);
    expect_row(rt, Instr::Add(a, b, c), "ADD r0,r7,r15", 0x04, 3, Nothing);
    expect_row(rt, Instr::Sub(a, b, c), "SUB r0,r7,r15", 0x05, 3, Nothing);
    expect_row(rt, Instr::Eq(a, b, c), "EQ r0,r7,r15", 0x06, 3, Nothing);
    expect_row(rt, Instr::Lt(a, b, c), "LT r0,r7,r15", 0x07, 3, Nothing);
    expect_row(rt, Instr::Jmp(0), "JMP @L0", 0x08, 0, Target);
    expect_row(rt, Instr::Jz(a, 2), "JZ r0,@L2", 0x09, 1, Target);
    expect_row(rt, Instr::Fsub(a, b), "FSUB r0,r7", 0x0A, 2, Nothing);
    expect_row(rt, Instr::Fnum(a, b), "FNUM r0,r7", 0x0B, 2, Nothing);
    expect_row(rt, Instr::Facc(a, b, c), "FACC r0,r7,r15", 0x0C, 3, Nothing);
    expect_row(rt, Instr::Ffac(a, b, c), "FFAC r0,r7,r15", 0x0D, 3, Nothing);
    expect_row(rt, Instr::Fcfw(a, key), "FCFW r0,r13", 0x0E, 2, Nothing);
    expect_row(rt, Instr::Get(b, 44), "GET r7,#44", 0x0F, 1, Column);
    expect_row(rt, Instr::Put(b, 44), "PUT #44,r7", 0x10, 1, Column);
    expect_row(rt, Instr::Ins(b, row), "INS r7,r11", 0x11, 2, Nothing);
    expect_row(rt, Instr::Del, "DEL", 0x12, 0, Nothing);
    expect_row(rt, Instr::Out(b), "OUT r7", 0x13, 1, Nothing);
    expect_row(rt, Instr::Done, "DONE", 0x14, 0, Nothing);
    expect_row(rt, Instr::Fail(1), "FAIL #1", 0x15, 0, Count);
    expect_row(rt, Instr::Loop(b, 2), "LOOP r7,@L2", 0x16, 1, Target);
    Ok(())
}

#[test]
fn longest_texts(rt: HostRuntime) -> Result<(), Fail> {
    let last = register(15)?;
    let ldi = text(&Instr::Ldi(last, 4294967295));
    assert_eq!(rt; ldi.as_str(), "LDI r15,#4294967295");
    let jz = text(&Instr::Jz(last, 4294967295));
    assert_eq!(rt; jz.as_str(), "JZ r15,@L4294967295");
    let put = text(&Instr::Put(last, 4294967295));
    assert_eq!(rt; put.as_str(), "PUT #4294967295,r15");
    let back = text(&Instr::Loop(last, 4294967295));
    assert_eq!(rt; back.as_str(), "LOOP r15,@L4294967295");
    Ok(())
}

#[test]
fn instructions_of_version_2_alone(rt: HostRuntime) -> Result<(), Fail> {
    let (back, jump) = (Instr::Loop(register(0)?, 1), Instr::Jz(register(0)?, 1));
    assert!(rt; !back.is_in(Version::One) && back.is_in(Version::Two));
    assert!(rt; jump.is_in(Version::One) && jump.is_in(Version::Two));
    Ok(())
}

#[test]
fn ops_outside_the_table(rt: HostRuntime) {
    for op in [0, 23, 255] {
        assert_eq!(rt; operands(op), None, "{op}");
    }
}

#[test]
fn ops_of_the_book(rt: HostRuntime) {
    for (i, row) in BOOK.iter().enumerate() {
        assert_eq!(rt; usize::from(row.op), i + 1, "{}", row.mnemonic);
    }
}

#[test]
fn operands_in_the_order_of_the_text(rt: HostRuntime) -> Result<(), Fail> {
    let put = Instr::Put(register(4)?, 44).parts();
    let expected = Parts {
        op: 0x10,
        registers: [4, 0, 0],
        word: 44,
    };
    assert_eq!(rt; put, expected);
    let sub = Instr::Sub(register(1)?, register(2)?, register(3)?).parts();
    assert_eq!(rt; sub.registers, [1, 2, 3]);
    Ok(())
}

#[test]
fn register_bounds(rt: HostRuntime) {
    assert_eq!(rt; Register::new(15).map(Register::number), Some(15));
    assert_eq!(rt; Register::new(16), None);
    assert_eq!(rt; Register::new(255), None);
    assert_eq!(rt; KeyRegisters::new(13).map(KeyRegisters::number), Some(13));
    assert_eq!(rt; KeyRegisters::new(14), None);
    assert_eq!(rt; RowRegisters::new(11).map(RowRegisters::number), Some(11));
    assert_eq!(rt; RowRegisters::new(12), None);
}

#[test]
fn rows_by_their_mnemonics(rt: HostRuntime) {
    assert_eq!(rt; row_named("LDI").map(|row| row.op), Some(0x01));
    assert_eq!(rt; row_named("FAIL").map(|row| row.op), Some(0x15));
    assert_eq!(rt; row_named("LOOP").map(|row| row.op), Some(0x16));
    assert_eq!(rt; row_named("PUT").map(|row| row.word_first), Some(true));
    for mnemonic in ["", "LD", "LDIX", "ldi"] {
        assert_eq!(rt; row_named(mnemonic).map(|row| row.op), None, "{mnemonic}");
    }
}

fn with_first_two(op: u8, first: u8, second: u8) -> Parts
    ensures { result ≡ parts_with op first second 0 0 }
{
    Parts {
        op,
        registers: [first, second, 0],
        word: 0,
    }
}

#[test]
fn instructions_of_parts(rt: HostRuntime) -> Result<(), Fail> {
    let mov = Instr::Mov(register(7)?, register(15)?);
    assert_eq!(rt; Instr::from_parts(&with_first_two(0x02, 7, 15)), Some(mov));
    assert_eq!(rt; Instr::from_parts(&with_first_two(0x02, 16, 0)), None);
    assert_eq!(rt; Instr::from_parts(&with_first_two(0x0E, 0, 14)), None);
    assert_eq!(rt; Instr::from_parts(&with_first_two(0x11, 0, 12)), None);
    Ok(())
}
