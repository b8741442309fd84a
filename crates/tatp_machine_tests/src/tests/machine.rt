//! Calls of one procedure, each row of the instruction table among them, on the home of subscriber
//! 2 and without a home.

mod changes;
mod counts;
mod ends;
mod finds;
mod fixture;
mod homeless;
mod limits;
mod loops;
mod registers;

use fixture::{
    try_homeless, try_homeless_on_one_machine, try_on_home, try_on_one_machine, try_set_back,
};
use std::test::Fail;
use tatp_instr::{End, Trap};

/// Calls of one procedure.
pub struct Case {
    pub name: &'static str,
    /// Whether the home has a Call_Forwarding row besides.
    pub forwarding: bool,
    pub code: &'static [[u8; 8]],
    pub runs: &'static [Run],
}

/// A call's arguments, and what has to come of it: how many steps answer that it runs on, how many
/// of them are writes, its end, its state then, and values of its home, each with its column and
/// the key of its row.
pub struct Run {
    pub arguments: &'static [u64],
    pub running: usize,
    pub writes: usize,
    pub pc: usize,
    pub end: End,
    pub registers: [u64; 16],
    pub current: [Option<[u64; 3]>; 4],
    pub outputs: &'static [u64],
    pub values: &'static [(u8, [u64; 3], Option<u64>)],
}

/// Nothing happens.
pub const RUN: Run = Run {
    arguments: &[],
    running: 0,
    writes: 0,
    pc: 0,
    end: End::Done,
    registers: [0; 16],
    current: [None; 4],
    outputs: &[],
    values: &[],
};

#[test]
fn calls_on_a_home(rt: HostRuntime) -> Result<(), Fail> {
    for version in [1, 2] {
        try_on_home(rt.alloc(), version, registers::CASES)?;
        try_on_home(rt.alloc(), version, finds::CASES)?;
        try_on_home(rt.alloc(), version, changes::CASES)?;
        try_on_home(rt.alloc(), version, ends::CASES)?;
    }
    Ok(())
}

#[test]
fn calls_without_a_home(rt: HostRuntime) -> Result<(), Fail> {
    for version in [1, 2] {
        try_homeless(rt.alloc(), version, homeless::CASES)?;
    }
    Ok(())
}

#[test]
fn calls_that_loop(rt: HostRuntime) -> Result<(), Fail> {
    try_on_home(rt.alloc(), 2, loops::CASES)?;
    try_homeless(rt.alloc(), 2, loops::CASES)
}

#[test]
fn writes_up_to_their_limit(rt: HostRuntime) -> Result<(), Fail> {
    try_on_home(rt.alloc(), 2, limits::ON_A_HOME)?;
    try_homeless(rt.alloc(), 2, limits::HOMELESS)
}

#[test]
fn each_call_on_a_machine_counts_its_steps_and_writes(rt: HostRuntime) -> Result<(), Fail> {
    for version in [1, 2] {
        for case in counts::CASES {
            try_on_one_machine(rt.alloc(), version, case)?;
        }
        for case in counts::HOMELESS_CASES {
            try_homeless_on_one_machine(rt.alloc(), version, case)?;
        }
    }
    try_on_one_machine(rt.alloc(), 2, &loops::CASES[0])?;
    try_homeless_on_one_machine(rt.alloc(), 2, &loops::CASES[0])
}

/// The location of a number.
#[test]
fn a_call_is_set_back_after_its_end(rt: HostRuntime) -> Result<(), Fail> {
    try_set_back(rt.alloc(), &ends::CASES[0])
}

#[test]
fn names_of_traps(rt: HostRuntime) -> Result<(), Fail> {
    for (trap, name) in [
        (Trap::NoCurrent, "NoCurrent"),
        (Trap::Domain, "Domain"),
        (Trap::Budget, "Budget"),
        (Trap::Output, "Output"),
        (Trap::Writes, "Writes"),
    ] {
        assert_eq!(rt; format!(in rt.alloc(); "{trap}")?.as_str(), name);
    }
    Ok(())
}
