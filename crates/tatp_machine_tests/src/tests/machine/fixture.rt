//! A population of two subscribers, calls of one procedure, and what is seen of them.
ghost use Rattle.std.specs.Prelude.{◌≡◌, IfOk, IsSomeAnd, IsTrue, None, Some, false, slice_get};
ghost use Rattle.tatp_encoding.specs.Modules.{Procedure};
ghost use Rattle.tatp_tables.specs.Clean.{IsClean};

use super::{Case, Run};
use std::alloc::{AllocError, Global};
use std::test::Fail;
use tatp_homes::Home;
use tatp_instr::{End, Instr};
use tatp_limits::MAX_STEPS;
use tatp_loader::{Loaded, load};
use tatp_machine::{Machine, Progress};
use tatp_tables::{Row, Rows, Table};

/// The front of a module's magic, before its version.
const MAGIC: [u8; 3] = [0x54, 0x50, 0x4D];

/// What follows the version in a module of two procedures, up to the second one's arity.
const FRONT: [u8; 16] = [
    2, // procedures
    1, 0x41, 0, 0, 1, // A, no argument, one instruction
    0x14, 0, 0, 0, 0, 0, 0, 0, // DONE
    1, 0x42, // B
];

/// Subscribers 1 and 2, each with one Access_Info and one Special_Facility row of type 1.
fn two_subscribers(alloc: Global) -> Result<Rows, AllocError>
    ensures { IfOk result IsClean }
{
    let mut rows = Rows::new(alloc);
    rows.push(Row::S([
        1, 1, 0, 0, 0, 0, 0, 0, 0, 0, 0, 0, 0, 0, 0, 0, 0, 0, 0, 0, 0, 0, 0, 0, 0, 0, 0, 0, 0, 0,
        0, 0, 1, 1,
    ]))?;
    rows.push(Row::S([
        2, 2, 0, 0, 0, 0, 0, 0, 0, 0, 0, 0, 0, 0, 0, 0, 0, 0, 0, 0, 0, 0, 0, 0, 0, 0, 0, 0, 0, 0,
        0, 0, 1, 1,
    ]))?;
    rows.push(Row::A([1, 1, 0, 0, 4276545, 280267669825]))?;
    rows.push(Row::A([2, 1, 0, 0, 4276545, 280267669825]))?;
    rows.push(Row::F([1, 1, 1, 0, 0, 280267669825]))?;
    rows.push(Row::F([2, 1, 1, 0, 0, 280267669825]))?;
    Ok(rows)
}

/// The home of subscriber 2, perhaps with a Call_Forwarding row besides.
fn second_home(alloc: Global, forwarding: bool) -> Result<Home, AllocError>
    ensures { IfOk result (λ home. home.s_id ≡ 2) }
{
    let rows = two_subscribers(alloc)?;
    let mut home = Home::of(&rows, 2);
    if forwarding {
        let _inserted = home.insert_cf([2, 1, 8, 20, 888]);
    }
    Ok(home)
}

/// A module of the version whose procedure 1 has this code.
fn load_code(alloc: Global, version: u8, arity: usize, code: &[[u8; 8]]) -> Result<Loaded, Fail> {
    let mut bytes = Vec::from_slice(alloc, &MAGIC)?;
    bytes.push(version)?;
    bytes.extend_from_slice(&FRONT)?;
    let (Ok(arity), Ok(count)) = (u8::try_from(arity), u8::try_from(code.len())) else {
        return Err(Fail::new("too many"));
    };
    bytes.push(arity)?;
    bytes.push(0)?;
    bytes.push(count)?;
    for instr in code {
        bytes.extend_from_slice(instr)?;
    }
    Ok(load(alloc, &bytes)?)
}

/// Steps up to the end: how many answered that the call runs on, and how it ended.
fn finish(machine: &mut Machine, home: &mut Home) -> Result<(usize, End), &'static str>
    requires running { machine.old.ended ≡ false }
    requires home { machine.old.frame.home ≡ Some home.old.s_id }
    ensures machine { machine.new.frame.home ≡ machine.old.frame.home }
    ensures home { home.new.s_id ≡ home.old.s_id }
{
    for running in 0..MAX_STEPS {
        if let Progress::Ended(end) = machine.step(home) {
            return Ok((running, end));
        }
    }
    Err("no end")
}

/// The same without a home.
fn finish_homeless(machine: &mut Machine) -> Result<(usize, End), &'static str>
    requires running { machine.old.ended ≡ false }
    requires home { machine.old.frame.home ≡ None }
{
    for running in 0..MAX_STEPS {
        if let Progress::Ended(end) = machine.step_homeless() {
            return Ok((running, end));
        }
    }
    Err("no end")
}

/// Whether the call's state is the one that is wanted.
fn is_at(machine: &Machine, wanted: &Run) -> bool {
    for i in 0..16 {
        if machine.reg(i) != wanted.registers[i] {
            return false;
        }
    }
    let current = wanted.current;
    machine.pc() == wanted.pc
        && machine.steps_made() == wanted.running
        && machine.writes_made() == wanted.writes
        && machine.current(Table::Subscriber) == current[0]
        && machine.current(Table::AccessInfo) == current[1]
        && machine.current(Table::SpecialFacility) == current[2]
        && machine.current(Table::CallForwarding) == current[3]
        && machine.outputs() == wanted.outputs
}

/// Whether the home has these values.
fn has_values(home: &Home, values: &[(u8, [u64; 3], Option<u64>)]) -> bool {
    for (column, key, value) in values {
        if home.get(*column, *key) != *value {
            return false;
        }
    }
    true
}

/// Whether the module's procedure 1 takes `count` arguments.
fn takes(loaded: &Loaded, count: usize) -> bool
    ensures { IsTrue result
        → IsSomeAnd (slice_get loaded.now.procedures 1) (λ (p : Procedure). p.arity ≡ count) }
{
    let procs = loaded.module().procs();
    procs.len() > 1 && procs[1].arity() as usize == count
}

/// Whether a call of the code on a home runs as it has to.
fn runs(
    alloc: Global,
    version: u8,
    home: &mut Home,
    code: &[[u8; 8]],
    run: &Run,
) -> Result<bool, Fail> {
    let loaded = load_code(alloc, version, run.arguments.len(), code)?;
    if !takes(&loaded, run.arguments.len()) {
        return Ok(false);
    }
    let mut machine = Machine::enter(&loaded, 1, run.arguments, Some(home.s_id()));
    let (running, end) = finish(&mut machine, home)?;
    Ok(
        running == run.running
            && end == run.end
            && is_at(&machine, run)
            && has_values(home, run.values),
    )
}

/// The same without a home.
fn runs_homeless(alloc: Global, version: u8, code: &[[u8; 8]], run: &Run) -> Result<bool, Fail> {
    let loaded = load_code(alloc, version, run.arguments.len(), code)?;
    if !takes(&loaded, run.arguments.len()) {
        return Ok(false);
    }
    let mut machine = Machine::enter(&loaded, 1, run.arguments, None);
    let (running, end) = finish_homeless(&mut machine)?;
    let wanted = run.end;
    Ok(running == run.running && end == wanted && is_at(&machine, run))
}

/// Tries each call on the home of subscriber 2, in a module of the version; the name of the first
/// case that fails.
pub fn try_on_home(alloc: Global, version: u8, cases: &[Case]) -> Result<(), Fail> {
    for case in cases {
        for run in case.runs {
            let mut home = second_home(alloc, case.forwarding)?;
            if !runs(alloc, version, &mut home, case.code, run)? {
                return Err(Fail::new(case.name));
            }
        }
    }
    Ok(())
}

/// The same without a home.
pub fn try_homeless(alloc: Global, version: u8, cases: &[Case]) -> Result<(), Fail> {
    for case in cases {
        for run in case.runs {
            if !runs_homeless(alloc, version, case.code, run)? {
                return Err(Fail::new(case.name));
            }
        }
    }
    Ok(())
}

/// Tries a case's calls, the first of them twice, one after another on one machine: each on the
/// home of subscriber 2 as it was at first.
pub fn try_on_one_machine(alloc: Global, version: u8, case: &Case) -> Result<(), Fail> {
    let Some(first) = case.runs.first() else {
        return Ok(());
    };
    let loaded = load_code(alloc, version, first.arguments.len(), case.code)?;
    if !takes(&loaded, first.arguments.len()) {
        return Err(Fail::new(case.name));
    }
    let mut home = second_home(alloc, case.forwarding)?;
    let mut machine = Machine::enter(&loaded, 1, first.arguments, Some(home.s_id()));
    finish(&mut machine, &mut home)?;
    for run in case.runs {
        if !takes(&loaded, run.arguments.len()) {
            return Err(Fail::new(case.name));
        }
        let mut home = second_home(alloc, case.forwarding)?;
        machine.enter_next(&loaded, 1, run.arguments, Some(home.s_id()));
        if machine.steps_made() != 0 || machine.writes_made() != 0 {
            return Err(Fail::new(case.name));
        }
        let (running, end) = finish(&mut machine, &mut home)?;
        if running != run.running
            || end != run.end
            || !is_at(&machine, run)
            || !has_values(&home, run.values)
        {
            return Err(Fail::new(case.name));
        }
    }
    Ok(())
}

/// The same without a home.
pub fn try_homeless_on_one_machine(alloc: Global, version: u8, case: &Case) -> Result<(), Fail> {
    let Some(first) = case.runs.first() else {
        return Ok(());
    };
    let loaded = load_code(alloc, version, first.arguments.len(), case.code)?;
    if !takes(&loaded, first.arguments.len()) {
        return Err(Fail::new(case.name));
    }
    let mut machine = Machine::enter(&loaded, 1, first.arguments, None);
    finish_homeless(&mut machine)?;
    for run in case.runs {
        if !takes(&loaded, run.arguments.len()) {
            return Err(Fail::new(case.name));
        }
        machine.enter_next(&loaded, 1, run.arguments, None);
        if machine.steps_made() != 0 || machine.writes_made() != 0 {
            return Err(Fail::new(case.name));
        }
        let (running, end) = finish_homeless(&mut machine)?;
        if running != run.running || end != run.end || !is_at(&machine, run) {
            return Err(Fail::new(case.name));
        }
    }
    Ok(())
}

/// Tries a case's first call, and sets it back after its end: the home is then as it was.
pub fn try_set_back(alloc: Global, case: &Case) -> Result<(), Fail> {
    let mut home = second_home(alloc, case.forwarding)?;
    let loaded = load_code(alloc, 1, 2, case.code)?;
    if !takes(&loaded, 2) {
        return Err(Fail::new("no such procedure"));
    }
    let mut machine = Machine::enter(&loaded, 1, &[2, 7], Some(home.s_id()));
    if machine.proc() != 1
        || machine.home() != Some(2)
        || !matches!(machine.instr(), Instr::Arg(_, 0))
    {
        return Err(Fail::new("the entry"));
    }
    finish(&mut machine, &mut home)?;
    if home.get(33, [2, 0, 0]) != Some(7) {
        return Err(Fail::new("the end"));
    }
    machine.set_back(&mut home);
    if home != second_home(alloc, case.forwarding)? {
        return Err(Fail::new("the rows at entry"));
    }
    Ok(())
}
