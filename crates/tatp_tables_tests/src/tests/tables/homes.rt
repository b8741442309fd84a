//! Homes made from clean rows: finds, reads, changes and their refusals.
ghost use Rattle.std.specs.Prelude.{IfOk};
ghost use Rattle.tatp_tables.specs.Clean.{IsClean};

use super::numbers;
use std::alloc::{AllocError, Global};
use std::mem::size_of;
use std::process::Abort;
use std::test::Fail;
use tatp_homes::{Home, Refusal, homes};
use tatp_tables::{Row, Rows, is_fixed};

/// Subscriber 1 with one row in each table.
fn one_subscriber(alloc: Global) -> Result<Rows, AllocError>
    ensures { IfOk result IsClean }
{
    let mut rows = Rows::new(alloc);
    rows.push(Row::C([1, 1, 8, 20, 888]))?;
    rows.push(Row::F([1, 1, 1, 0, 0, 280267669825]))?;
    rows.push(Row::A([1, 1, 0, 0, 4276545, 280267669825]))?;
    rows.push(Row::S([
        1, 1, 0, 0, 0, 0, 0, 0, 0, 0, 0, 0, 0, 0, 0, 0, 0, 0, 0, 0, 0, 0, 0, 0, 0, 0, 0, 0, 0, 0,
        0, 0, 1, 1,
    ]))?;
    Ok(rows)
}

/// Calls of subscriber 1's home, one after another, and their answers: of a find 1 or 0, of a read
/// and of a column that is set the value or the value before, of an insert 0, of a delete the end
/// time, or the number of the refusal.
const CALLS: &str = "\
has_sub 0 = 0
has_sub 1 = 1
has_sub 2 = 0
has_number 1 = 1
has_number 2 = 0
has_access 1 1 = 1
has_access 1 2 = 0
has_access 2 1 = 0
has_facility 1 1 = 1
has_facility 1 5 = 0
has_facility 1 0 = 0
has_forward 1 1 8 = 1
has_forward 1 1 0 = 0
has_forward 1 1 7 = 0
has_forward 1 2 8 = 0
get 33 1 0 0 = 1
get 38 1 1 0 = 4276545
get 42 1 1 0 = 1
get 50 1 1 8 = 888
get 50 1 1 16 = refused 1
get 33 2 0 0 = refused 1
get 51 1 1 8 = refused 1
get 255 1 1 8 = refused 1
put 33 1 0 0 4294967295 = 1
get 33 1 0 0 = 4294967295
put 33 1 0 0 0 = refused 2
get 33 1 0 0 = 4294967295
put 36 1 1 0 255 = 0
put 44 1 1 0 9 = 0
put 44 1 2 0 256 = refused 1
put 49 1 1 8 24 = 20
get 49 1 1 8 = 24
insert_cf 1 1 8 1 7 = refused 3
insert_cf 1 1 8 0 7 = refused 2
insert_cf 1 2 8 1 7 = refused 4
insert_cf 2 1 0 1 7 = refused 4
insert_cf 1 1 16 24 999999999999999 = 0
get 50 1 1 16 = 999999999999999
delete_cf 1 1 0 = refused 1
delete_cf 1 1 8 = 24
delete_cf 1 1 8 = refused 1
has_forward 1 1 16 = 1
has_forward 1 1 8 = 0
insert_cf 1 1 0 6 7 = 0
";

/// Calls of a home without rows, that of s_id 2.
const CALLS_WITHOUT_ROWS: &str = "\
has_sub 2 = 0
has_number 1 = 0
has_access 1 1 = 0
put 33 2 0 0 0 = refused 1
insert_cf 2 1 0 1 7 = refused 4
delete_cf 2 1 0 = refused 1
";

/// What a home answers to a call.
fn answer(home: &mut Home, call: &str, parts: [u64; 34]) -> Result<u64, Refusal> {
    let [a, b, c, d, e, ..] = parts;
    let column = (a % 256) as u8;
    match call {
        "has_sub" => Ok(u64::from(home.has_sub(a))),
        "has_number" => Ok(u64::from(home.has_number(a))),
        "has_access" => Ok(u64::from(home.has_access(a, b))),
        "has_facility" => Ok(u64::from(home.has_facility(a, b))),
        "has_forward" => Ok(u64::from(home.has_forward(a, b, c))),
        "get" => home.get(column, [b, c, d]).ok_or(Refusal::NoCurrent),
        "put" if column <= 50 && !is_fixed(column) => home.put(column, [b, c, d], e),
        "insert_cf" => home.insert_cf([a, b, c, d, e]).map(|_| 0),
        "delete_cf" => home.delete_cf([a, b, c]).map(|row| row[3]),
        _ => Ok(u64::MAX),
    }
}

/// An answer, and 0 or the number of the refusal after 0.
fn wanted_answer(text: &str) -> Option<(u64, u64)> {
    match text.strip_prefix("refused ") {
        Some(number) => Some((0, numbers(number)?[0])),
        None => Some((numbers(text)?[0], 0)),
    }
}

/// What the home answers to a call, in the same form.
fn given_answer(home: &mut Home, call: &str) -> Option<(u64, u64)> {
    let (call, parts) = call.split_once(' ')?;
    match answer(home, call, numbers(parts)?) {
        Ok(value) => Some((value, 0)),
        Err(refusal) => Some((0, refusal as u64)),
    }
}

/// Makes the calls, and compares their answers.
fn try_calls(rt: &impl Abort, home: &mut Home, calls: &str) -> Result<(), &'static str> {
    for line in calls.lines() {
        let (call, wanted) = line.split_once(" = ").ok_or("a call and an answer")?;
        let wanted = wanted_answer(wanted).ok_or("an answer")?;
        let given = given_answer(home, call).ok_or("a call")?;
        assert_eq!(rt; given, wanted, "{line}");
    }
    Ok(())
}

#[test]
fn homes_of_rows(rt: HostRuntime) -> Result<(), Fail> {
    let rows = one_subscriber(rt.alloc())?;
    let homes = homes(rt.alloc(), &rows)?;
    let [home] = homes.as_slice() else {
        return Err("one home".into());
    };
    let mut none = Home::of(&rows, 2);
    assert_eq!(rt; (home.s_id(), none.s_id()), (1, 2));
    assert!(rt; *home == Home::of(&rows, 1) && *home != none);
    try_calls(&rt, &mut none, CALLS_WITHOUT_ROWS)?;
    Ok(())
}

/// The rows are those of the home after its calls, and the one before them.
fn expect_rows(rt: &impl Abort, rows: &Rows) {
    assert_eq!(rt; rows.subscribers.len(), 1);
    assert_eq!(rt;
        rows.accesses.as_slice(),
        [[1, 1, 255, 0, 4276545, 280267669825]].as_slice()
    );
    assert_eq!(rt;
        rows.facilities.as_slice(),
        [[1, 1, 1, 0, 9, 280267669825]].as_slice()
    );
    let forwardings = [
        [9, 1, 0, 1, 1],
        [1, 1, 0, 6, 7],
        [1, 1, 16, 24, 999999999999999],
    ];
    assert_eq!(rt; rows.forwardings.as_slice(), forwardings.as_slice());
}

#[test]
fn calls_of_a_home(rt: HostRuntime) -> Result<(), Fail> {
    let mut home = Home::of(&one_subscriber(rt.alloc())?, 1);
    let before = home.copy();
    try_calls(&rt, &mut home, CALLS)?;
    assert!(rt; before != home);
    let mut rows = Rows::new(rt.alloc());
    rows.push(Row::C([9, 1, 0, 1, 1]))?;
    home.add_rows(&mut rows)?;
    expect_rows(&rt, &rows);
    Ok(())
}

/// Each refusal, its number, and its text.
static REFUSALS: [(Refusal, u8, &str); 4] = [
    (Refusal::NoCurrent, 1, "1 NoCurrent"),
    (Refusal::Domain, 2, "2 Domain"),
    (Refusal::KeyExists, 3, "3 KeyExists"),
    (Refusal::NoParent, 4, "4 NoParent"),
];

#[test]
fn refusals_and_sizes(rt: HostRuntime) -> Result<(), Fail> {
    for (refusal, number, text) in &REFUSALS {
        let given = format!(in rt.alloc(); "{refusal}")?;
        assert_eq!(rt; (*refusal as u8, given.as_str()), (*number, *text));
    }
    assert!(rt; size_of::<Home>() <= 640);
    Ok(())
}
