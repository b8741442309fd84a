//! Why runs are refused.
use super::threads::{plan_of, unpack};
use std::alloc::{AllocError, Global};
use std::sync::Wait;
use std::test::*;
use std::thread::Threads;
use tatp_calls::{Ask, Call, Raw};
use tatp_extents::discard_all;
use tatp_numbers::Key;
use tatp_settle_tests::rows::clean_rows;
use tatp_settle_tests::sites::module;
use tatp_tables::{Row, Rows};
use tatp_threads::{NoGate, run_calls};

/// Why a run of these calls on these rows is refused.
fn told<R: Threads + Wait + Sync>(
    rt: &R,
    alloc: Global,
    rows: Rows,
    ask: Ask,
) -> Result<String, Fail> {
    let lists = vec![in alloc; vec![in alloc; ask]?]?;
    let loaded = module(alloc)?;
    let plan = plan_of(lists.as_slice(), &[], &[]);
    match run_calls(rt, alloc, &loaded, rows, plan, &NoGate) {
        Err(refusal) => Ok(format!(in alloc; "{refusal}")?),
        Ok(ran) => {
            let (sites, _parcels, _receipts) = unpack(ran);
            discard_all(sites);
            Err("a run".into())
        }
    }
}

/// A call that can be run.
const READING: Ask = Ask::Txn(Call::GetSubscriberData { s_id: 1 });

/// Rows with one row twice.
fn with_a_row_twice(alloc: Global) -> Result<Rows, AllocError> {
    let mut rows = clean_rows(alloc, 2, &[])?;
    rows.push(Row::A([2, 1, 0, 0, 4276545, 280267669825]))?;
    Ok(rows)
}

// The rows come first, with the verdict on them.
#[test]
fn refused_runs_say_why(rt: HostRuntime) -> Result<(), Fail> {
    let alloc = rt.alloc();
    let outside = Ask::Txn(Call::UpdateLocation {
        sub_nbr: 1,
        vlr_location: 0,
    });
    let lacking = Ask::Raw(Raw::new(7, &[], Key::Id(1)));
    let text = told(&rt, alloc, with_a_row_twice(alloc)?, lacking)?;
    assert_eq!(rt; text.as_str(), "27 NotClean A3 A 2 1");
    let text = told(&rt, alloc, clean_rows(alloc, 2, &[])?, lacking)?;
    assert_eq!(rt; text.as_str(), "48 NoProcedure");
    let text = told(&rt, alloc, clean_rows(alloc, 2, &[])?, outside)?;
    assert_eq!(rt; text.as_str(), "26 BadArgument 1");
    let text = told(&rt, alloc, Rows::new(alloc), READING)?;
    assert_eq!(rt; text.as_str(), "27 NotClean A1 1");
    Ok(())
}
