//! What a run of threads leaves: sites that were stopped, extents that were moved, and what is
//! copied out of locked sites.
ghost use Rattle.std.specs.Prelude.{◌≤◌, length};
ghost use Rattle.tatp_threads.specs.RunPlans.{IsRunPlan};

use std::alloc::{AllocError, Global};
use std::process::Abort;
use std::sync::{Mutex, Wait};
use std::test::*;
use std::thread::Threads;
use tatp_calls::{Ask, Call, ReplyRef};
use tatp_extents::{ExtentParts, discard_all};
use tatp_logs::{ReceiptRef, Receipts};
use tatp_partition::Site;
use tatp_settle_tests::rows::clean_rows;
use tatp_settle_tests::sites::{module, spend_parcels};
use tatp_threads::{Gate, NoGate, RunOutcome, RunOutcomeParts, RunPlan, copy_extent, run_calls};

/// What a run of threads leaves: its sites, how many parcels, which are spent with its chapters,
/// and its receipts.
pub fn unpack<'m>(ran: RunOutcome<'m>) -> (Vec<Site<'m>>, usize, Vec<Receipts>) {
    let RunOutcomeParts {
        sites,
        parcels,
        chapters,
        receipts,
    } = ran.parts();
    discard_all(chapters);
    let parcels_left = parcels.len();
    spend_parcels(parcels);
    (sites, parcels_left, receipts)
}

/// Spends what a run leaves.
pub fn spend(parts: RunOutcomeParts<'_>) {
    let RunOutcomeParts {
        sites,
        parcels,
        chapters,
        receipts: _,
    } = parts;
    discard_all(chapters);
    spend_parcels(parcels);
    discard_all(sites);
}

/// A plan over two partitions, where no log is long enough for a chapter.
pub fn plan_of<'w>(lists: &'w [Vec<Ask>], moves: &'w [(u32, u8)], stops: &'w [u8]) -> RunPlan<'w>
    requires some_clients { 1 ≤ length lists.now }
    requires few_clients { length lists.now ≤ 64 }
    ensures { IsRunPlan result }
{
    RunPlan {
        partitions: 2,
        lists,
        moves,
        stops,
        chapter: 1000,
    }
}

/// The call of the one client.
const ASK: Call = Call::UpdateLocation {
    sub_nbr: 1,
    vlr_location: 7,
};

/// What is to be seen of what a run leaves.
#[derive(Drop)]
struct Left {
    /// How often each site was stopped, that of the last partition first.
    stops: Vec<u64>,
    /// The partition, the number and the moves of each extent that was moved.
    moves: Vec<(u8, u32, u16)>,
    /// Copies of the extents 1 and 3 at each site, the last site first.
    copies: Vec<Option<ExtentParts>>,
    parcels: usize,
    receipts: Vec<Receipts>,
}

/// Spends a site, and adds which extents at it were moved.
fn spend_moved(site: Site<'_>, moves: &mut Vec<(u8, u32, u16)>) {
    let partition = site.partition();
    let (mut slots, _homeless) = site.close();
    while let Some(slot) = slots.pop() {
        match slot {
            None => {}
            Some(extent) => {
                let parts = extent.close();
                if parts.moves > 0 {
                    let _pushed = moves.push((partition, parts.number, parts.moves));
                }
            }
        }
    }
    slots.destroy_empty();
}

/// Adds a copy of an extent at a locked site.
fn add_copy<R: Wait>(
    rt: &R,
    alloc: Global,
    site: &Mutex<Site<'_>>,
    extent: u32,
    copies: &mut Vec<Option<ExtentParts>>,
) {
    if let Ok(copy) = copy_extent(rt, alloc, site, extent) {
        let _pushed = copies.push(copy);
    }
}

/// Looks at each site, the last first, and spends it.
fn look<R: Wait>(rt: &R, alloc: Global, sites: Vec<Site<'_>>, left: &mut Left) {
    let mut rest = sites;
    while let Some(site) = rest.pop() {
        let _pushed = left.stops.push(site.stops());
        let site = Mutex::new(site);
        add_copy(rt, alloc, &site, 1, &mut left.copies);
        add_copy(rt, alloc, &site, 3, &mut left.copies);
        spend_moved(site.into_inner(), &mut left.moves);
    }
    rest.destroy_empty();
}

/// What a run leaves.
fn left_by<R: Wait>(rt: &R, alloc: Global, ran: RunOutcome<'_>) -> Left {
    let (sites, parcels, receipts) = unpack(ran);
    let mut left = Left {
        stops: Vec::new(alloc),
        moves: Vec::new(alloc),
        copies: Vec::new(alloc),
        parcels,
        receipts,
    };
    look(rt, alloc, sites, &mut left);
    left
}

/// What a run of clients' calls on 130 subscribers leaves.
fn left_by_run<R: Threads + Wait + Sync, G: Gate + Sync>(
    rt: &R,
    alloc: Global,
    plan: RunPlan<'_>,
    gate: &G,
) -> Result<Left, Fail>
    requires { IsRunPlan plan }
{
    let loaded = module(alloc)?;
    let rows = clean_rows(alloc, 130, &[])?;
    match run_calls(rt, alloc, &loaded, rows, plan, gate) {
        Err(_) => Err("no run".into()),
        Ok(ran) => Ok(left_by(rt, alloc, ran)),
    }
}

/// How many receipts each client gets in a run, and how often each site was stopped, that of the
/// last partition first.
pub fn receipts_and_stops<R: Threads + Wait + Sync, G: Gate + Sync>(
    rt: &R,
    alloc: Global,
    plan: RunPlan<'_>,
    gate: &G,
) -> Result<(Vec<usize>, Vec<u64>), Fail>
    requires { IsRunPlan plan }
{
    let left = left_by_run(rt, alloc, plan, gate)?;
    let mut counts = Vec::new(alloc);
    for receipts in &left.receipts {
        counts.push(receipts.len())?;
    }
    let Left { stops, .. } = left;
    Ok((counts, stops))
}

/// How many receipts each client gets in a run with no moves and no stops.
pub fn receipts_of_run<R: Threads + Wait + Sync, G: Gate + Sync>(
    rt: &R,
    alloc: Global,
    lists: &[Vec<Ask>],
    gate: &G,
) -> Result<Vec<usize>, Fail>
    requires some_clients { 1 ≤ length lists.now }
    requires few_clients { length lists.now ≤ 64 }
{
    let (counts, _stops) = receipts_and_stops(rt, alloc, plan_of(lists, &[], &[]), gate)?;
    Ok(counts)
}

/// Whether the receipt is that of the first call, which changed a row of extent 1 and puts nothing
/// out.
fn is_first(receipt: Option<ReceiptRef<'_>>) -> bool {
    match receipt {
        Some(
            ReceiptRef::Done {
                client,
                number,
                reply,
                extent,
                stamp,
            },
        ) => matches!(reply, ReplyRef::Values(_))
            && (client, number, extent, stamp) == (0, 0, 1, 1),
        _ => false,
    }
}

/// The sites were stopped and the extents moved so, and the one call was answered.
fn expect_left(rt: &impl Abort, left: &Left) {
    assert_eq!(rt; left.stops.as_slice(), [1, 2].as_slice());
    assert_eq!(rt; left.moves.as_slice(), [(1, 3, 3)].as_slice());
    assert_eq!(rt; (left.parcels, left.receipts.len()), (0, 1));
    assert_eq!(rt; left.receipts[0].len(), 1);
    assert!(rt; is_first(left.receipts[0].get(0)));
}

/// Extent 3 was moved three times, and no call was made there.
fn expect_third(rt: &impl Abort, parts: &ExtentParts) {
    assert_eq!(rt; (parts.number, parts.moves, parts.mixed), (3, 3, false));
    assert_eq!(rt; parts.log.len(), 0);
}

/// Extent 1 was not moved, has the call in its log, and the location before it and after it.
fn expect_first(rt: &impl Abort, parts: &ExtentParts) {
    assert_eq!(rt; (parts.number, parts.moves, parts.mixed), (1, 0, false));
    assert_eq!(rt;
        (
            parts.log.len(),
            parts.opening.as_slice().len(),
            parts.homes.len()
        ),
        (1, 64, 64)
    );
    match parts.log.get(0) {
        Some(entry) => assert_eq!(rt; (entry.ask, entry.stamp), (Ask::Txn(ASK), 1)),
        None => panic!(rt; "no entry"),
    }
    let before = parts.opening.as_slice()[0].get(33, [1, 0, 0]);
    let after = parts.homes[0].get(33, [1, 0, 0]);
    assert_eq!(rt; (before, after), (Some(1), Some(7)));
}

/// Moves to both partitions and to none.
static MOVES: [(u32, u8); 6] = [(3, 1), (3, 0), (0, 1), (3, 2), (4, 1), (3, 1)];

/// Stops of both partitions and of none.
static STOPS: [u8; 4] = [0, 1, 2, 0];

// A mover that moves nothing, or a debugger that stops nothing, leaves other numbers.
#[test]
fn extents_are_moved_and_copied_and_sites_stopped(rt: HostRuntime) -> Result<(), Fail> {
    let alloc = rt.alloc();
    let lists = vec![in alloc; vec![in alloc; Ask::Txn(ASK)]?]?;
    let plan = plan_of(lists.as_slice(), &MOVES, &STOPS);
    let left = left_by_run(&rt, alloc, plan, &NoGate)?;
    expect_left(&rt, &left);
    let [None, Some(third), Some(first), None] = left.copies.as_slice() else {
        return Err("other copies".into());
    };
    expect_third(&rt, third);
    expect_first(&rt, first);
    Ok(())
}
