//! Nothing here runs. It shows that the contracts of the workers say something: these surroundings
//! keep what is done, and each worker over them is proved to do what its contract says. The
//! surroundings of threads are behind locks, where nothing is known of what is done.
ghost use Rattle.std.specs.Prelude.{◌≡◌, [], ◌∷◌, List, None, Ok, false, length, vec_len, vec_capacity, ◌<◌, ◌≤◌, ◌++◌};
ghost use Rattle.tatp_extents.specs.Extents.{ExtentState};
ghost use Rattle.tatp_workers.specs.Growing.{Grows, InTurn, known_unless};
ghost use Rattle.tatp_workers.specs.Asking.{Conversation, Converses};
ghost use Rattle.tatp_workers.specs.Clients.{asks_of};
ghost use Rattle.tatp_workers.specs.Carrying.{MakesMoves};
ghost use Rattle.tatp_workers.specs.Debugging.{IsDebugged};
ghost use Rattle.tatp_workers.specs.Executing.{ExecutesUntilQuit};
ghost use Rattle.std.specs.Result.{result_and};
ghost use Rattle.tatp_partition.specs.Running.{stepped_of};
ghost use Rattle.tatp_workers.specs.Slices.{IsSlice};

use std::alloc::Global;
use std::slice;
use std::sync::Wait;
use std::sync::atomic::AtomicU64;
use tatp_calls::Ask;
use tatp_debug::Snapshot;
use tatp_extents::Discard;
use tatp_logs::Receipts;
use tatp_move::{MoveRefusal, Plan};
use tatp_numbers::Directory;
use tatp_partition::{
    Completion, CompletionBuffer, Item, Landed, Parcel, Site, SiteRefusal, Stepped,
};
use tatp_workers::{
    Answering, AskEffect, Carrying, Checkpointed, Client, Debugging, Delivery, Effect, Executing,
    Looked, Message, MoveEffect, Observer, Offered, Requester, StepAhead, ask_all, debug_all,
    move_all, slice as make_slice, take_calls,
};

/// What was done, kept as long as there is memory for it.
#[derive(Drop)]
struct Record<T> {
    kept: Vec<T>,
    is_lost: bool,
}

impl<T> Record<T> {
    /// Nothing was done.
    fn new(alloc: Global) -> Record<T>
        ensures kept { result.kept.items ≡ [] }
        ensures all { result.is_lost ≡ false }
    {
        Record {
            kept: Vec::new(alloc),
            is_lost: false,
        }
    }
}

impl<T: Copy> Record<T> {
    /// One thing more was done.
    #[tactic(auto, using(tatp_workers::proofs::GrowthLaws::grows_by))]
    fn keep(&mut self, it: T)
        ensures { Grows (known_unless self.old.is_lost self.old.kept.items)
            (known_unless self.new.is_lost self.new.kept.items) (it ∷ []) }
    {
        if self.kept.push(it).is_err() {
            self.is_lost = true;
        }
    }
}

impl Observer for Record<StepAhead> {
    ghost observed = { λ r. known_unless r.is_lost r.kept.items };

    fn before_step(&mut self, step: StepAhead) {
        self.keep(step);
    }
}

/// Keeps what is done for a client at its end. Each call is taken, and dropped.
struct Dropping;

impl Requester<Record<AskEffect>> for Dropping {
    ghost effects = { λ r. known_unless r.is_lost r.kept.items };

    fn ask(&self, end: &mut Record<AskEffect>, item: &Item) -> bool {
        end.keep(AskEffect::Asks(*item, true));
        true
    }

    fn look(
        &self,
        end: &mut Record<AskEffect>,
        _client: u64,
        _number: u64,
        _receipts: &mut Receipts,
    ) -> Looked {
        end.keep(AskEffect::Gets(None));
        Looked::Dropped
    }

    fn wait(&self, _rounds: u32) {}
}

impl Carrying for Record<MoveEffect> {
    ghost effects = { λ r. known_unless r.is_lost r.kept.items };

    /// Each extent is in partition 0.
    fn plan(&mut self, extent: u32, to: u8) -> Result<Plan, MoveRefusal> {
        let plan = Ok(Plan {
            first: extent,
            last: extent,
            from: 0,
            to,
        });
        self.keep(MoveEffect::Plans(extent, to, plan));
        plan
    }

    /// Each extent is pinned.
    fn take(&mut self, from: u8, extent: u32) -> Result<Parcel, SiteRefusal> {
        self.keep(MoveEffect::Takes(from, extent, Some(SiteRefusal::Pinned)));
        Err(SiteRefusal::Pinned)
    }

    /// No site takes a parcel.
    fn give(&mut self, to: u8, parcel: Parcel) -> Result<Landed, Parcel> {
        self.keep(MoveEffect::Gives(to, parcel.number(), false));
        Err(parcel)
    }

    fn settle(&mut self, landed: Landed) {
        self.keep(MoveEffect::Settles(landed.number()));
        landed.discard();
    }
}

impl Answering for Record<Effect> {
    ghost effects = { λ r. known_unless r.is_lost r.kept.items };

    fn answer(&mut self, client: u64, delivery: &Delivery) {
        self.keep(Effect::Answers(client, *delivery));
    }

    fn deliver_receipt(&mut self, completion: &Completion) {
        let mut delivery = Delivery::Dropped;
        delivery.write_receipt(completion);
        self.keep(Effect::Answers(completion.entry.client, delivery));
    }

    fn tell(&mut self, partition: u8, client: u64) {
        self.keep(Effect::Tells(partition, client));
    }
}

/// Each site is stopped; a look at it is refused, and its call makes its step.
impl Debugging for Record<Effect> {
    fn stop(&mut self, partition: u8) -> bool {
        self.keep(Effect::Stops(partition, true));
        true
    }

    fn look(&mut self, partition: u8) -> Result<Snapshot, SiteRefusal> {
        self.keep(Effect::Looks(partition, Err(SiteRefusal::NotRunning)));
        Err(SiteRefusal::NotRunning)
    }

    fn one(&mut self, partition: u8) -> Result<Stepped, SiteRefusal> {
        self.keep(Effect::Steps(partition, Ok(Stepped::Moved)));
        Ok(Stepped::Moved)
    }

    fn resume(&mut self, partition: u8) {
        self.keep(Effect::Resumes(partition));
    }
}

/// No call comes, a site would drop each, and each log is short.
impl Executing for Record<Effect> {
    fn receive(&mut self) -> Option<Message> {
        self.keep(Effect::Receives(None));
        None
    }

    fn offer(&mut self, item: &Item) -> Offered {
        self.keep(Effect::Offers(*item, Offered::Dropped));
        Offered::Dropped
    }

    fn slice(&mut self, _ended: &mut CompletionBuffer) -> Result<u64, SiteRefusal> {
        self.keep(Effect::Slices(Err(SiteRefusal::NotRunning), 0));
        Err(SiteRefusal::NotRunning)
    }

    fn checkpoint(&mut self, extent: u32, chapter: u64) -> Checkpointed {
        self.keep(Effect::Checkpoints(extent, chapter, Checkpointed::Short));
        Checkpointed::Short
    }

    fn send(&mut self, item: Item) -> bool {
        self.keep(Effect::Sends(item, true));
        true
    }
}

/// An executor runs calls.
#[tactic(auto, using(tatp_workers::proofs::GrowthLaws::all_recorded))]
fn execute_each<R: Wait>(rt: &R, alloc: Global) -> Record<Effect>
    ensures { result.is_lost ≡ false → ExecutesUntilQuit 0 1 result.kept.items }
{
    let mut executing = Record::new(alloc);
    take_calls(rt, &mut executing, 0, 1);
    executing
}

/// The debugger makes stops.
#[tactic(auto, using(tatp_workers::proofs::GrowthLaws::all_recorded))]
fn debug_each(alloc: Global, stops: &[u8]) -> Record<Effect>
    ensures { result.is_lost ≡ false
        → InTurn IsDebugged stops.now (length stops.now) result.kept.items }
{
    let mut debugging = Record::new(alloc);
    debug_all(&mut debugging, stops);
    debugging
}

/// The mover makes moves.
#[tactic(auto, using(tatp_workers::proofs::GrowthLaws::all_recorded))]
fn move_each(alloc: Global, moves: &[(u32, u8)], hand: &mut Vec<Parcel>) -> Record<MoveEffect>
    requires room { vec_len hand.old < vec_capacity hand.old }
    ensures { (kept : List ExtentState)
        × (result.is_lost ≡ false → MakesMoves moves.now kept result.kept.items)
        × (hand.new.items ≡ hand.old.items ++ kept) }
{
    let mut carrying = Record::new(alloc);
    move_all(&mut carrying, moves, hand);
    carrying
}

/// A client asks calls.
#[tactic(auto, using(tatp_workers::proofs::GrowthLaws::all_recorded))]
fn ask_each<R: Wait>(
    rt: &R,
    alloc: Global,
    directory: &Directory,
    lists: &[Vec<Ask>],
    receipts: Receipts,
) -> Client<Record<AskEffect>>
    requires room { length (asks_of lists.now 0) ≤ receipts.room }
    ensures { (conversation : Conversation)
        × Converses directory.now 0 (asks_of lists.now 0) conversation
        × (result.end.is_lost ≡ false → result.end.kept.items ≡ conversation.effects)
        × (result.receipts.receipts ≡ receipts.receipts ++ conversation.receipts) }
{
    let mut client = Client::new(0, Record::new(alloc), receipts);
    ask_all(
        rt,
        &Dropping,
        directory,
        lists,
        slice::from_mut(&mut client),
    );
    client
}

/// A call makes steps at a site.
#[tactic(auto, using(tatp_workers::proofs::GrowthLaws::all_recorded))]
fn slice_once(
    site: &mut Site<'_>,
    alloc: Global,
    wanted: &AtomicU64,
    buffer: &mut CompletionBuffer,
) -> (Record<StepAhead>, Result<u64, SiteRefusal>)
    requires { buffer.old ≡ None }
    ensures { result.0.is_lost ≡ false
        → IsSlice site.old (result_and result.1 (Ok (stepped_of buffer.new))) site.new
        result.0.kept.items }
{
    let mut observer = Record::new(alloc);
    let made = make_slice(site, &mut observer, wanted, buffer);
    (observer, made)
}
