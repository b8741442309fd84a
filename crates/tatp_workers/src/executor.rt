//! What the executor of one partition does.
ghost use Rattle.std.specs.Prelude.{◌≡◌, Ok};
ghost use Rattle.std.specs.Result.{result_and};
ghost use Rattle.tatp_partition.specs.Running.{stepped_of};
ghost use Rattle.tatp_workers.specs.Growing.{Does};
ghost use Rattle.tatp_workers.specs.Executing.{IsOffered, ChecksFull, FinishesCall, Finishes, RunsToItsEnd, ExecutesCall, ExecutesUntilQuit, is_not_running, continues};
ghost use Rattle.tatp_workers.specs.Slices.{logged_by};

use crate::effects::{conclude, follow};
use crate::{Executing, Message};
use std::sync::Wait;
use std::thread;
use tatp_partition::{Completion, CompletionBuffer, Item, SiteRefusal};

/// Takes one call after another out of an inbox and runs it, until Quit. After the end of a call a
/// checkpoint of its extent is made if the log has `chapter` entries or more. Each completion is
/// written to one buffer, which is made once.
pub fn take_calls<R: Wait, E: Executing>(rt: &R, executing: &mut E, partition: u8, chapter: u64)
    ensures { Does (ExecutesUntilQuit partition chapter) (E.effects executing.old)
        (E.effects executing.new) }
{
    let mut buffer = CompletionBuffer::empty();
    for _round in rt.forever() {
        match executing.receive() {
            None => return,
            Some(Message::Quit) => return,
            Some(Message::Call(item)) => {
                execute_call(rt, executing, partition, chapter, &item, &mut buffer)
            }
        }
    }
    unreachable!()
}

/// Offers a call, and runs it to its end where it begins.
fn execute_call<R: Wait, E: Executing>(
    rt: &R,
    executing: &mut E,
    partition: u8,
    chapter: u64,
    item: &Item,
    buffer: &mut CompletionBuffer,
)
    ensures { Does (ExecutesCall partition chapter item.now) (E.effects executing.old)
        (E.effects executing.new) }
{
    if begin(rt, executing, item) {
        run(rt, executing, partition, chapter, buffer);
    }
}

/// Offers a call until it begins or can't. Whether it began.
fn begin<R: Wait, E: Executing>(rt: &R, executing: &mut E, item: &Item) -> bool
    ensures { Does (IsOffered item.now result) (E.effects executing.old) (E.effects executing.new) }
{
    for _round in rt.forever() {
        let offered = executing.offer(item);
        if offered.is_again() {
            thread::yield_now();
        } else {
            follow(executing, item, offered);
            return offered.has_begun();
        }
    }
    unreachable!()
}

/// Whether no call runs any more.
fn is_not_running(refusal: &SiteRefusal) -> bool
    ensures { result ≡ is_not_running refusal.now }
{
    matches!(refusal, SiteRefusal::NotRunning)
}

/// Whether more steps are to be made after a slice that answered this and left this completion, if
/// any.
fn continues(made: &Result<u64, SiteRefusal>, buffer: &CompletionBuffer) -> bool
    ensures { result ≡ continues (result_and made.now (Ok (stepped_of buffer.now))) }
{
    match made {
        Ok(_) => !buffer.is_some(),
        Err(refusal) => !is_not_running(refusal),
    }
}

/// Has the log of an extent handed out if it has `chapter` entries or more. It has `logged`.
fn check_log<E: Executing>(executing: &mut E, extent: u32, chapter: u64, logged: u64)
    ensures { Does (ChecksFull extent chapter logged) (E.effects executing.old)
        (E.effects executing.new) }
{
    if logged >= chapter {
        let _done = executing.checkpoint(extent, chapter);
    }
}

/// Concludes a call that ended, and then has the log of its extent handed out if that is due.
fn finish_call<E: Executing>(
    executing: &mut E,
    partition: u8,
    chapter: u64,
    completion: &Completion,
    logged: u64,
)
    ensures { Does (FinishesCall partition chapter completion.now logged) (E.effects executing.old)
        (E.effects executing.new) }
{
    conclude(executing, partition, completion);
    check_log(executing, completion.extent, chapter, logged);
}

/// Finishes the call where the steps that were made have ended it.
fn finish<E: Executing>(
    executing: &mut E,
    partition: u8,
    chapter: u64,
    made: &Result<u64, SiteRefusal>,
    buffer: &CompletionBuffer,
)
    ensures { Does
        (Finishes partition chapter (result_and made.now (Ok (stepped_of buffer.now)))
        (logged_by made.now))
        (E.effects executing.old) (E.effects executing.new) }
{
    if let Ok(logged) = made {
        if let Some(completion) = buffer.get() {
            finish_call(executing, partition, chapter, completion, *logged);
        }
    }
}

/// Runs the call that began to its end, unless the debugger ends it.
fn run<R: Wait, E: Executing>(
    rt: &R,
    executing: &mut E,
    partition: u8,
    chapter: u64,
    buffer: &mut CompletionBuffer,
)
    ensures { Does (RunsToItsEnd partition chapter) (E.effects executing.old)
        (E.effects executing.new) }
{
    for _round in rt.forever() {
        buffer.clear();
        let made = executing.slice(buffer);
        if continues(&made, buffer) {
            if made.is_err() {
                thread::yield_now();
            }
        } else {
            finish(executing, partition, chapter, &made, buffer);
            return;
        }
    }
    unreachable!()
}
