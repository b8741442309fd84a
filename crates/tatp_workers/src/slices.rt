//! Steps of a call under one hold of its site's lock.
ghost use Rattle.std.specs.Prelude.{◌≡◌, None, Ok, IfOk, OnErr};
ghost use Rattle.std.specs.Result.{result_and};
ghost use Rattle.tatp_partition.specs.Obstacles.{step_obstacle};
ghost use Rattle.tatp_partition.specs.Running.{AdvancesUnless, stepped_of};
ghost use Rattle.tatp_workers.specs.Growing.{Grows, Does};
ghost use Rattle.tatp_workers.specs.Slices.{IsSlice, step_ahead, steps_ahead, logged_at};

use crate::{Observer, StepAhead};
use std::sync::atomic::{AtomicU64, Ordering};
use tatp_partition::{CompletionBuffer, Site, SiteRefusal, StepKind};

/// The most steps of one call under one hold of the lock.
const MOST_STEPS: u32 = 16;

/// Whether another thread wants the lock.
pub fn is_wanted(wanted: &AtomicU64) -> bool {
    wanted.load(Ordering::SeqCst) != 0
}

/// The running call's next step.
#[inline(always)]
fn step_ahead(site: &Site<'_>) -> Option<StepAhead>
    ensures { result ≡ step_ahead site.now }
{
    match site.machine() {
        None => None,
        Some(machine) => match site.client() {
            None => None,
            Some(client) => Some(StepAhead {
                partition: site.partition(),
                client,
                pc: machine.pc(),
            }),
        },
    }
}

/// One step of the running call, which its observer sees before. A step that is refused isn't seen.
/// Where the call ends, its completion is written to the buffer.
#[inline(always)]
fn observed_step<O: Observer>(
    site: &mut Site<'_>,
    observer: &mut O,
    buffer: &mut CompletionBuffer,
) -> Result<(), SiteRefusal>
    requires { buffer.old ≡ None }
    ensures step { AdvancesUnless (step_obstacle site.old) site.old
        (result_and result (Ok (stepped_of buffer.new))) site.new }
    ensures refused { OnErr result (buffer.new ≡ None) }
    ensures observed { Grows (O.observed observer.old) (O.observed observer.new)
        (steps_ahead site.old) }
{
    if let Err(refusal) = site.check_step() {
        return Err(refusal);
    }
    if let Some(step) = step_ahead(site) {
        observer.before_step(step);
    }
    // Stops and breakpoints were looked at, so they aren't again.
    site.step_into(StepKind::One, buffer)
}

/// Makes up to 16 steps of the running call: it stops at the first after which the call doesn't
/// continue, and after any step if another thread wants the lock. Where the call ends, its
/// completion is written to the buffer.
fn make_steps<O: Observer>(
    site: &mut Site<'_>,
    observer: &mut O,
    wanted: &AtomicU64,
    buffer: &mut CompletionBuffer,
) -> Result<(), SiteRefusal>
    requires { buffer.old ≡ None }
    ensures { Does
        (IsSlice site.old (result_and result (Ok (stepped_of buffer.new))) site.new)
        (O.observed observer.old) (O.observed observer.new) }
{
    for _made in 0..MOST_STEPS - 1 {
        match observed_step(site, observer, buffer) {
            Ok(()) => {
                if buffer.is_some() || is_wanted(wanted) {
                    return Ok(());
                }
            }
            Err(refusal) => return Err(refusal),
        }
    }
    observed_step(site, observer, buffer)
}

/// How many entries the log of the extent has on which a call ended; 0 where the call continues.
fn logged_at(site: &Site<'_>, buffer: &CompletionBuffer) -> u64
    ensures { result ≡ logged_at site.now buffer.now }
{
    match buffer.get() {
        None => 0,
        Some(completion) => site.log_len(completion.extent),
    }
}

/// Makes up to 16 steps of the running call at a site whose lock is held. It stops at the first
/// after which the call doesn't continue, and after any step if another thread wants the lock.
/// Where the call ends, its completion is written to the buffer, and the answer is how many entries
/// the log of its extent has then.
pub fn slice<O: Observer>(
    site: &mut Site<'_>,
    observer: &mut O,
    wanted: &AtomicU64,
    buffer: &mut CompletionBuffer,
) -> Result<u64, SiteRefusal>
    requires { buffer.old ≡ None }
    ensures steps { Does
        (IsSlice site.old (result_and result (Ok (stepped_of buffer.new))) site.new)
        (O.observed observer.old) (O.observed observer.new) }
    ensures logged { IfOk result (λ logged. logged ≡ logged_at site.new buffer.new) }
{
    match make_steps(site, observer, wanted, buffer) {
        Ok(()) => Ok(logged_at(site, buffer)),
        Err(refusal) => Err(refusal),
    }
}
