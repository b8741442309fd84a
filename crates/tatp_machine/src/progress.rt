//! What a step answers.
ghost use Rattle.std.specs.Prelude.{◌≡◌};
ghost use Rattle.tatp_machine.specs.Machines.{progress_after};

use tatp_instr::{End, Trap};

/// What a step answers.
#[derive(Clone, Copy, Debug, PartialEq, Eq)]
pub enum Progress {
    /// The call continues.
    Running,
    /// That was its last step.
    Ended(End),
}

/// What became of a write that an instruction makes. It fits a register, as a [`Progress`] doesn't:
/// a step with a place for an answer pays for that whether or not it writes.
#[derive(Clone, Copy)]
pub(crate) enum WriteOutcome {
    /// It was made, or it wasn't and the call was given the reason.
    Made,
    /// No row was current, so the call has ended.
    NoCurrent,
    /// A value was outside its column's domain, so the call has ended.
    Domain,
}

/// What a step answers that wrote.
#[inline(always)]
pub(crate) fn progress_after(outcome: WriteOutcome) -> Progress
    ensures { result ≡ progress_after outcome }
{
    match outcome {
        WriteOutcome::Made => Progress::Running,
        WriteOutcome::NoCurrent => Progress::Ended(End::Trapped(Trap::NoCurrent)),
        WriteOutcome::Domain => Progress::Ended(End::Trapped(Trap::Domain)),
    }
}
