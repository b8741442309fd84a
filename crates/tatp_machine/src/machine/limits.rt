//! The limits of a call. They are those of version 2, but no call of version 1 comes so far, so
//! nothing here asks for the version.
ghost use Rattle.std.specs.Prelude.{◌≡◌, length, nat_lt};
ghost use Rattle.tatp_loader.specs.Lawful.{is_end};
ghost use Rattle.tatp_machine.specs.Instructions.{is_last_step};

use super::Machine;
use tatp_instr::Instr;
use tatp_limits::{MAX_OUTPUTS, MAX_STEPS, MAX_WRITES};

impl<'m> Machine<'m> {
    /// Whether the next step is the last that the call may make.
    #[inline(always)]
    pub(super) fn is_last_step(&self) -> bool
        ensures { result ≡ is_last_step self.now.frame }
    {
        self.steps >= MAX_STEPS - 1
    }

    /// Whether the call may put out one value more.
    #[inline(always)]
    pub(super) fn may_put_out(&self) -> bool
        ensures { result ≡ nat_lt (length self.now.frame.outputs) MAX_OUTPUTS }
    {
        self.output_count < MAX_OUTPUTS
    }

    /// Whether the call may make one write more.
    #[inline(always)]
    pub(super) fn may_write(&self) -> bool
        ensures { result ≡ nat_lt self.now.frame.writes MAX_WRITES }
    {
        self.writes < MAX_WRITES
    }
}

/// Whether an instruction ends the call.
pub(super) fn is_end(instr: &Instr) -> bool
    ensures { result ≡ is_end instr.now }
{
    matches!(instr, Instr::Done | Instr::Fail(_))
}
