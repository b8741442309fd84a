//! Any event.
ghost use Rattle.std.specs.Prelude.{◌≡◌, OnErr};

use super::World;
use crate::{Answer, Event, Refusal};
use tatp_partition::StepKind;

impl<'m> World<'m> {
    ghost use Rattle.tatp_dispatch.specs.Events.{Happens};
    ghost use Rattle.tatp_dispatch.specs.Serving.{Tells};

    /// One event. The events of a call, of which most runs consist, are inlined here, and any other
    /// has a function of its own; [`tatp_partition::CompletionBuffer`] says why.
    #[inline(always)]
    pub fn apply(&mut self, event: Event) -> Result<Answer, Refusal>
        ensures happens { Happens self.old event result self.new }
        ensures tells { Tells self.old result self.new }
        ensures refused { OnErr result (self.new ≡ self.old) }
    {
        match event {
            Event::Submit(client, ask) => self.submit(client, ask),
            Event::Begin(p) => self.begin(p),
            Event::Deny(p) => self.deny(p),
            Event::Step(p) => self.step(p, StepKind::Step),
            Event::Take(p, e) => self.take(p, e),
            Event::Give(p, e) => self.give(p, e),
            Event::Route(e, moves) => self.route(e, moves),
            Event::Checkpoint(p, e) => self.checkpoint(p, e),
            Event::Stop(p) => self.stop(p),
            Event::Resume(p) => self.resume(p),
            Event::One(p) => self.step(p, StepKind::One),
            Event::Break(p, procedure, pc) => self.set_break(p, procedure, pc),
            Event::Clear(p, procedure, pc) => self.clear_break(p, procedure, pc),
        }
    }
}
