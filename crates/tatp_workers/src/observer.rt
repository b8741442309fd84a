//! Who sees each step before it is made.
ghost use Rattle.std.specs.Prelude.{◌≡◌, List, Option, None, [], ◌∷◌};
ghost use Rattle.tatp_workers.specs.Growing.{Grows};
ghost use Rattle.tatp_workers.specs.declared.observer.StepAhead.{StepAhead};

use crate::Gate;

/// A step that is about to be made: in which partition, of whose call, and at which position of its
/// procedure.
#[derive(Clone, Copy)]
pub struct StepAhead {
    /// The partition.
    pub partition: u8,
    /// Whose call it is.
    pub client: u64,
    /// The position of the instruction in its procedure.
    pub pc: usize,
}

/// Sees each step before it is made.
pub trait Observer {
    /// The steps that were seen, where they are known.
    ghost observed: { Self → Option (List StepAhead) } = { λ _. None };

    /// A step is about to be made.
    fn before_step(&mut self, step: StepAhead)
        ensures { Grows (observed self.old) (observed self.new) (step ∷ []) };
}

/// Passes each step on to a gate.
#[derive(Drop)]
pub struct Gated<'g, G> {
    /// The gate.
    pub gate: &'g G,
}

impl<G: Gate> Observer for Gated<'_, G> {
    #[inline(always)]
    fn before_step(&mut self, step: StepAhead) {
        self.gate.before_step(step.partition, step.client, step.pc);
    }
}
