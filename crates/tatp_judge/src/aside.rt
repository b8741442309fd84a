//! Subscribers of whom it isn't known whether an order explains their calls.
ghost use Rattle.std.specs.Prelude.{◌≡◌, ◌≤◌, ◌∷◌, ◌++◌, [], OnOk, length, true};
ghost use Rattle.tatp_judge.specs.Aside.{SetsAside, undecided_in};
ghost use Rattle.tatp_judge.specs.Steps.{AreEach};

use crate::judge::Judge;
use crate::window::Window;
use std::alloc::{AllocError, Global};

/// A subscriber that was set aside, since more of its configurations are possible than may be kept.
#[derive(Clone, Copy, Debug, PartialEq, Eq)]
pub struct Undecided {
    /// How many lines were followed.
    pub line: u64,
    /// The subscriber.
    pub s_id: u64,
}

impl Window {
    /// From now on nothing is kept but how many calls are open.
    fn set_aside(&mut self, alloc: Global)
        ensures aside { self.new.aside ≡ true }
        ensures waiting { self.new.waiting ≡ self.old.waiting }
    {
        self.explanations.release(alloc);
        self.events = Vec::new(alloc);
        self.numbers = Vec::new(alloc);
        self.only = Vec::new(alloc);
        self.aside = true;
    }
}

/// Sets the window of this subscriber aside.
fn set_aside_in(alloc: Global, windows: &mut Vec<Window>, s_id: u64)
    requires { (1 ≤ s_id) × (s_id ≤ length windows.old.items) }
    ensures { AreEach (SetsAside s_id) windows.old.items windows.new.items }
{
    windows[s_id as usize - 1].set_aside(alloc);
}

impl Judge {
    /// The subscribers that were set aside, in the order of the lines by which they were.
    pub fn undecided(&self) -> &[Undecided]
        ensures { result.now ≡ undecided_in self.now }
    {
        self.undecided.as_slice()
    }

    /// Sets the subscriber aside, by the lines that were followed.
    pub(crate) fn set_aside(&mut self, alloc: Global, s_id: u64) -> Result<(), AllocError>
        requires { (1 ≤ s_id) × (s_id ≤ length self.old.windows.items) }
        ensures windows { OnOk result
            (AreEach (SetsAside s_id) self.old.windows.items self.new.windows.items) }
        ensures undecided { OnOk result (self.new.undecided.items ≡ self.old.undecided.items
            ++ record { line = self.old.number; s_id = s_id } ∷ []) }
        ensures directory { self.new.directory ≡ self.old.directory }
        ensures asked { self.new.asked ≡ self.old.asked }
        ensures number { self.new.number ≡ self.old.number }
        ensures exact { self.new.exact ≡ self.old.exact }
    {
        self.undecided.push(Undecided {
            line: self.number,
            s_id,
        })?;
        set_aside_in(alloc, &mut self.windows, s_id);
        Ok(())
    }
}
