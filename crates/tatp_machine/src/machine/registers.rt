//! The rows of the table that work on registers and places alone: LDI to JZ, OUT and LOOP.
ghost use Rattle.std.specs.Prelude.{◌≡◌, ◌+◌, ◌<◌, true, length};
ghost use Rattle.tatp_tables.specs.Database.{Database};
ghost use Rattle.tatp_instr.specs.Versions.{is_in};
ghost use Rattle.tatp_machine.specs.Instructions.{IsNext};
ghost use Rattle.tatp_machine.specs.Machines.{Reads};
ghost use Rattle.tatp_machine.specs.Sound.{FitsAt};

use super::Machine;
use crate::Progress;
use tatp_instr::{Instr, Register};
use tatp_limits::{MAX_OUTPUTS, MAX_STEPS};

impl<'m> Machine<'m> {
    pub(super) fn ldi(&mut self, d: Register, n: u32) -> Progress
        requires fits { FitsAt self.old.frame (Instr.Ldi d n) }
        requires more { self.old.frame.steps + 1 < MAX_STEPS }
        ensures { (v : Database) → Reads (Instr.Ldi d n) self.old v result self.new }
    {
        self.set(d, u64::from(n))
    }

    pub(super) fn mov(&mut self, d: Register, a: Register) -> Progress
        requires fits { FitsAt self.old.frame (Instr.Mov d a) }
        requires more { self.old.frame.steps + 1 < MAX_STEPS }
        ensures { (v : Database) → Reads (Instr.Mov d a) self.old v result self.new }
    {
        let x = self.value(a);
        self.set(d, x)
    }

    pub(super) fn arg(&mut self, d: Register, k: u32) -> Progress
        requires fits { FitsAt self.old.frame (Instr.Arg d k) }
        requires more { self.old.frame.steps + 1 < MAX_STEPS }
        ensures { (v : Database) → Reads (Instr.Arg d k) self.old v result self.new }
    {
        let x = self.argument(k);
        self.set(d, x)
    }

    pub(super) fn add(&mut self, d: Register, a: Register, b: Register) -> Progress
        requires fits { FitsAt self.old.frame (Instr.Add d a b) }
        requires more { self.old.frame.steps + 1 < MAX_STEPS }
        ensures { (v : Database) → Reads (Instr.Add d a b) self.old v result self.new }
    {
        let sum = self.value(a).wrapping_add(self.value(b));
        self.set(d, sum)
    }

    pub(super) fn sub(&mut self, d: Register, a: Register, b: Register) -> Progress
        requires fits { FitsAt self.old.frame (Instr.Sub d a b) }
        requires more { self.old.frame.steps + 1 < MAX_STEPS }
        ensures { (v : Database) → Reads (Instr.Sub d a b) self.old v result self.new }
    {
        let difference = self.value(a).wrapping_sub(self.value(b));
        self.set(d, difference)
    }

    pub(super) fn eq(&mut self, d: Register, a: Register, b: Register) -> Progress
        requires fits { FitsAt self.old.frame (Instr.Eq d a b) }
        requires more { self.old.frame.steps + 1 < MAX_STEPS }
        ensures { (v : Database) → Reads (Instr.Eq d a b) self.old v result self.new }
    {
        let equal = self.value(a) == self.value(b);
        self.set(d, u64::from(equal))
    }

    pub(super) fn lt(&mut self, d: Register, a: Register, b: Register) -> Progress
        requires fits { FitsAt self.old.frame (Instr.Lt d a b) }
        requires more { self.old.frame.steps + 1 < MAX_STEPS }
        ensures { (v : Database) → Reads (Instr.Lt d a b) self.old v result self.new }
    {
        let below = self.value(a) < self.value(b);
        self.set(d, u64::from(below))
    }

    pub(super) fn jmp(&mut self, t: u32) -> Progress
        requires fits { FitsAt self.old.frame (Instr.Jmp t) }
        requires more { self.old.frame.steps + 1 < MAX_STEPS }
        ensures { (v : Database) → Reads (Instr.Jmp t) self.old v result self.new }
    {
        self.jump(t as usize)
    }

    pub(super) fn jz(&mut self, a: Register, t: u32) -> Progress
        requires fits { FitsAt self.old.frame (Instr.Jz a t) }
        requires more { self.old.frame.steps + 1 < MAX_STEPS }
        ensures { (v : Database) → Reads (Instr.Jz a t) self.old v result self.new }
    {
        if self.value(a) == 0 {
            self.jump(t as usize)
        } else {
            self.advance()
        }
    }

    pub(super) fn out(&mut self, a: Register) -> Progress
        requires here { IsNext self.old.frame (Instr.Out a) }
        requires more { self.old.frame.steps + 1 < MAX_STEPS }
        requires room { length self.old.frame.outputs < MAX_OUTPUTS }
        ensures { (v : Database) → Reads (Instr.Out a) self.old v result self.new }
    {
        let x = self.value(a);
        self.put_out(x)
    }

    pub(super) fn loop_back(&mut self, a: Register, t: u32) -> Progress
        requires fits { FitsAt self.old.frame (Instr.Loop a t) }
        requires more { self.old.frame.steps + 1 < MAX_STEPS }
        requires of_version { is_in self.old.frame.version (Instr.Loop a t) ≡ true }
        ensures { (v : Database) → Reads (Instr.Loop a t) self.old v result self.new }
    {
        let left = self.value(a);
        if left == 0 {
            self.advance()
        } else {
            self.write(a, left - 1);
            self.jump(t as usize)
        }
    }
}
