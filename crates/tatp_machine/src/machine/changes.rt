//! The rows of the table that change a row of the home, FAIL, and traps.
ghost use Rattle.std.specs.Prelude.{◌≡◌, ◌+◌, ◌<◌, Some};
ghost use Rattle.tatp_homes.specs.Home.{IsHome};
ghost use Rattle.tatp_machine.specs.Instructions.{Stops, IsNext};
ghost use Rattle.tatp_machine.specs.Machines.{Turns, Performs, progress_after};
ghost use Rattle.tatp_machine.specs.Sound.{FitsAt};

use super::Machine;
use crate::Progress;
use crate::change::{Change, byte};
use crate::progress::WriteOutcome;
use tatp_homes::{Home, Refusal, what_holds_of_every_home};
use tatp_instr::{End, Instr, Register, RowRegisters, Trap};
use tatp_limits::{MAX_STEPS, MAX_WRITES};
use tatp_tables::Table;

impl<'m> Machine<'m> {
    /// Ends the call with a failure.
    #[inline(always)]
    pub(super) fn fail(&mut self, home: &mut Home, n: u32) -> Progress
        requires { self.old.frame.home ≡ Some home.old.s_id }
        ensures turns { Turns (Stops (End.Failed n))
            self.old home.old.tables result self.new home.new.tables }
        ensures same { home.new.s_id ≡ home.old.s_id }
        ensures rows { IsHome home.new }
    {
        self.end_undone(home);
        Progress::Ended(End::Failed(n))
    }

    /// Ends the call with a trap.
    #[inline(always)]
    pub(super) fn trap(&mut self, home: &mut Home, trap: Trap) -> Progress
        requires { self.old.frame.home ≡ Some home.old.s_id }
        ensures turns { Turns (Stops (End.Trapped trap))
            self.old home.old.tables result self.new home.new.tables }
        ensures same { home.new.s_id ≡ home.old.s_id }
        ensures rows { IsHome home.new }
    {
        self.end_undone(home);
        Progress::Ended(End::Trapped(trap))
    }

    #[inline(never)]
    pub(super) fn put(&mut self, home: &mut Home, column: u32, a: Register) -> WriteOutcome
        requires home { self.old.frame.home ≡ Some home.old.s_id }
        requires here { IsNext self.old.frame (Instr.Put a column) }
        requires fits { FitsAt self.old.frame (Instr.Put a column) }
        requires more { self.old.frame.steps + 1 < MAX_STEPS }
        requires room { self.old.frame.writes < MAX_WRITES }
        ensures performs { Performs (Instr.Put a column)
            self.old home.old.tables (progress_after result) self.new home.new.tables }
        ensures same { home.new.s_id ≡ home.old.s_id }
        ensures rows { IsHome home.new }
    {
        let Some(key) = self.key_of_column(column) else {
            self.end_undone(home);
            return WriteOutcome::NoCurrent;
        };
        what_holds_of_every_home(home);
        match home.put(column as u8, key, self.value(a)) {
            Ok(before) => {
                what_holds_of_every_home(home);
                self.note(Change::Put {
                    column: column as u8,
                    row_type: byte(key[1]),
                    start_time: byte(key[2]),
                    before,
                });
                WriteOutcome::Made
            }
            Err(Refusal::Domain) => {
                self.end_undone(home);
                WriteOutcome::Domain
            }
            Err(_) => {
                self.end_undone(home);
                WriteOutcome::NoCurrent
            }
        }
    }

    #[inline(never)]
    pub(super) fn ins(&mut self, home: &mut Home, d: Register, a: RowRegisters) -> WriteOutcome
        requires home { self.old.frame.home ≡ Some home.old.s_id }
        requires here { IsNext self.old.frame (Instr.Ins d a) }
        requires fits { FitsAt self.old.frame (Instr.Ins d a) }
        requires more { self.old.frame.steps + 1 < MAX_STEPS }
        requires room { self.old.frame.writes < MAX_WRITES }
        ensures performs { Performs (Instr.Ins d a)
            self.old home.old.tables (progress_after result) self.new home.new.tables }
        ensures same { home.new.s_id ≡ home.old.s_id }
        ensures rows { IsHome home.new }
    {
        let row = self.five_values(a);
        what_holds_of_every_home(home);
        match home.insert_cf(row) {
            Ok(()) => {
                what_holds_of_every_home(home);
                self.write(d, 1);
                self.note(Change::Inserted {
                    sf_type: byte(row[1]),
                    start_time: byte(row[2]),
                });
                WriteOutcome::Made
            }
            Err(Refusal::Domain) => {
                self.end_undone(home);
                WriteOutcome::Domain
            }
            Err(Refusal::NoParent) => {
                self.set_written(d, 3);
                WriteOutcome::Made
            }
            Err(_) => {
                self.set_written(d, 2);
                WriteOutcome::Made
            }
        }
    }

    #[inline(never)]
    pub(super) fn del(&mut self, home: &mut Home) -> WriteOutcome
        requires home { self.old.frame.home ≡ Some home.old.s_id }
        requires here { IsNext self.old.frame Instr.Del }
        requires fits { FitsAt self.old.frame Instr.Del }
        requires more { self.old.frame.steps + 1 < MAX_STEPS }
        requires room { self.old.frame.writes < MAX_WRITES }
        ensures performs { Performs Instr.Del
            self.old home.old.tables (progress_after result) self.new home.new.tables }
        ensures same { home.new.s_id ≡ home.old.s_id }
        ensures rows { IsHome home.new }
    {
        let Some(key) = self.current(Table::CallForwarding) else {
            self.end_undone(home);
            return WriteOutcome::NoCurrent;
        };
        what_holds_of_every_home(home);
        match home.delete_cf(key) {
            Ok(row) => {
                what_holds_of_every_home(home);
                self.make_current(Table::CallForwarding, None);
                self.note(Change::Deleted {
                    sf_type: byte(row[1]),
                    start_time: byte(row[2]),
                    end_time: byte(row[3]),
                    numberx: row[4],
                });
                WriteOutcome::Made
            }
            Err(_) => {
                self.end_undone(home);
                WriteOutcome::NoCurrent
            }
        }
    }
}
