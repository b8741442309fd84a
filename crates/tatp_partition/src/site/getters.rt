//! What can be read of a site.
ghost use Rattle.std.specs.Prelude.{◌≡◌, ◌-◌, length, IfSome, IfNone, OnOk};
ghost use Rattle.std.specs.Option.{option_copied, option_map};

use super::Site;
use crate::runner::{is_pinned, pinned_extent};
use std::alloc::AllocError;
use tatp_extents::{Extent, extent_of};
use tatp_homes::Home;
use tatp_loader::Loaded;
use tatp_machine::Machine;
use tatp_tables::Rows;

impl<'m> Site<'m> {
    ghost use Rattle.tatp_machine.specs.Machines.{MachineState};
    ghost use Rattle.tatp_extents.specs.HomeRows.{with_homes};
    ghost use Rattle.tatp_partition.specs.Sites.{RunningCall, slot, home_here};
    ghost use Rattle.tatp_partition.specs.Obstacles.{extent_at_rest};

    /// Which partition's site it is.
    pub fn partition(&self) -> u8
        ensures { result ≡ self.now.partition }
    {
        self.partition
    }

    /// How many extents the whole database has.
    pub fn slots(&self) -> u32
        ensures { result ≡ length self.now.slots - 1 }
    {
        (self.slots.len() - 1) as u32
    }

    /// How often it was stopped; it stays at the greatest number.
    pub fn stops(&self) -> u64
        ensures { result ≡ self.now.stops }
    {
        self.stops
    }

    /// The module whose procedures its calls run.
    pub fn loaded(&self) -> &'m Loaded
        ensures { result.now ≡ self.now.modul }
    {
        self.loaded
    }

    /// The machine of the running call.
    pub fn machine(&self) -> Option<&Machine<'m>>
        ensures { option_map (λ (m : MachineState). m.frame) (option_copied result)
            ≡ option_map (λ (r : RunningCall). r.call.frame) self.now.running }
    {
        self.running.machine()
    }

    /// Whose call runs.
    pub fn client(&self) -> Option<u64>
        ensures { result ≡ option_map (λ (r : RunningCall). r.client) self.now.running }
    {
        self.running.client()
    }

    /// The extent of this number, where it is here and no call runs on one of its homes.
    pub fn extent(&self, e: u32) -> Option<&Extent>
        ensures { option_copied result ≡ extent_at_rest self.now e }
    {
        if is_pinned(&self.running, e) {
            return None;
        }
        match self.slots.get(e as u64) {
            Some(extent) => Some(extent),
            None => None,
        }
    }

    /// The home of a subscriber as it is now, where it is here.
    pub fn home(&self, s_id: u64) -> Option<&Home>
        ensures { option_copied result ≡ home_here self.now s_id }
    {
        let e = extent_of(s_id);
        if let Some(pinned) = pinned_extent(&self.running, e) {
            return pinned.home(s_id);
        }
        self.slots.get(e)?.home(s_id)
    }

    /// Appends the rows of the homes of the extent of this number as they are now, home by home;
    /// nothing where the extent isn't here. An error may leave some.
    pub fn add_rows(&self, e: u32, rows: &mut Rows) -> Result<(), AllocError>
        ensures here { OnOk result (IfSome (slot self.now.slots e)
            (λ extent. rows.new ≡ with_homes rows.old extent.homes)) }
        ensures elsewhere { OnOk result
            (IfNone (slot self.now.slots e) (rows.new ≡ rows.old)) }
    {
        if let Some(pinned) = pinned_extent(&self.running, e as u64) {
            return pinned.add_rows(rows);
        }
        if let Some(extent) = self.slots.get(e as u64) {
            return extent.add_rows(rows);
        }
        Ok(())
    }
}
