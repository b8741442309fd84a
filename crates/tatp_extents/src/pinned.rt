//! Pinned extents: extents while a call runs on one of their homes.
ghost use Rattle.std.specs.Prelude.{◌≡◌, ◌≤◌, ◌↔◌, IsSome, OnOk, length};
ghost use Rattle.std.specs.Option.{option_copied};
ghost use Rattle.std.specs.Borrow.{sem};
ghost use Rattle.tatp_extents.specs.Parts.{state_of, pinned_state_of};
ghost use Rattle.tatp_extents.specs.Extents.{IsExtent, LiesIn, last_stamp_of, home_at, with_entry, as_mixed};
ghost use Rattle.tatp_extents.specs.Pinning.{Logs, HasItsHome};
ghost use Rattle.tatp_extents.specs.HomeRows.{with_homes};

use crate::extent_numbers::first_subscriber;
use crate::homes::add_rows;
use crate::{Extent, ExtentParts};
use std::alloc::AllocError;
use std::marker::Model;
use tatp_calls::Entry;
use tatp_homes::Home;
use tatp_tables::Rows;

/// An extent while a call runs on the home of one of its subscribers. All its other homes are what
/// its log makes of those at the last checkpoint, and the log has capacity for the call's entry. It
/// can be neither copied nor dropped: [`Pinned::end`], [`Pinned::end_mixed`] and
/// [`Pinned::set_free`] lead back.
pub struct Pinned {
    parts: ExtentParts,
    place: usize,
}

impl Model for Pinned {
    ghost use Rattle.std.specs.Prelude.{◌≤◌};
    ghost use Rattle.tatp_extents.specs.Pinning.{PinnedState, pinned_state_code, IsPinned};
    ghost use Rattle.tatp_extents.specs.Parts.{pinned_in};

    ghost Value = { PinnedState };

    ghost coded = { pinned_state_code };

    ghost view = { λ a. pinned_in a.parts a.place };

    ghost invariant = { λ a. IsPinned (pinned_in a.parts a.place) × (1 ≤ a.parts.log.room) };
}

impl Pinned {
    ghost use Rattle.tatp_extents.specs.Lending.{LendsHome};

    /// The extent that has these parts, pinned by a call on the home of this subscriber.
    pub(crate) fn new(parts: ExtentParts, s_id: u64) -> Pinned
        requires extent { IsExtent (state_of parts) }
        requires lies { LiesIn s_id (state_of parts) }
        requires room { 1 ≤ parts.log.room }
        ensures { result ≡ pinned_state_of parts s_id }
    {
        let place = (s_id - first_subscriber(parts.number)) as usize;
        Pinned { parts, place }
    }

    /// Which extent it is, counted from 1.
    pub fn number(&self) -> u32
        ensures { result ≡ self.now.extent.number }
    {
        self.parts.number
    }

    /// How often it was moved.
    pub fn moves(&self) -> u16
        ensures { result ≡ self.now.extent.moves }
    {
        self.parts.moves
    }

    /// Whether a call that is no standard transaction has ended on it.
    pub fn is_mixed(&self) -> bool
        ensures { result ≡ self.now.extent.mixed }
    {
        self.parts.mixed
    }

    /// How many chapters it handed out.
    pub fn chapters(&self) -> u16
        ensures { result ≡ self.now.extent.chapters }
    {
        self.parts.chapters
    }

    /// How many calls were logged since the last checkpoint.
    pub fn log_len(&self) -> u64
        ensures { result ≡ length self.now.extent.log }
    {
        self.parts.log.len() as u64
    }

    /// The last stamp that was ever logged, 0 before the first.
    pub fn last_stamp(&self) -> u64
        ensures { result ≡ last_stamp_of self.now.extent }
    {
        self.parts.log.last_stamp()
    }

    /// The subscriber on whose home the call runs.
    pub fn s_id(&self) -> u64
        ensures { result ≡ self.now.s_id }
    {
        first_subscriber(self.parts.number) + self.place as u64
    }

    /// The home in the place of a subscriber, where the subscriber lies in this extent.
    pub fn home(&self, s_id: u64) -> Option<&Home>
        ensures place { option_copied result ≡ home_at self.now.extent s_id }
        ensures lies { IsSome result ↔ LiesIn s_id self.now.extent }
    {
        let place = s_id.checked_sub(first_subscriber(self.parts.number))?;
        self.parts.homes.get(place as usize)
    }

    /// Appends the rows of its homes as they are now, home by home. An error may leave some.
    pub fn add_rows(&self, rows: &mut Rows) -> Result<(), AllocError>
        ensures { OnOk result (rows.new ≡ with_homes rows.old self.now.extent.homes) }
    {
        add_rows(&self.parts.homes, rows)
    }

    /// The home on which the call runs.
    pub fn home_mut(&mut self) -> &mut Home
        ensures* lends { sem 𝓛 (LendsHome self.entry result) }
        ensures value { home_at self.old.extent self.old.s_id ≡ Some result.now }
    {
        let place = self.place;
        &mut self.parts.homes[place]
    }

    /// The extent after the call has ended as this entry says.
    pub fn end(self, entry: &Entry) -> Extent
        requires { Logs self entry.now }
        ensures value { result ≡ with_entry self.extent entry.now }
        ensures extent { IsExtent result }
    {
        let Pinned {
            mut parts,
            place: _,
        } = self;
        parts.log.push(entry);
        Extent::of_parts(parts)
    }

    /// The extent after a call has ended that is no standard transaction: its log has ended.
    pub fn end_mixed(self) -> Extent
        requires { HasItsHome self }
        ensures value { result ≡ as_mixed self.extent }
        ensures extent { IsExtent result }
    {
        let Pinned {
            mut parts,
            place: _,
        } = self;
        parts.mixed = true;
        Extent::of_parts(parts)
    }

    /// The extent without the call, where the home is again what the log makes of it.
    pub fn set_free(self) -> Extent
        requires { IsExtent self.extent }
        ensures value { result ≡ self.extent }
        ensures extent { IsExtent result }
    {
        let Pinned { parts, place: _ } = self;
        Extent::of_parts(parts)
    }
}
