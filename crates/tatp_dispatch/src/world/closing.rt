//! The system is closed.

use super::World;
use tatp_extents::discard_all;

impl<'m> World<'m> {
    ghost use Rattle.tatp_dispatch.specs.Serving.{IsWorld};

    /// Spends all extents, the parcels and the landings in hand, and the chapters.
    pub fn close(self)
        ensures world { IsWorld self.entry }
    {
        let World {
            loaded: _,
            directory: _,
            sites,
            queues: _,
            routes: _,
            parcels,
            landings,
            clients: _,
            completions: _,
            chapters,
            buffer: _,
        } = self;
        discard_all(sites);
        discard_all(parcels.into_items());
        discard_all(landings);
        discard_all(chapters);
    }
}
