//! The routes as all threads read them.

use std::alloc::{AllocError, Global};
use std::sync::atomic::{AtomicU64, Ordering};
use tatp_extents::{extent_of, first_subscriber};
use tatp_move::Routes;

/// The partition to which calls on the homes of each extent go. Each thread reads it before it puts
/// a call into an inbox, and the mover alone writes it, so it stands under no lock: a thread that
/// reads waits for none that reads.
#[derive(Drop)]
pub(crate) struct SharedRoutes {
    /// By the number of the extent. 0 is no extent's: that is where calls without a home go.
    partitions: Vec<AtomicU64>,
}

impl SharedRoutes {
    /// Shares the routes to this many extents.
    pub(crate) fn new(
        alloc: Global,
        routes: &Routes,
        extents: usize,
    ) -> Result<SharedRoutes, AllocError> {
        let mut partitions = Vec::with_capacity(alloc, extents.saturating_add(1))?;
        let last = u32::try_from(extents).unwrap_or(u32::MAX);
        for extent in 0..=last {
            let home = if extent == 0 {
                None
            } else {
                Some(first_subscriber(extent))
            };
            partitions.push(AtomicU64::new(routes.route(home) as u64))?;
        }
        Ok(SharedRoutes { partitions })
    }

    /// The partition to which calls on a home go: 0 without a home, and for one that is in no
    /// extent.
    pub(crate) fn route(&self, home: Option<u64>) -> usize {
        let extent = match home {
            None => 0,
            Some(s_id) => extent_of(s_id) as usize,
        };
        match self.partitions.get(extent) {
            None => 0,
            Some(partition) => partition.load(Ordering::SeqCst) as usize,
        }
    }

    /// Sets the route to an extent.
    pub(crate) fn set(&self, extent: u32, partition: u8) {
        if let Some(place) = self.partitions.get(extent as usize) {
            place.store(partition as u64, Ordering::SeqCst);
        }
    }
}
