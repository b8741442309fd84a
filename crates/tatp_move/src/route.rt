//! The routes to extents.
ghost use Rattle.std.specs.Prelude.{◌≡◌, ◌≤◌, ◌<◌, ◌+◌, ◌-◌, ◌%◌, ℕ, IfOk, IsSome, length, map, Some, slice_get};
ghost use Rattle.std.specs.List.{range_with_len};
ghost use Rattle.tatp_extents.specs.Opening.{extent_count};

use crate::{MoveRefusal, Plan};
use std::alloc::{AllocError, Global};
use std::marker::Model;
use tatp_extents::{Discard, extent_count, extent_of};
use tatp_limits::MAX_SUBSCRIBERS;
use tatp_partition::Landed;

/// Where an extent was last known to have landed, and after how many moves.
#[derive(Clone, Copy, Debug, PartialEq, Eq)]
pub struct Route {
    /// The partition.
    pub partition: u8,
    /// How often the extent had been moved.
    pub moves: u16,
}

/// What became of a landing.
#[derive(Clone, Copy, Debug, PartialEq, Eq)]
pub enum RouteUpdate {
    /// The route is set.
    Set,
    /// The route knew of as many moves or more.
    Superseded,
}

/// The routes to all extents.
#[derive(Drop)]
pub struct Routes {
    subscribers: u64,
    partitions: u8,
    routes: Vec<Route>,
}

impl Model for Routes {
    ghost use Rattle.std.specs.Prelude.{◌≡◌, ◌+◌, ◌≤◌, vec_len};
    ghost use Rattle.tatp_limits.specs.declared.limits.TheConstants.{MAX_SUBSCRIBERS};
    ghost use Rattle.tatp_extents.specs.Opening.{extent_count};
    ghost use Rattle.tatp_move.specs.Routing.{RoutesState};

    ghost Value = { RoutesState };

    ghost view = { λ a. record {
      subscribers = a.subscribers;
      partitions = a.partitions;
      routes = a.routes.items;
    } };

    ghost invariant = { λ a.
        (vec_len a.routes ≡ extent_count a.subscribers + 1) × (a.subscribers ≤ MAX_SUBSCRIBERS) };
}

impl Routes {
    ghost use Rattle.tatp_limits.specs.declared.limits.TheConstants.{MAX_SUBSCRIBERS};
    ghost use Rattle.tatp_move.specs.Routing.{opened_routes, route_of, UpdatesRoute};
    ghost use Rattle.tatp_move.specs.Ranges.{plan_of};

    /// The routes to the extents of all subscribers, which open in the partitions in turn.
    pub fn open(alloc: Global, subscribers: u64, partitions: u8) -> Result<Routes, AllocError>
        requires few { subscribers ≤ MAX_SUBSCRIBERS }
        requires some { 1 ≤ partitions }
        ensures { IfOk result (λ routes. routes ≡ opened_routes subscribers partitions) }
    {
        let count = extent_count(subscribers);
        let mut routes = Vec::with_capacity(alloc, count as usize + 1)?;
        for e in 0..count + 1 {
            let partition = (e.saturating_sub(1) % partitions as u64) as u8;
            routes.push_reserved(Route {
                partition,
                moves: 0,
            });
        }
        Ok(Routes {
            subscribers,
            partitions,
            routes,
        })
    }

    /// The partition to which calls on a home go.
    pub fn route(&self, home: Option<u64>) -> u8
        ensures { result ≡ route_of self.now home }
    {
        match home {
            None => 0,
            Some(s_id) => {
                if s_id < 1 || self.subscribers < s_id {
                    return 0;
                }
                self.routes[extent_of(s_id) as usize].partition
            }
        }
    }

    /// Spends a landing: the route is set, unless it knows of as many moves or more.
    pub fn settle_route(&mut self, landed: Landed) -> RouteUpdate
        ensures { UpdatesRoute self.old landed result self.new }
    {
        let place = landed.number() as usize;
        let moves = landed.moves();
        let partition = landed.site();
        landed.discard();
        if place >= self.routes.len() || self.routes[place].moves >= moves {
            return RouteUpdate::Superseded;
        }
        self.routes[place] = Route { partition, moves };
        RouteUpdate::Set
    }

    /// The extents in which the subscribers lo to hi lie, to be moved from one partition to
    /// another.
    pub fn move_range(&self, lo: u64, hi: u64, from: u64, to: u64) -> Result<Plan, MoveRefusal>
        ensures { result
            ≡ plan_of self.now (record { lo = lo; hi = hi; from = from; to = to }) }
    {
        if lo == 0 || hi < lo || self.subscribers < hi {
            return Err(MoveRefusal::NoExtent);
        }
        let partitions = self.partitions as u64;
        if partitions <= from || partitions <= to {
            return Err(MoveRefusal::NoPartition);
        }
        if from == to {
            return Err(MoveRefusal::SamePartition);
        }
        Ok(Plan {
            first: extent_of(lo) as u32,
            last: extent_of(hi) as u32,
            from: from as u8,
            to: to as u8,
        })
    }
}
