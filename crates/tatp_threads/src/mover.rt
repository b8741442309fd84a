//! The mover, which moves one extent after another.
ghost use Rattle.std.specs.Prelude.{◌≡◌, IfOk, IfErr, length};
ghost use Rattle.tatp_extents.specs.Extents.{ExtentState};
ghost use Rattle.tatp_partition.specs.Moving.{LandedState, Takes};
ghost use Rattle.tatp_threads.specs.Partitions.{OfPartition, GivesOrBack};

use crate::admission::RunCalls;
use crate::shared::Shared;
use std::sync::Wait;
use tatp_move::{MoveRefusal, Plan, RouteUpdate, Routes};
use tatp_partition::{Landed, NotGiven, Parcel, SiteRefusal};
use tatp_workers::{Carrying, move_all, plan};

/// The sites under their locks, and the mover's own routes.
#[derive(Drop)]
struct Carrier<'c, 'a, 'm, R, G, A: RunCalls> {
    rt: &'c R,
    shared: &'c Shared<'a, 'm, G, A>,
    routes: &'c mut Routes,
}

impl<R: Wait, G, A: RunCalls> Carrying for Carrier<'_, '_, '_, R, G, A> {
    fn plan(&mut self, extent: u32, to: u8) -> Result<Plan, MoveRefusal> {
        plan(&*self.routes, extent, to)
    }

    fn take(&mut self, from: u8, extent: u32) -> Result<Parcel, SiteRefusal>
        ensures taken { OfPartition (length self.old.shared.now.partitions.now) from
            (λ s s'. Takes s extent result s') }
        ensures number { IfOk result (λ (parcel : ExtentState). parcel.number ≡ extent) }
    {
        match self.shared.partition(from) {
            None => Err(SiteRefusal::NotHere),
            Some(partition) => partition.take(self.rt, extent),
        }
    }

    fn give(&mut self, to: u8, parcel: Parcel) -> Result<Landed, Parcel>
        ensures given { OfPartition (length self.old.shared.now.partitions.now) to
            (λ s s'. GivesOrBack s parcel result s') }
        ensures landed { IfOk result (λ (landed : LandedState). landed.number ≡ parcel.number) }
        ensures back { IfErr result (λ back. back ≡ parcel) }
    {
        match self.shared.partition(to) {
            None => Err(parcel),
            Some(partition) => match partition.give(self.rt, parcel) {
                Ok(landed) => Ok(landed),
                Err(back) => {
                    let NotGiven { refusal: _, parcel } = back;
                    Err(parcel)
                }
            },
        }
    }

    fn settle(&mut self, landed: Landed) {
        let extent = landed.number();
        let partition = landed.site();
        if self.routes.settle_route(landed) == RouteUpdate::Set {
            self.shared.routes.set(extent, partition);
        }
    }
}

/// Makes the moves of a run at the sites under their locks. Without capacity for a parcel it makes
/// none.
pub(crate) fn move_extents<R: Wait, G, A: RunCalls>(
    rt: &R,
    shared: &Shared<G, A>,
    routes: &mut Routes,
    hand: &mut Vec<Parcel>,
) {
    shared.beginning.prepare_others(rt);
    if hand.len() < hand.capacity() {
        let mut carrying = Carrier { rt, shared, routes };
        move_all(&mut carrying, shared.plan.moves, hand);
    }
}
