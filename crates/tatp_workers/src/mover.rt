//! What the mover does: it moves one extent after another.
ghost use Rattle.std.specs.Prelude.{◌≡◌, ◌<◌, ◌∷◌, [], List, Option, None, IfOk, IfErr, vec_len, vec_capacity};
ghost use Rattle.tatp_extents.specs.Extents.{ExtentState};
ghost use Rattle.tatp_partition.specs.Moving.{LandedState};
ghost use Rattle.tatp_workers.specs.Growing.{Grows, Does};
ghost use Rattle.tatp_workers.specs.Carrying.{refusal_in, is_landed, plan_to, IsPlanOf, Delivers, MakesMove, MovesAll};
ghost use Rattle.tatp_workers.specs.declared.mover.MoveEffect.{MoveEffect};
ghost use Rattle.tatp_workers.specs.declared.mover.MoveEffect.TheVariants.{Plans, Takes, Gives, Settles};

use tatp_extents::first_subscriber;
use tatp_move::{MoveRefusal, Plan, Routes};
use tatp_partition::{Landed, Parcel, SiteRefusal};

/// What the mover did.
#[derive(Clone, Copy)]
pub enum MoveEffect {
    /// An extent was to be moved to a partition, and the plan by its route.
    Plans(u32, u8, Result<Plan, MoveRefusal>),
    /// An extent was to be taken from the site of a partition; the reason, if it wasn't.
    Takes(u8, u32, Option<SiteRefusal>),
    /// An extent was given to the site of a partition, and whether it landed.
    Gives(u8, u32, bool),
    /// The route of an extent was set to where it landed.
    Settles(u32),
}

/// Plans moves, takes extents from sites, gives them to others, and updates the routes.
pub trait Carrying {
    /// What was done, where that is known.
    ghost effects: { Self → Option (List MoveEffect) } = { λ _. None };

    /// Plans to move this extent alone from where its route says to a partition.
    fn plan(&mut self, extent: u32, to: u8) -> Result<Plan, MoveRefusal>
        ensures effects { Grows (effects self.old) (effects self.new)
            (Plans extent to result ∷ []) }
        ensures planned { IfOk result (IsPlanOf extent to) };

    /// Takes an extent from the site of a partition. The parcel is of that extent.
    fn take(&mut self, from: u8, extent: u32) -> Result<Parcel, SiteRefusal>
        ensures effects { Grows (effects self.old) (effects self.new)
            (Takes from extent (refusal_in result) ∷ []) }
        ensures number { IfOk result (λ (parcel : ExtentState). parcel.number ≡ extent) };

    /// Gives a parcel to the site of a partition. It comes back if the site doesn't take it.
    fn give(&mut self, to: u8, parcel: Parcel) -> Result<Landed, Parcel>
        ensures effects { Grows (effects self.old) (effects self.new)
            (Gives to parcel.number (is_landed result) ∷ []) }
        ensures landed { IfOk result (λ (landed : LandedState). landed.number ≡ parcel.number) }
        ensures back { IfErr result (λ back. back ≡ parcel) };

    /// Sets the route of an extent that has landed.
    fn settle(&mut self, landed: Landed)
        ensures { Grows (effects self.old) (effects self.new) (Settles landed.number ∷ []) };
}

/// The plan to move an extent from where its route says to a partition: none for an extent or a
/// partition that doesn't exist, and where it is there already.
#[tactic(auto, using(crate::proofs::MoverLaws::planned))]
pub fn plan(routes: &Routes, extent: u32, to: u8) -> Result<Plan, MoveRefusal>
    ensures by_route { result ≡ plan_to routes.now extent to }
    ensures planned { IfOk result (IsPlanOf extent to) }
{
    if extent == 0 {
        return Err(MoveRefusal::NoExtent);
    }
    let s_id = first_subscriber(extent);
    let from = routes.route(Some(s_id));
    routes.move_range(s_id, s_id, from as u64, to as u64)
}

/// Gives a parcel to a site and sets the route of its extent once it has landed. A parcel that the
/// site doesn't take comes back.
fn deliver<C: Carrying>(carrying: &mut C, to: u8, parcel: Parcel) -> Option<Parcel>
    ensures { Does (Delivers to parcel.number result) (C.effects carrying.old)
        (C.effects carrying.new) }
{
    match carrying.give(to, parcel) {
        Err(parcel) => Some(parcel),
        Ok(landed) => {
            carrying.settle(landed);
            None
        }
    }
}

/// Moves an extent, unless there is no plan for it, or its site doesn't give it: it isn't there, is
/// pinned or was moved too often. A parcel that the other site doesn't take comes back.
fn make_move<C: Carrying>(carrying: &mut C, extent: u32, to: u8) -> Option<Parcel>
    ensures { Does (MakesMove extent to result) (C.effects carrying.old) (C.effects carrying.new) }
{
    match carrying.plan(extent, to) {
        Err(_) => None,
        Ok(plan) => match carrying.take(plan.from, plan.first) {
            Err(_) => None,
            Ok(parcel) => deliver(carrying, plan.to, parcel),
        },
    }
}

/// Makes the moves of a run, one after another, until a parcel stays in hand. A move is an extent
/// and the partition to which it is to be moved.
pub fn move_all<C: Carrying>(carrying: &mut C, moves: &[(u32, u8)], hand: &mut Vec<Parcel>)
    requires room { vec_len hand.old < vec_capacity hand.old }
    ensures { MovesAll moves.now (C.effects carrying.old) (C.effects carrying.new) hand.old.items
        hand.new.items }
{
    for number in 0..moves.len() {
        let (extent, to) = moves[number];
        if let Some(parcel) = make_move(carrying, extent, to) {
            hand.push_reserved(parcel);
            return;
        }
    }
}
