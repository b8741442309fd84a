//! What is proved of the definitions. Nothing runs here: a clause is the theorem.
ghost use Rattle.std.specs.Prelude.{◌≡◌, ◌↔◌, ℕ, Ok};
ghost use Rattle.tatp_move.specs.declared.plan.Plan.{Plan};
ghost use Rattle.tatp_move.specs.Ranges.{Range, plan_of, Moves, Meets};
ghost use Rattle.tatp_move.specs.Routing.{RoutesState};

/// A plan moves exactly the extents in which some subscriber of its range lies.
pub fn plans_move_the_extents_that_their_ranges_meet()
    ensures { (r : RoutesState) (range : Range) (plan : Plan) (e : ℕ)
        → plan_of r range ≡ Ok plan → Moves plan e ↔ Meets range e }
{}
