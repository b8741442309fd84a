//! A law of the definitions. Nothing runs here: the clause is the law.
ghost use Rattle.std.specs.Prelude.{ℕ, ◌≡◌};
ghost use Rattle.rand_core.specs.Stream.{Stream, next_u64};
ghost use Rattle.tatp_population.specs.DrawnOrder.{population_in_order};
ghost use Rattle.tatp_population.specs.DrawnRows.{population};
ghost use Rattle.tatp_population.specs.PopulationText.{in_tables};

/// The rows in the order drawn, put into their tables one after another, are the population that
/// [`generate`](crate::generate) draws of the same words.
#[tactic(auto, using(crate::proofs::OrderLaws::in_order_same))]
pub fn rows_in_order_are_the_population()
    ensures { (n : ℕ) → (words : Stream)
        → in_tables (population_in_order next_u64 n words) ≡ (population next_u64 n words).0 }
{}
