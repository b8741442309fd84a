//! Laws of the definitions, for their readers. Nothing runs here: a clause is the law.
ghost use Rattle.std.specs.Prelude.{◌≡◌, ℕ, List};
ghost use Rattle.tatp_inputs.specs.Parts.{before_dot};
ghost use Rattle.tatp_judge.specs.declared.aside.Undecided.{Undecided};
ghost use Rattle.tatp_judge.specs.declared.stakes.Stakes.{Stakes};
ghost use Rattle.tatp_judged_inputs.specs.declared.judging.Judged.TheVariants.{Legal};
ghost use Rattle.tatp_judged_inputs.specs.Judged.{TellLegal, IsIllegalAt};
ghost use Rattle.tatp_judged_inputs.specs.RowsAtEnd.{IsJudgedTo, IsUnreachedAt};
ghost use Rattle.tatp_judged_inputs.specs.Views.{View};

/// A history has one verdict, whoever is set aside: a legal one is illegal up to no line, and an
/// illegal one up to one whose lines before are legal.
pub fn histories_have_one_verdict()
    ensures legal { (u : View) (aside : List Undecided) (taken : ℕ) (texts : List (List ℕ))
        (number : ℕ) → TellLegal u aside taken texts
        → IsIllegalAt u aside taken texts number → ⊥ }
    ensures illegal { (u : View) (aside : List Undecided) (taken : ℕ) (texts : List (List ℕ))
        (number other : ℕ) → IsIllegalAt u aside taken texts number
        → IsIllegalAt u aside taken texts other → number ≡ other }
{}

/// So have a history and the rows at its end: either an order leads to them, or one subscriber is
/// the first for which no order of its calls results in its rows.
pub fn histories_and_rows_have_one_verdict()
    ensures legal { (u : View) (aside : List Undecided) (taken : ℕ) (texts : List (List ℕ))
        (stakes : Stakes) (number s : ℕ) → IsJudgedTo u aside taken texts (Legal stakes)
        → IsUnreachedAt u aside taken texts number s → ⊥ }
    ensures illegal { (u : View) (aside : List Undecided) (taken : ℕ) (texts : List (List ℕ))
        (number other s : ℕ) → IsIllegalAt u aside taken (before_dot texts) number
        → IsUnreachedAt u aside taken texts other s → ⊥ }
    ensures subscriber { (u : View) (aside : List Undecided) (taken : ℕ) (texts : List (List ℕ))
        (number other s t : ℕ) → IsUnreachedAt u aside taken texts number s
        → IsUnreachedAt u aside taken texts other t → s ≡ t }
{}
