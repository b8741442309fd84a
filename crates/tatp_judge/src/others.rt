//! Laws of histories that are judged except for subscribers that are set aside.
ghost use Rattle.std.specs.Prelude.{◌↔◌, ◌≤◌, ℕ, [], List};
ghost use Rattle.tatp_tables.specs.Database.{Database};
ghost use Rattle.tatp_procs.specs.Consistent.{IsConsistent};
ghost use Rattle.tatp_history.specs.declared.line.Line.{Line as ALine};
ghost use Rattle.tatp_history.specs.HistoryLines.{AreAcceptedLines};
ghost use Rattle.tatp_judge.specs.declared.aside.Undecided.{Undecided};
ghost use Rattle.tatp_judge.specs.Parts.{lines_of_part, part_of};
ghost use Rattle.tatp_judge.specs.Verdicts.{AreOthersLegal, IsLegal};

/// The calls on all subscribers that aren't set aside are legal exactly where those of each part
/// are, however many there are. Where none is set aside, that is to say that the history is legal.
pub fn others_are_legal_where_those_of_each_part_are()
    ensures all { (u : Database) (lines : List ALine) → IsConsistent u → AreAcceptedLines lines
        → IsLegal u lines ↔ AreOthersLegal u [] lines }
    ensures others { (u : Database) (aside : List Undecided) (count : ℕ) (lines : List ALine)
        → 1 ≤ count
        → ((number : ℕ) → 1 ≤ number → number ≤ count
        → AreOthersLegal u aside (lines_of_part u (part_of count number) lines))
        → AreOthersLegal u aside lines }
    ensures part { (u : Database) (aside : List Undecided) (count number : ℕ)
        (lines : List ALine) → AreOthersLegal u aside lines
        → AreOthersLegal u aside (lines_of_part u (part_of count number) lines) }
{}
