//! Parts of a history, each of which is judged alone.
ghost use Rattle.std.specs.Prelude.{◌≡◌, ◌≤◌, ℕ, [], List};
ghost use Rattle.tatp_tables.specs.Database.{Database};
ghost use Rattle.tatp_procs.specs.Consistent.{IsConsistent};
ghost use Rattle.tatp_history.specs.declared.line.Line.{Line as ALine};
ghost use Rattle.tatp_history.specs.declared.line.Line.TheVariants.{Lost};
ghost use Rattle.tatp_history.specs.HistoryLines.{AreAcceptedLines};
ghost use Rattle.tatp_judge.specs.Finishing.{LeadsInPart, LeadsTo};
ghost use Rattle.tatp_judge.specs.Followed.{HasFollowed};
ghost use Rattle.tatp_judge.specs.Parts.{IsPart, is_of_part, line_of_part, lines_of_part, part_of, whole};
ghost use Rattle.tatp_judge.specs.Verdicts.{IsLegal};

use crate::asked::subscriber_of;
use crate::judge::Judge;
use tatp_history::Line;

/// One of `count` parts of a history: the calls on each `count`-th subscriber.
#[derive(Clone, Copy, Debug, PartialEq, Eq)]
pub struct Part {
    /// Its number, from 1 on.
    pub number: u64,
    /// How many there are.
    pub count: u64,
}

impl Part {
    /// Whether calls on the subscriber are of the part.
    pub(crate) fn has(&self, s_id: Option<u64>) -> bool
        requires { IsPart self.now }
        ensures { result ≡ is_of_part self.now s_id }
    {
        match s_id {
            Some(s_id) => s_id % self.count == self.number - 1,
            None => self.number == 1,
        }
    }
}

impl Judge {
    /// What a line says of the calls of the part.
    pub fn line_of_part(&self, part: &Part, line: &Line) -> Line
        requires part { IsPart part.now }
        requires followed { (u : Database) × (most : ℕ) × (lines : List ALine)
            × HasFollowed u most lines self.now }
        ensures { (u : Database) (most : ℕ) (lines : List ALine)
            → HasFollowed u most lines self.now → result ≡ line_of_part u part.now line.now }
    {
        match line {
            Line::Ask { client, call } => {
                if part.has(subscriber_of(&self.directory, call)) {
                    *line
                } else {
                    Line::Lost { client: *client }
                }
            }
            Line::End { .. } => *line,
            Line::Abort { .. } => *line,
            Line::Lost { .. } => *line,
        }
    }
}

/// A history is legal exactly where each of its parts is, however many there are. The one part of a
/// history is all of it.
pub fn a_history_is_legal_where_each_part_is()
    ensures legal { (u : Database) (count : ℕ) (lines : List ALine)
        → IsConsistent u → AreAcceptedLines lines → 1 ≤ count
        → ((number : ℕ) → 1 ≤ number → number ≤ count
        → IsLegal u (lines_of_part u (part_of count number) lines))
        → IsLegal u lines }
    ensures part { (u : Database) (count number : ℕ) (lines : List ALine)
        → IsConsistent u → AreAcceptedLines lines
        → IsLegal u lines → IsLegal u (lines_of_part u (part_of count number) lines) }
    ensures one { (u : Database) (lines : List ALine) → lines_of_part u whole lines ≡ lines }
{}

/// Some order of a history's calls leads to the rows at its end exactly where those of each of its
/// parts lead to the rows of the part's subscribers.
pub fn a_history_leads_to_rows_where_each_part_does()
    ensures leads { (u after : Database) (count : ℕ) (lines : List ALine)
        → IsConsistent u → IsConsistent after → AreAcceptedLines lines → 1 ≤ count
        → ((number : ℕ) → 1 ≤ number → number ≤ count
        → let part = part_of count number in
        LeadsInPart u part [] (lines_of_part u part lines) after)
        → LeadsTo u lines after }
    ensures part { (u after : Database) (count number : ℕ) (lines : List ALine)
        → IsConsistent u → AreAcceptedLines lines → LeadsTo u lines after
        → let part = part_of count number in
        LeadsInPart u part [] (lines_of_part u part lines) after }
{}
