//! Laws of the definitions, for their readers. Nothing runs here: a clause is the law.
ghost use Rattle.std.specs.Prelude.{◌≡◌, ℕ, ◌++◌, ◌∷◌, [], Bool, List, length};
ghost use Rattle.tatp_tables.specs.Database.{Database, database_of};
ghost use Rattle.tatp_calls.specs.Order.{in_order};
ghost use Rattle.tatp_events.specs.Answers.{Answered};
ghost use Rattle.tatp_dispatch.specs.Runs.{Runs};
ghost use Rattle.tatp_dispatch.specs.Serving.{IsWorld};
ghost use Rattle.tatp_dispatch.specs.Worlds.{WorldState};
ghost use Rattle.tatp_inputs.specs.Work.{Work};
ghost use Rattle.tatp_console.specs.EventLines.{events_in, TellsOf, TellsLines};
ghost use Rattle.tatp_console.specs.AnsweredCalls.{calls_of, told, marks_after};
ghost use Rattle.tatp_console.specs.RowsWritten.{rows_if_asked};
ghost use Rattle.tatp_console.specs.Served.{replies, database_after, ServesWork};

/// The calls with arguments in their domains that aren't refused are answered in the order of their
/// lines, each on the database after the calls before it; all other lines are refused and change
/// nothing. This holds of lines, of lines after others, of the database after all of them, and of
/// all that is written for an input.
pub fn served_calls_are_in_order()
    ensures told { (marks : List Bool) (lines : List (List ℕ)) (u : Database)
        → replies marks lines u
        ≡ told marks lines (in_order u (calls_of marks lines)).replies }
    ensures later { (marks : List Bool) (lines more : List (List ℕ)) (u : Database)
        → replies marks (lines ++ more) u
        ≡ replies marks lines u ++ replies (marks_after lines marks) more
        (in_order u (calls_of marks lines)).database }
    ensures after { (marks : List Bool) (lines : List (List ℕ)) (u : Database)
        → database_after marks lines u ≡ (in_order u (calls_of marks lines)).database }
    ensures served { (rows : Bool) (marks : List Bool) (work : Work)
        (text : List ℕ) → ServesWork rows marks work text
        → let all = in_order (database_of work.rows) (calls_of marks work.lines) in
        text ≡ told marks work.lines all.replies
        ++ rows_if_asked rows (length work.rows.subscribers) all.database }
{}

/// What is written for lines of events, which are echoed or not, continues with what is written for
/// each line after them, and the answers that are written are those of a run of the lines' events.
pub fn told_lines_are_a_run()
    ensures none { (echoed : Bool) (w : WorldState) → TellsLines echoed w [] [] [] w }
    ensures more { (echoed : Bool) (w before after : WorldState) (lines : List (List ℕ))
        (answers : List Answered) (text : List ℕ) (line : List ℕ) (here : List Answered)
        (first : List ℕ)
        → TellsLines echoed w lines answers text before
        → TellsOf echoed before line here first after
        → TellsLines echoed w (lines ++ line ∷ []) (answers ++ here) (text ++ first) after }
    ensures run { (echoed : Bool) (w after : WorldState) (lines : List (List ℕ))
        (answers : List Answered) (text : List ℕ)
        → IsWorld w → TellsLines echoed w lines answers text after
        → Runs w (events_in echoed lines) answers after }
{}
