//! What is proved of the definitions. Nothing runs here: a clause is the theorem.
ghost use Rattle.std.specs.Prelude.{List};
ghost use Rattle.tatp_tables.specs.Database.{Database, database_of};
ghost use Rattle.tatp_tables.specs.Clean.{IsClean};
ghost use Rattle.tatp_procs.specs.Consistent.{IsConsistent};
ghost use Rattle.tatp_calls.specs.declared.entry.Entry.{Entry};
ghost use Rattle.tatp_settle.specs.Merging.{PlacedEntry, Merges, IsMergeable, OneHistory};
ghost use Rattle.tatp_settle.specs.Interleaving.{Interleaves, IsOneHistoryInAnyOrder};
ghost use Rattle.tatp_settle.specs.Closings.{IsClosed};
ghost use Rattle.tatp_settle.specs.Runs.{Run, logs_left, rows_left};
ghost use Rattle.tatp_settle.specs.Settlements.{IsPopulationOnce, IsReceived};
ghost use Rattle.tatp_settle.specs.Separate.{Parts, AreSeparate, LogsAt, LeadsToLast};

/// Let each of the logs of separate extents lead from its extent's homes in a database to its last
/// homes. In every order that keeps each log's own they are one history: of transactions on the
/// database, answered as they were, which leads to a database with all the last homes.
///
/// This is why runs are linearizable. An entry is appended to its log after its call was asked and
/// before it is answered, and the order in time of the appends is such an order.
pub fn every_interleaving_is_one_history()
    ensures { (parts : Parts) (history : List PlacedEntry) (u : Database)
        (logs : List (List Entry))
        → AreSeparate parts → IsConsistent u → Interleaves logs history → LogsAt parts u logs
        → LeadsToLast parts u logs history }
{}

/// Let each of the logs of separate extents lead from its extent's homes in a database to its last
/// homes. When they are merged they are one history: of transactions on the database, answered as
/// they were, which leads to a database with all the last homes.
pub fn merged_logs_are_one_history()
    ensures { (parts : Parts) (history : List PlacedEntry) (u : Database)
        (logs : List (List Entry))
        → AreSeparate parts → IsConsistent u → Merges logs history → LogsAt parts u logs
        → LeadsToLast parts u logs history }
{}

/// The whole logs that a run left are one history, from the population to the rows that it left.
/// This holds where each extent is there once and unmixed, and its chapters lead end to end from
/// the population's homes to its log; no entry without a home names a subscriber; each entry has
/// its receipt; and each client's stamps rise.
pub fn runs_are_one_history()
    ensures { (run : Run)
        → IsClean run.population → IsClosed run.closed → IsPopulationOnce run → IsReceived run
        → OneHistory (database_of run.population) (logs_left run) (database_of (rows_left run)) }
{}

/// The whole logs that a run left are one history in every order that keeps each log's own, from
/// the population to the rows that it left. This holds where each extent is there once, unmixed,
/// its chapters lead end to end from the population's homes to its log, and no entry without a home
/// names a subscriber. It holds of every settled run.
pub fn runs_are_one_history_in_any_order()
    ensures { (run : Run)
        → IsClean run.population → IsClosed run.closed → IsPopulationOnce run
        → IsOneHistoryInAnyOrder run }
{}

/// Any logs can be merged.
pub fn logs_can_be_merged()
    ensures { (logs : List (List Entry)) → IsMergeable logs }
{}
