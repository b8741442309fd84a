//! Theorems on the definitions. Nothing runs here: a clause is the theorem.
ghost use Rattle.std.specs.Prelude.{◌≡◌, ℕ, Ok, Some, None, IsSomeAnd, length, slice_get};
ghost use Rattle.tatp_tables.specs.Database.{Database, database_of, of_subscriber};
ghost use Rattle.tatp_homes.specs.Home.{SubscriberRows, IsHome, HaveSId};
ghost use Rattle.tatp_tables.specs.Clean.{IsClean};
ghost use Rattle.tatp_tables.specs.declared.row.Rows.{Rows};
ghost use Rattle.tatp_calls.specs.declared.call.Call.{Call};
ghost use Rattle.tatp_encoding.specs.Modules.{Procedure};
ghost use Rattle.tatp_calls.specs.Calls.{procedure_of, key_of_call, arguments_of};
ghost use Rattle.tatp_calls.specs.Arguments.{arguments_accepted};
ghost use Rattle.tatp_procs.specs.Standard.{standard_module};
ghost use Rattle.tatp_procs.specs.Consistent.{IsConsistent};
ghost use Rattle.tatp_calls.specs.Transactions.{transaction};
ghost use Rattle.tatp_numbers.specs.declared.key.Key.{Key};
ghost use Rattle.tatp_numbers.specs.Homes.{home_of_key};
ghost use Rattle.tatp_procs.specs.Performs.{Performs};
ghost use Rattle.tatp_procs.specs.Locality.{IsLocal};
ghost use Rattle.tatp_calls.specs.Transactions.{fails};

/// Run alone on a consistent database, each standard procedure is its transaction, for all
/// arguments in their domains: it ends, without a trap, with the reply and the database of the
/// transaction. It takes as many arguments as the call has.
pub fn standard_procedures_are_transactions()
    ensures performs { (call : Call) (u : Database)
        → IsConsistent u
        → arguments_accepted call ≡ Ok tt
        → Performs standard_module call u }
    ensures arity { (call : Call)
        → IsSomeAnd (slice_get standard_module.procedures (procedure_of call))
        (λ (p : Procedure). p.arity ≡ length (arguments_of call)) }
{}

/// Clean rows are consistent as a database, and so are the rows of a home.
pub fn clean_rows_and_homes_are_consistent()
    ensures rows { (r : Rows) → IsClean r → IsConsistent (database_of r) }
    ensures homes { (home : SubscriberRows) → IsHome home → IsConsistent home.tables }
{}

/// No transaction breaks a database: its keys, numbers, parents and values stay in order, and each
/// key names the subscriber that it named.
pub fn transactions_keep_databases_consistent()
    ensures consistent { (call : Call) (u : Database)
        → IsConsistent u
        → arguments_accepted call ≡ Ok tt
        → IsConsistent (transaction call u).database }
    ensures keys { (call : Call) (u : Database) (key : Key)
        → IsConsistent u
        → arguments_accepted call ≡ Ok tt
        → home_of_key (transaction call u).database.subscribers key
        ≡ home_of_key u.subscribers key }
{}

/// A transaction reads and changes the rows of its subscriber alone, and fails where its key names
/// none. A key names a subscriber in the database exactly where it names it among that subscriber's
/// rows.
pub fn transactions_are_local()
    ensures local { (call : Call) (u : Database) (s : ℕ)
        → IsConsistent u
        → home_of_key u.subscribers (key_of_call call) ≡ Some s
        → IsLocal call u s }
    ensures own { (call : Call) (u : Database) (s : ℕ)
        → IsConsistent u
        → home_of_key u.subscribers (key_of_call call) ≡ Some s
        → HaveSId s (transaction call (of_subscriber u s)).database }
    ensures homeless { (call : Call) (u : Database)
        → IsConsistent u
        → home_of_key u.subscribers (key_of_call call) ≡ None
        → transaction call u ≡ fails u 1 }
    ensures named_at_home { (u : Database) (s : ℕ) (key : Key)
        → IsConsistent u
        → home_of_key u.subscribers key ≡ Some s
        → home_of_key (of_subscriber u s).subscribers key ≡ Some s }
    ensures named_anywhere { (u : Database) (s : ℕ) (key : Key)
        → IsConsistent u
        → home_of_key (of_subscriber u s).subscribers key ≡ Some s
        → home_of_key u.subscribers key ≡ Some s }
{}
