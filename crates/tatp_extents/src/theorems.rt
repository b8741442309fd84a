//! Theorems on extents, their homes and histories. Nothing runs here: a clause is the theorem.
ghost use Rattle.std.specs.Prelude.{◌≡◌, ◌≢◌, ◌↔◌, ◌+◌, ◌<◌, ◌≤◌, ◌++◌, ℕ, All, List, map, length, Option, Some, slice_get, slice_set, IsSome, IsPermutation};
ghost use Rattle.std.specs.List.{list_any, range_with_len};
ghost use Rattle.tatp_tables.specs.Tuples.{Tuple, has};
ghost use Rattle.tatp_tables.specs.Database.{Database, database_of, in_table, of_subscriber, with_subscriber};
ghost use Rattle.tatp_homes.specs.Home.{SubscriberRows, home_in};
ghost use Rattle.tatp_tables.specs.Clean.{IsClean};
ghost use Rattle.tatp_tables.specs.declared.table.Table.{Table};
ghost use Rattle.tatp_tables.specs.declared.row.Rows.{Rows};
ghost use Rattle.tatp_extents.specs.Extents.{ExtentState, IsExtent, LiesIn, extent_of, home_at, with_home_at};
ghost use Rattle.tatp_calls.specs.declared.entry.Entry.{Entry};
ghost use Rattle.tatp_extents.specs.Histories.{Leads, StampsRise};
ghost use Rattle.tatp_extents.specs.HomelessLog.{RecordsHomeless};
ghost use Rattle.tatp_extents.specs.Chapters.{ChapterState, Joins, EachLeads, EachRises, entries_joined, chapters_listed, homes_due_from};
ghost use Rattle.tatp_extents.specs.HomeRows.{database_of_homes, AreRowsOf, AreSeparateHomes};

/// An extent has a home in the place of each subscriber that lies in it, and that home is the
/// subscriber's. A subscriber lies in one extent alone.
pub fn homes_stand_in_their_places()
    ensures some { (x : ExtentState) (s : ℕ) → IsSome (home_at x s) ↔ LiesIn s x }
    ensures own { (x : ExtentState) (s : ℕ) (home : SubscriberRows)
        → IsExtent x
        → home_at x s ≡ Some home
        → home.s_id ≡ s }
    ensures extent { (x : ExtentState) (s : ℕ) → IsExtent x → LiesIn s x → extent_of s ≡ x.number }
{}

/// A home is put in the place of a subscriber without touching any other's.
pub fn homes_are_put_in_their_places()
    ensures put_in { (x : ExtentState) (s : ℕ) (home : SubscriberRows)
        → LiesIn s x
        → home_at (with_home_at x s home) s ≡ Some home }
    ensures put_back { (x : ExtentState) (s : ℕ) (home : SubscriberRows)
        → home_at x s ≡ Some home
        → with_home_at x s home ≡ x }
    ensures put_twice { (x : ExtentState) (s : ℕ) (home new : SubscriberRows)
        → with_home_at (with_home_at x s home) s new ≡ with_home_at x s new }
    ensures others { (x : ExtentState) (s other : ℕ) (home : SubscriberRows)
        → s ≢ other
        → LiesIn s x
        → home_at (with_home_at x s home) other ≡ home_at x other }
    ensures lies { (x : ExtentState) (s other : ℕ) (home : SubscriberRows)
        → LiesIn other (with_home_at x s home) ↔ LiesIn other x }
{}

/// The rows of the homes of all subscribers are the database. Those of clean rows are 1 to their
/// number.
pub fn rows_of_all_homes_are_the_database()
    ensures database { (u : Database) (ids : List ℕ)
        → AreRowsOf ids u
        → database_of_homes (map (home_in u) ids) ≡ u }
    ensures clean { (r : Rows)
        → IsClean r
        → AreRowsOf (range_with_len 1 (length r.subscribers)) (database_of r) }
{}

/// The database of homes has the rows of each, whatever their order. Of separate homes each is its
/// subscriber's rows, and another in its place is those replaced.
pub fn homes_are_parts_of_their_database()
    ensures rows { (homes : List SubscriberRows) (t : Table) (row : Tuple)
        → has (in_table t (database_of_homes homes)) row
        ≡ list_any (λ home. has (in_table t home.tables) row) homes }
    ensures order { (homes others : List SubscriberRows)
        → IsPermutation homes others
        → database_of_homes homes ≡ database_of_homes others }
    ensures part { (homes : List SubscriberRows) (i : ℕ) (home : SubscriberRows)
        → AreSeparateHomes homes
        → slice_get homes i ≡ Some home
        → of_subscriber (database_of_homes homes) home.s_id ≡ home.tables }
    ensures replaced { (homes : List SubscriberRows) (i : ℕ) (home new : SubscriberRows)
        → AreSeparateHomes homes
        → slice_get homes i ≡ Some home
        → database_of_homes (slice_set homes i new)
        ≡ with_subscriber (database_of_homes homes) home.s_id new.tables }
{}

/// Chapters that are joined end to end, and a log that continues from where the last ended, are one
/// history: their entries lead from the first homes to the last, and their stamps rise.
pub fn joined_chapters_are_one_history()
    ensures leads { (before : List SubscriberRows) (chapters : List ChapterState)
        (opening : List SubscriberRows) (log : List Entry) (homes : List SubscriberRows)
        → Joins before chapters opening
        → EachLeads chapters
        → Leads opening log homes
        → Leads before (entries_joined chapters ++ log) homes }
    ensures homeless { (chapters : List ChapterState) (log : List Entry)
        → All (λ (c : ChapterState). All RecordsHomeless c.entries) chapters
        → All RecordsHomeless log
        → All RecordsHomeless (entries_joined chapters ++ log) }
    ensures rise { (least : ℕ) (chapters : List ChapterState) (log : List Entry)
        → EachRises least chapters log
        → StampsRise least (entries_joined chapters ++ log) }
    ensures join { (at : ℕ → Option ChapterState) (first count : ℕ)
        (homes opening : List SubscriberRows)
        → ((i : ℕ) → i < count → (c : ChapterState) × (at (first + i) ≡ Some c))
        → ((i : ℕ) (c : ChapterState)
        → i < count
        → at (first + i) ≡ Some c
        → Some c.before ≡ homes_due_from at first homes (first + i))
        → Some opening ≡ homes_due_from at first homes (first + count)
        → Joins homes (chapters_listed at first count) opening }
{}
