//! The theorem, and the laws of the definitions for the crates above. Nothing runs here: a clause
//! is the law.
ghost use Rattle.std.specs.Prelude.{◌≡◌, ◌<◌, ◌≤◌, ◌+◌, ◌^◌, ◌⊎◌, ◌∷◌, ◌++◌, ℕ, true, List, [], None, Some, Result, length, slice_get};
ghost use Rattle.tatp_encoding.specs.Modules.{ModuleState};
ghost use Rattle.tatp_tables.specs.Clean.{IsClean};
ghost use Rattle.tatp_tables.specs.Database.{database_of};
ghost use Rattle.tatp_tables.specs.declared.row.Rows.{Rows};
ghost use Rattle.tatp_audits.specs.Audits.{IsVerdict, clean_of};
ghost use Rattle.tatp_calls.specs.Asked.{has_procedure, bad_argument};
ghost use Rattle.tatp_calls.specs.declared.ask.Ask.{Ask};
ghost use Rattle.tatp_calls.specs.declared.reply.Reply.{Reply};
ghost use Rattle.tatp_extents.specs.Extents.{ExtentState};
ghost use Rattle.tatp_extents.specs.Opening.{extent_count};
ghost use Rattle.tatp_partition.specs.Moving.{LandedState};
ghost use Rattle.tatp_partition.specs.Sites.{SiteState};
ghost use Rattle.tatp_events.specs.declared.event.Event.{Event};
ghost use Rattle.tatp_events.specs.Answers.{Answered};
ghost use Rattle.tatp_events.specs.declared.refusal.Refusal.{Refusal};
ghost use Rattle.tatp_dispatch.specs.Benchmark.{IsTheBenchmark};
ghost use Rattle.tatp_dispatch.specs.Calling.{MakesCall};
ghost use Rattle.tatp_dispatch.specs.Events.{Happens};
ghost use Rattle.tatp_dispatch.specs.InHand.{HoldsParcel, HoldsLanding, HasLanded, WasTold, NoneInHand, NamesTheHolder};
ghost use Rattle.tatp_dispatch.specs.Opened.{IsOpened};
ghost use Rattle.tatp_dispatch.specs.Populated.{IsPopulated};
ghost use Rattle.tatp_dispatch.specs.Resting.{IsAtRest, IsOutcomeAtRest};
ghost use Rattle.tatp_dispatch.specs.Runs.{Runs};
ghost use Rattle.tatp_dispatch.specs.Seen.{ShowsItsCall, ShowsItsHomes};
ghost use Rattle.tatp_dispatch.specs.Gathered.{gathered, gathered_rows};
ghost use Rattle.tatp_dispatch.specs.Worlds.{WorldState};
ghost use Rattle.tatp_dispatch.specs.Shown.{shown, set_back};
ghost use Rattle.tatp_dispatch.specs.Serving.{IsWorld, ServesTransactions, Tells};

// ---- the theorem

/// From a population to the end of any run: for whatever module, partitions, clients and events,
/// the answers, and the system after them, are the benchmark, one call after another.
pub fn every_run_is_the_benchmark()
    ensures { (modul : ModuleState) (population : Rows) (partitions clients : ℕ)
        (opened after : WorldState) (events : List Event) (answers : List Answered)
        → IsWorld opened → IsOpened modul population partitions clients opened
        → Runs opened events answers after → IsTheBenchmark modul population answers after }
{}

/// A run may have no event, and each event that is applied after it continues it.
pub fn runs_go_on()
    ensures none { (w : WorldState) → IsWorld w → Runs w [] [] w }
    ensures more { (opened before after : WorldState) (events : List Event)
        (answers : List Answered) (event : Event) (answered : Answered)
        → Runs opened events answers before
        → Happens before event answered after → Tells before answered after
        → Runs opened (events ++ event ∷ []) (answers ++ answered ∷ []) after }
{}

// ---- what the transactions did

/// Under the standard module the transactions that ended are answered as the benchmark's are, one
/// after another, and result in the same database.
pub fn transactions_are_served_in_order()
    ensures { (w after : WorldState) → IsWorld w → ServesTransactions w after }
{}

/// Where no call runs, the database with the running calls set back is the gathered one.
pub fn nothing_is_set_back_where_no_call_runs()
    ensures { (w : WorldState) → ((client : ℕ) → (shown w).calls client ≡ None)
        → set_back w ≡ gathered w }
{}

// ---- one client

/// A system that was just opened for one client is at rest. From rest a call of a procedure of the
/// module is refused for an argument, or comes to its end, or is refused memory alone. Then the
/// system is at rest again.
pub fn calls_from_rest_are_refused_memory_alone()
    ensures opened { (modul : ModuleState) (population : Rows) (partitions : ℕ)
        (opened : WorldState)
        → IsOpened modul population partitions 1 opened → IsAtRest 0 opened }
    ensures call { (before after : WorldState) (calls : ℕ) (ask : Ask)
        (outcome : Result Reply Refusal)
        → IsWorld before → IsAtRest calls before → calls + 1 < 2 ^ 64
        → has_procedure before.modul ask ≡ true → MakesCall before 0 ask outcome after
        → IsOutcomeAtRest (bad_argument ask) outcome × IsAtRest (calls + 1) after }
{}

// ---- the rows

/// The subscribers of clean rows are 1 to their number, each with its rows.
pub fn clean_rows_are_populated()
    ensures { (r : Rows) → IsClean r → IsPopulated (length r.subscribers) (database_of r) }
{}

/// The gathered rows pass every audit, in mid-call too.
pub fn gathered_rows_are_clean()
    ensures clean { (w : WorldState) → IsWorld w → IsClean (gathered_rows w) }
    ensures verdict { (w : WorldState) → IsWorld w
        → IsVerdict (gathered_rows w) (clean_of (gathered_rows w)) }
    ensures subscribers { (w : WorldState) → IsWorld w
        → length (gathered_rows w).subscribers ≡ w.routes.subscribers }
{}

// ---- sites, routes, and what is in hand

/// What is seen at a site is the system's, in mid-call too: the call that runs there is its
/// client's in the plain world, and a home there has its subscriber's rows in the gathered
/// database.
pub fn sites_show_the_whole()
    ensures call { (w : WorldState) (p : ℕ) (s : SiteState)
        → IsWorld w → slice_get w.sites p ≡ Some s → ShowsItsCall w s }
    ensures homes { (w : WorldState) (p : ℕ) (s : SiteState)
        → IsWorld w → slice_get w.sites p ≡ Some s → ShowsItsHomes w s }
{}

/// Where neither a parcel nor a landing of an extent is in hand, its route names the partition
/// where it is.
pub fn routes_name_the_holders()
    ensures { (w : WorldState) (e : ℕ)
        → IsWorld w → 1 ≤ e → e ≤ extent_count w.routes.subscribers
        → NoneInHand w e → NamesTheHolder w e }
{}

/// Whatever happens, a parcel in hand stays as it is until it lands, and a landing in hand until it
/// is routed.
pub fn what_is_in_hand_stays()
    ensures parcels { (w after : WorldState) (event : Event) (answered : Answered) (e : ℕ)
        (parcel : ExtentState)
        → IsWorld w → Happens w event answered after → HoldsParcel w e parcel
        → HoldsParcel after e parcel ⊎ HasLanded event answered e parcel }
    ensures landings { (w after : WorldState) (event : Event) (answered : Answered)
        (landed : LandedState)
        → Happens w event answered after → HoldsLanding w landed
        → HoldsLanding after landed ⊎ WasTold event answered landed }
{}
