//! What is proved of the definitions. Nothing runs here: a clause is the theorem.
ghost use Rattle.std.specs.Prelude.{◌≡◌, ◌↔◌, ℕ, suc, true, List, [], ◌++◌, length};
ghost use Rattle.tatp_tables.specs.Database.{Database, of_subscriber};
ghost use Rattle.tatp_homes.specs.Home.{SubscriberRows, IsHome};
ghost use Rattle.tatp_calls.specs.declared.call.Call.{Call};
ghost use Rattle.tatp_calls.specs.declared.reply.Reply.{Reply};
ghost use Rattle.tatp_calls.specs.Order.{in_order};
ghost use Rattle.tatp_calls.specs.Transactions.{transaction};
ghost use Rattle.tatp_procs.specs.Consistent.{IsConsistent};
ghost use Rattle.tatp_history.specs.declared.event.Event.{Event};
ghost use Rattle.tatp_history.specs.declared.line.Line.{Line};
ghost use Rattle.tatp_history.specs.declared.observed.Observed.{Observed};
ghost use Rattle.tatp_history.specs.Histories.{MayHaveReply, AreAskedApart, AreAnsweredInOrder, IsStrictlySerializable, rows_after, IsStrictlySerializableTo};
ghost use Rattle.tatp_history.specs.HistoryLines.{calls_of, AreAcceptedLines};
ghost use Rattle.tatp_history.specs.Changes.{LeavesRows, changes_nothing};
ghost use Rattle.tatp_history.specs.Cleared.{cleared_call, cleared_calls, cleared_rows, IsCleared};
ghost use Rattle.tatp_history.specs.Outcomes.{without_aborted, answered_alone};
ghost use Rattle.tatp_history.specs.Turns.{AreInTurn, lines_in_turn, calls_made, replies_had};
ghost use Rattle.tatp_history.specs.Locality.{AreInTime, AreAccepted, AreCalls, calls_on, FailWithout, IsSerializableAtEach, IsSerializableToEach};
ghost use Rattle.tatp_history.specs.Prefixes.{calls_by};
ghost use Rattle.tatp_history.specs.Events.{asked_in, TimesRise, HaveEnds};
ghost use Rattle.tatp_history.specs.JustInTime.{Chooses, AreOpen, Explains};
ghost use Rattle.tatp_history.specs.Configurations.{Configuration, starting, Lead, LeadToSome, AreUnanswered};
ghost use Rattle.tatp_history.specs.SubscriberEvents.{NothingIsOpen, events_of, events_from};

/// Strict serializability is local (Herlihy and Wing, 1990): calls are strictly serializable
/// exactly where each subscriber's calls are on that subscriber's rows, and those that name none
/// fail.
pub fn strict_serializability_is_local()
    ensures combined { (u : Database) (calls : List Observed)
        → IsConsistent u → AreCalls calls
        → IsSerializableAtEach u calls → IsStrictlySerializable u calls }
    ensures parted { (u : Database) (calls : List Observed)
        → IsConsistent u → AreCalls calls
        → IsStrictlySerializable u calls → IsSerializableAtEach u calls }
{}

/// Strict serializability with given rows at the end is local too.
pub fn strict_serializability_to_rows_is_local()
    ensures combined { (u : Database) (calls : List Observed) (after : Database)
        → IsConsistent u → IsConsistent after → AreCalls calls
        → IsSerializableToEach u calls after → IsStrictlySerializableTo u calls after }
    ensures parted { (u : Database) (calls : List Observed) (after : Database)
        → IsConsistent u → AreCalls calls
        → IsStrictlySerializableTo u calls after → IsSerializableToEach u calls after }
{}

/// The rows of a subscriber after calls are those after its own calls.
pub fn rows_are_left_by_each_subscribers_calls()
    ensures { (u : Database) (order : List Observed) (s : ℕ)
        → IsConsistent u → AreAccepted order
        → of_subscriber (rows_after u order) s
        ≡ rows_after (of_subscriber u s) (calls_on u s order) }
{}

/// Databases in which each subscriber has the same rows are equal.
pub fn equal_rows_of_each_subscriber_are_equal_databases()
    ensures { (u v : Database)
        → IsConsistent u → IsConsistent v
        → ((s : ℕ) → of_subscriber u s ≡ of_subscriber v s)
        → u ≡ v }
{}

/// Calls of which no two overlap are strictly serializable exactly where each has the reply of its
/// transaction, in their order. The same holds of a history whose one client waits for each reply.
pub fn calls_in_turn_are_answered_in_order()
    ensures calls { (u : Database) (calls : List Observed)
        → AreInTurn calls → AreInTime calls
        → (IsStrictlySerializable u calls ↔ AreAnsweredInOrder u calls) }
    ensures lines { (u : Database) (pairs : List (Call × Reply))
        → (IsStrictlySerializable u (calls_of (lines_in_turn pairs))
        ↔ (replies_had pairs ≡ (in_order u (calls_made pairs)).replies)) }
{}

/// Calls that were aborted change nothing, and calls of unknown outcome may change rows.
pub fn only_answered_calls_have_to_take_effect()
    ensures aborted { (u : Database) (calls : List Observed)
        → (IsStrictlySerializable u (without_aborted calls) ↔ IsStrictlySerializable u calls) }
    ensures unknown { (u : Database) (calls : List Observed)
        → IsStrictlySerializable u (answered_alone calls) → IsStrictlySerializable u calls }
{}

/// Lowe's search, just in time, goes through the events of calls exactly where these are strictly
/// serializable.
pub fn the_search_just_in_time_is_exact()
    ensures { (u : Database) (events : List Event)
        → TimesRise events → HaveEnds events
        → (Explains events u [] ↔ IsStrictlySerializable u (asked_in events)) }
{}

/// The search goes through events exactly where they lead to some configuration.
pub fn the_search_leads_to_configurations()
    ensures { (events : List Event) (c : Configuration)
        → (Explains events c.rows c.opened ↔ ((d : Configuration) × Lead events c d)) }
{}

/// An open call that changes nothing, and whose reply fits, may take effect at once: nothing is
/// lost. Such calls are those that only read, and those that failed.
pub fn calls_that_change_nothing_may_take_effect_at_once()
    ensures once { (events : List Event) (u : Database) (opened left : List Observed)
        (x : Observed)
        → TimesRise events → HaveEnds events → AreOpen events opened → Chooses opened x left
        → LeavesRows x → MayHaveReply x.outcome (transaction x.call u).reply
        → (Explains events u opened ↔ Explains events u left) }
    ensures unchanged { (x : Observed) → changes_nothing x ≡ true → LeavesRows x }
{}

/// Where all that clients saw is strictly serializable, so is what they had seen by any time. The
/// first lines of a history give what clients had seen by the time of the last of these lines.
pub fn prefixes_are_strictly_serializable()
    ensures times { (time : ℕ) (u : Database) (calls : List Observed)
        → AreInTime calls
        → IsStrictlySerializable u calls → IsStrictlySerializable u (calls_by time calls) }
    ensures told { (first second : List Line)
        → calls_by (length first) (calls_of (first ++ second)) ≡ calls_of first }
    ensures lines { (u : Database) (first second : List Line)
        → IsStrictlySerializable u (calls_of (first ++ second))
        → IsStrictlySerializable u (calls_of first) }
{}

/// The events on a subscriber are those of its calls, in the order of time, each with its end.
pub fn events_of_a_subscriber_are_those_of_its_calls()
    ensures asked { (u : Database) (s : ℕ) (lines : List Line)
        → asked_in (events_of u s lines) ≡ calls_on u s (calls_of lines) }
    ensures rise { (u : Database) (s : ℕ) (lines : List Line)
        → TimesRise (events_of u s lines) }
    ensures ends { (u : Database) (s : ℕ) (lines : List Line)
        → HaveEnds (events_of u s lines) }
    ensures calls { (lines : List Line) → AreAcceptedLines lines → AreCalls (calls_of lines) }
{}

/// A history is strictly serializable exactly where the search goes through the events of each
/// subscriber's calls on its rows, and the answered calls that name none fail.
pub fn histories_are_judged_subscriber_by_subscriber()
    ensures { (u : Database) (lines : List Line)
        → IsConsistent u → AreAcceptedLines lines
        → ((((s : ℕ) → Explains (events_of u s lines) (of_subscriber u s) [])
        × FailWithout u (calls_of lines)) ↔ IsStrictlySerializable u (calls_of lines)) }
{}

/// A history may be cut where no call on a subscriber is open. The search on the second part begins
/// with the configurations to which the first part leads: their rows, and the calls of unknown
/// outcome that have not taken effect there and still may.
pub fn histories_may_be_cut_where_nothing_is_open()
    ensures lines { (u : Database) (s : ℕ) (first second : List Line)
        → NothingIsOpen u s first
        → events_of u s (first ++ second)
        ≡ events_of u s first ++ events_from u s (suc (length first)) second }
    ensures searched { (u : Database) (s : ℕ) (rows : Database) (first second : List Line)
        → NothingIsOpen u s first
        → (Explains (events_of u s (first ++ second)) rows []
        ↔ LeadToSome (events_of u s first) (starting rows)
        (λ c. Explains (events_from u s (suc (length first)) second) c.rows c.opened)) }
    ensures serializable { (u : Database) (first second : List Event)
        → TimesRise (first ++ second) → HaveEnds (first ++ second)
        → (IsStrictlySerializable u (asked_in (first ++ second))
        ↔ LeadToSome first (starting u)
        (λ c. IsStrictlySerializable c.rows (c.opened ++ asked_in second))) }
    ensures rows { (u after : Database) (first second : List Event)
        → TimesRise (first ++ second) → HaveEnds (first ++ second)
        → (IsStrictlySerializableTo u (asked_in (first ++ second)) after
        ↔ LeadToSome first (starting u)
        (λ c. IsStrictlySerializableTo c.rows (c.opened ++ asked_in second) after)) }
    ensures unknown { (u : Database) (first : List Event) (c : Configuration)
        → TimesRise first → HaveEnds first → Lead first (starting u) c → AreUnanswered c.opened }
{}

/// No transaction reads data_a, and none inserts or deletes a facility. So a call that sets bit_1
/// and data_a may be taken for one that sets bit_1 alone, from rows with data_a cleared: each call
/// has the same reply and leaves the same rows but for data_a, and calls are strictly serializable
/// exactly where those are. The rows of a home are cleared by one change.
pub fn data_a_is_never_read()
    ensures replies { (u v : Database) (call : Call)
        → IsCleared u v
        → (transaction (cleared_call v.facilities call) v).reply ≡ (transaction call u).reply }
    ensures rows { (u v : Database) (call : Call)
        → IsCleared u v
        → IsCleared (transaction call u).database
        (transaction (cleared_call v.facilities call) v).database }
    ensures facilities { (u v : Database) (call : Call)
        → IsCleared u v
        → (transaction (cleared_call v.facilities call) v).database.facilities ≡ v.facilities }
    ensures serializable { (u v : Database) (calls : List Observed)
        → IsCleared u v → AreAskedApart calls
        → (IsStrictlySerializable v (cleared_calls v.facilities calls)
        ↔ IsStrictlySerializable u calls) }
    ensures homes { (home : SubscriberRows)
        → IsHome home → IsCleared home.tables (cleared_rows home.tables home.s_id) }
{}
