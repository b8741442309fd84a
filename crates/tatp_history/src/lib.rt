//! Histories: what clients saw of a database, and when it is strictly serializable.
#![tactic(auto)]

mod changes;
mod event;
mod line;
mod observed;
mod theorems;

pub use changes::only_reads;
pub use event::Event;
pub use line::Line;
pub use observed::{Observed, Outcome, Recorded};
pub use theorems::{
    calls_in_turn_are_answered_in_order, calls_that_change_nothing_may_take_effect_at_once,
    data_a_is_never_read, equal_rows_of_each_subscriber_are_equal_databases,
    events_of_a_subscriber_are_those_of_its_calls, histories_are_judged_subscriber_by_subscriber,
    histories_may_be_cut_where_nothing_is_open, only_answered_calls_have_to_take_effect,
    prefixes_are_strictly_serializable, rows_are_left_by_each_subscribers_calls,
    strict_serializability_is_local, strict_serializability_to_rows_is_local,
    the_search_just_in_time_is_exact, the_search_leads_to_configurations,
};
