//! Clean rows.

use std::alloc::{AllocError, Global};
use tatp_tables::{Row, Rows};

/// Rows of these subscribers, each with one row in Access_Info and one in Special_Facility. These
/// subscribers have another location than the others.
pub fn clean_rows(alloc: Global, subscribers: u64, elsewhere: &[u64]) -> Result<Rows, AllocError> {
    let mut rows = Rows::new(alloc);
    for i in 0..subscribers {
        let s_id = i.saturating_add(1);
        let mut subscriber = [0; 34];
        subscriber[0] = s_id;
        subscriber[1] = s_id;
        subscriber[32] = 1;
        subscriber[33] = if elsewhere.contains(&s_id) { 2 } else { 1 };
        rows.push(Row::S(subscriber))?;
        rows.push(Row::A([s_id, 1, 0, 0, 4276545, 280267669825]))?;
        rows.push(Row::F([s_id, 1, 1, 0, 0, 280267669825]))?;
    }
    Ok(rows)
}
