//! The rows of a home appended to lists.
ghost use Rattle.std.specs.Prelude.{◌≡◌, ◌≤◌, ◌++◌, OnOk, OnErr, length, take};
ghost use Rattle.tatp_tables.specs.Tuples.{rows_of};
ghost use Rattle.tatp_homes.specs.Cells.{present};
ghost use Rattle.tatp_tables.specs.Rows.{with_home, StartWith};

use super::Home;
use crate::stored::{accesses_in, facilities_in, forwardings_in, subscriber_in};
use std::alloc::AllocError;
use tatp_tables::{RowList, Rows};

impl Home {
    /// Appends its rows to the lists of their tables, each table by key. An error leaves the lists
    /// as they were.
    pub fn add_rows(&self, rows: &mut Rows) -> Result<(), AllocError>
        ensures ok { OnOk result (rows.new ≡ with_home rows.old self.now.tables) }
        ensures err { OnErr result (rows.new ≡ rows.old) }
    {
        let subscribers = rows.subscribers.len();
        let accesses = rows.accesses.len();
        let facilities = rows.facilities.len();
        let result = self.append_to(rows);
        if result.is_err() {
            rows.subscribers.truncate(subscribers);
            rows.accesses.truncate(accesses);
            rows.facilities.truncate(facilities);
        }
        result
    }

    /// Appends its rows, table after table. An error leaves some of them appended, and the last
    /// table as it was.
    fn append_to(&self, rows: &mut Rows) -> Result<(), AllocError>
        ensures ok { OnOk result (rows.new ≡ with_home rows.old self.now.tables) }
        ensures err { OnErr result (StartWith rows.old rows.new) }
    {
        append_cells(&mut rows.subscribers, &[subscriber_in(&self.subscriber)])?;
        append_cells(&mut rows.accesses, &accesses_in(&self.accesses))?;
        append_cells(&mut rows.facilities, &facilities_in(&self.facilities))?;
        append_cells(&mut rows.forwardings, &forwardings_in(&self.forwardings))
    }
}

/// Appends the rows in cells. An error leaves the list as it was.
fn append_cells<const N: usize>(
    rows: &mut RowList<N>,
    cells: &[Option<[u64; N]>],
) -> Result<(), AllocError>
    ensures ok { OnOk result (rows.new ≡ rows.old ++ present cells.now) }
    ensures err { OnErr result (rows.new ≡ rows.old) }
{
    let before = rows.len();
    for cell in cells {
        if let Some(row) = cell {
            if let Err(error) = rows.push(*row) {
                rows.truncate(before);
                return Err(error);
            }
        }
    }
    Ok(())
}
