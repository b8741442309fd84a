//! Values outside their domains.
ghost use Rattle.std.specs.Prelude.{◌≡◌, ◌+◌, ◌≤◌, ◌<◌, ◌++◌, ◌∷◌, [], ℕ, true, false, length, take, slice_index, MatchOption, IfSome};
ghost use Rattle.tatp_tables.specs.Columns.{column_count, key_length};
ghost use Rattle.tatp_tables.specs.Domains.{are_in_domain};
ghost use Rattle.tatp_audits.specs.Failing.{Finds};
ghost use Rattle.tatp_audits.specs.Audits.{column_outside, is_outside};

use crate::least::keep_least;
use tatp_tables::{Table, in_domain};

/// The first of a row's columns, from this one on, whose value is outside its domain.
fn first_outside(row: &[u64], first: u8) -> Option<u8>
    requires { first + length row.now ≤ 256 }
    ensures { MatchOption result (are_in_domain first row.now ≡ true) (λ column.
        (are_in_domain first row.now ≡ false) × (column ≡ column_outside first row.now)) }
{
    for (place, value) in row.iter().enumerate() {
        let column = first + place as u8;
        if !in_domain(column, *value) {
            return Some(column);
        }
    }
    None
}

/// A row's key and a column behind it.
fn key_and_column<const M: usize, const N: usize, const K: usize>(
    row: &[u64; M],
    column: u8,
) -> [u64; K]
    requires key { N ≤ M }
    requires place { K ≡ N + 1 }
    ensures { result ≡ take N row.now ++ column ∷ [] }
{
    let mut place = [0; K];
    place[..N].copy_from_slice(&row[..N]);
    place[N] = column as u64;
    place
}

/// The least key, and its least column, of a row of the table that has a value outside its domain.
pub(crate) fn least_outside<const M: usize, const N: usize, const K: usize>(
    rows: &[[u64; M]],
    table: Table,
) -> Option<[u64; K]>
    requires columns { M ≡ column_count table }
    requires key { N ≡ key_length table }
    requires place { K ≡ N + 1 }
    ensures least { Finds (is_outside table rows.now) result }
    ensures column { IfSome result (λ place. slice_index place N < 256) }
{
    let mut best = None;
    for row in rows {
        if let Some(column) = first_outside(row, table.first_column()) {
            best = keep_least(best, key_and_column::<M, N, K>(row, column));
        }
    }
    best
}
