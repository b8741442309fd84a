//! The four tables of the TATP benchmark: their columns, which values fit them, and lists of rows.
//!
//! A contract sees a database as four finite sets of tuples of numbers. `docs/MODEL.md` gives the
//! definitions in words.
#![tactic(auto)]

mod domain;
mod row;
mod table;

pub use domain::in_domain;
pub use row::{Row, RowList, Rows};
pub use table::{Table, is_fixed};
