//! Audits of the rows of a database: whether they are clean, else the first audit that fails and
//! the least key that fails it.
#![tactic(auto)]

mod audits;
mod counts;
mod ids;
mod keys;
mod least;
mod parents;
mod theorems;
mod twice;
mod values;
mod verdict;

pub use audits::audit;
pub use theorems::each_audit_is_its_statement;
pub use verdict::{FailedKey, Verdict};
