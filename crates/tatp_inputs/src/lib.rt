//! Reads the parts of an input: a text, rows, and lines after them; and the command `audit`, whose
//! input is rows alone.
#![tactic(auto)]

mod audit;
mod fault;
mod rows;
mod text;
mod work;

pub use audit::run_audit;
pub use fault::InputFault;
pub use rows::read_rows_to_end;
pub use text::{FrontText, is_dot, read_text};
pub use work::work_of;
