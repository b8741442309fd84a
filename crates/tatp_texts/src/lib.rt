//! The text of a value in its column's form, of a row, and the fields of a line.
#![tactic(auto)]

mod digits;
mod fields;
mod form;
mod letters;
mod text;
mod values;

pub use fields::Fields;
pub use form::is_decimal;
pub use text::{read_row, row_text};
pub use values::{push_value, read_value};
