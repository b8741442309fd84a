//! What is compared, and with what.
mod drawn;
mod machine;
