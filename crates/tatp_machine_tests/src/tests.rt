//! A module for each crate whose calls are tested.
mod asm;
mod encoding;
mod instr;
mod loader;
mod machine;
