//! A module for each crate whose calls are tested.
mod driver;
mod population;
mod procs;
