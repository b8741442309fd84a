//! A module for each crate whose calls are tested.
mod lines;
mod numbers;
mod tables;
