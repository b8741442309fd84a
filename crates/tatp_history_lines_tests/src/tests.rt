//! What is tested.
mod lines;
