//! What is tested.
mod inputs;
