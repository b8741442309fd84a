//! What is tested.
mod forwardings;
mod overwritten;
mod to_rows;
