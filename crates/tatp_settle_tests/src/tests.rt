//! Tests, and the verdict on a run as text.
mod calls;
mod chapters;
mod checkpoints;
mod entries;
mod extents;
mod gathering;
mod moves;
mod receipts;
mod routes;
mod settled;
mod stops;
mod told;
