//! Tests.
mod chapters;
mod held_step;
mod runs;
mod unsettled;
mod work;
