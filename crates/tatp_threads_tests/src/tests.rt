//! Tests.
mod chapters;
mod gates;
mod real_time;
mod refusals;
mod stops;
mod threads;
