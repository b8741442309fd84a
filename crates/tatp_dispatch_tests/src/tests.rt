//! Tests.
mod completions;
mod running;
mod standard_1;
mod trace_lines;
mod versions;
mod world;
