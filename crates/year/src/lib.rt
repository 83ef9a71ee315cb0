// The checked year: one that keeps every limit, or the empty one.
#![tactic(auto)]

pub mod filled;
mod fills;
mod lists;
pub mod questions;
pub mod reads;
pub mod writes;
pub mod year;
