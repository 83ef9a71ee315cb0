// Whether the records of a year agree with each other: the faults 4 to 7, and the limits that a year without them keeps.
#![tactic(auto)]

pub mod agree;
mod checks;
pub mod sums;
pub mod totals;
