// The records of a year file and of a bill: what each byte of them means, read and written.
#![tactic(auto)]

pub mod bill;
pub mod element;
pub mod header;
pub mod network_use;
pub mod point;
