// What the records of a year file and of a bill are made of: refusals and faults, bits, and fields with a range.
#![tactic(auto)]

pub mod fault;
pub mod field;
pub mod fields;
pub mod layout;
pub mod lengths;
pub mod reader;
pub mod reads;
pub mod refusal;
pub mod row;
pub mod rows;
pub mod writer;
pub mod writes;
