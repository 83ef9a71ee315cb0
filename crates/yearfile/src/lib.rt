// A year file as a header and a stream of records.
#![tactic(auto)]

pub mod lay;
pub mod length;
pub mod record;
pub mod rows;
pub mod stream;
pub mod tells;
