// The page of a year: from its figures, under an allocation method, the locational prices and the five yearly charges of
// each connection point.
#![tactic(auto)]

mod charged;
mod located;
pub mod page;
mod places;
pub mod priced;
mod revenues;
mod rows;
