// The arithmetic of a price book, in whole cents: shares of an amount, monthly instalments, charges by a price, the
// postage-stamp spread over energy, and the calendar. Every function answers for every argument: where one lies out of
// the stated range, the answer is `None`.
#![tactic(auto)]

pub mod calendar;
pub mod instalments;
pub mod postage;
pub mod sharing;
mod totals;
pub mod worked;
