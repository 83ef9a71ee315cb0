// Locational prices: what an amount comes to for each kW, within the bounds that the side constraint sets.
#![tactic(auto)]

pub mod average;
pub mod constraint;
