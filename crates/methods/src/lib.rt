// Allocation methods: ways to allot a pool of money to the points of a network, and to part it among its elements.
#![tactic(auto)]

pub mod discount;
pub mod method;
