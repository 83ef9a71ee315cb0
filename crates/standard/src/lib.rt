// The standard and the modified method: a pool is parted by the costs of a year's elements, and each part is shared
// over the uses of its element.
#![tactic(auto)]

pub mod allocation;
pub mod lends;
mod pool;
mod portions;
pub mod rules;
mod segments;
mod shares;
mod walk;
mod weighs;
pub mod worked;
