// What the figures of all points come to.
#[derive(Clone, Copy)]
pub struct PointTotals {
    pub entry_cost: u64,
    pub exit_cost: u64,
    pub demand: u64,
    pub energy: u64,
}
