// The record of a point, 15 bytes.
#![tactic(auto, using(bits::proofs::Trips::stands_same, crate::specs::Laws::point_lawful), unfolding(crate::specs::Points::point_form))]

ghost use Rattle.records.specs.Points.{point_form};
ghost use Rattle.records.specs.Laws.{point_lawful, point_sized};

use bits::field::Field;
use bits::layout::Layout;
use bits::row::Row;

#[derive(Clone, Copy, Debug, PartialEq, Eq)]
pub struct Point {
    pub identifier: u16,
    pub entry_cost: u32,
    pub exit_cost: u32,
    pub contract_demand: u32,
    pub energy: u32,
}

impl Row<6, 15> for Point {
    ghost form = { point_form };

    ghost sized = { point_sized };

    ghost lawful = { point_lawful };

    fn layout(_values: &[u64; 6]) -> Layout<6> {
        Layout {
            fields: [
                Field::plain(16, 1, 65_535),
                Field::free(24),
                Field::free(24),
                Field::free(24),
                Field::free(26),
                Field::only(6, 0),
            ],
        }
    }

    fn values(&self) -> [u64; 6] {
        [
            u64::from(self.identifier),
            u64::from(self.entry_cost),
            u64::from(self.exit_cost),
            u64::from(self.contract_demand),
            u64::from(self.energy),
            0,
        ]
    }

    fn named(values: &[u64; 6]) -> Point {
        let [
            identifier,
            entry_cost,
            exit_cost,
            contract_demand,
            energy,
            _,
        ] = *values;
        Point {
            identifier: identifier as u16,
            entry_cost: entry_cost as u32,
            exit_cost: exit_cost as u32,
            contract_demand: contract_demand as u32,
            energy: energy as u32,
        }
    }
}
