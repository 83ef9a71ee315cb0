// The record of a use, 5 bytes.
#![tactic(auto, using(bits::proofs::Trips::stands_same, crate::specs::Laws::use_lawful), unfolding(crate::specs::Uses::use_form))]

ghost use Rattle.records.specs.Uses.{use_form};
ghost use Rattle.records.specs.Laws.{use_lawful, use_sized};

use bits::field::Field;
use bits::layout::Layout;
use bits::row::Row;

#[derive(Clone, Copy, Debug, PartialEq, Eq)]
pub struct NetworkUse {
    pub element: u16,
    pub point: u16,
    pub demand: u32,
}

impl Row<4, 5> for NetworkUse {
    ghost form = { use_form };

    ghost sized = { use_sized };

    ghost lawful = { use_lawful };

    fn layout(_values: &[u64; 4]) -> Layout<4> {
        Layout {
            fields: [
                Field::free(8),
                Field::free(6),
                Field::free(24),
                Field::only(2, 0),
            ],
        }
    }

    fn values(&self) -> [u64; 4] {
        [
            u64::from(self.element),
            u64::from(self.point),
            u64::from(self.demand),
            0,
        ]
    }

    fn named(values: &[u64; 4]) -> NetworkUse {
        let [element, point, demand, _] = *values;
        NetworkUse {
            element: element as u16,
            point: point as u16,
            demand: demand as u32,
        }
    }
}
