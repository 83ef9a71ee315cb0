// The record of an element, 9 bytes.
#![tactic(auto, using(bits::proofs::Trips::stands_same, crate::specs::Laws::element_lawful), unfolding(crate::specs::Elements::element_form))]

ghost use Rattle.records.specs.Elements.{element_form};
ghost use Rattle.records.specs.Laws.{element_lawful, element_sized};

use bits::field::Field;
use bits::layout::Layout;
use bits::row::Row;

#[derive(Clone, Copy, Debug, PartialEq, Eq)]
pub struct Element {
    pub cost: u32,
    pub rating: u32,
    pub peak: u32,
}

impl Row<3, 9> for Element {
    ghost form = { element_form };

    ghost sized = { element_sized };

    ghost lawful = { element_lawful };

    fn layout(_values: &[u64; 3]) -> Layout<3> {
        Layout {
            fields: [
                Field::plain(24, 0, 10_000_000),
                Field::plain(24, 1, 10_000_000),
                Field::plain(24, 0, 10_000_000),
            ],
        }
    }

    fn values(&self) -> [u64; 3] {
        [
            u64::from(self.cost),
            u64::from(self.rating),
            u64::from(self.peak),
        ]
    }

    fn named(values: &[u64; 3]) -> Element {
        let [cost, rating, peak] = *values;
        Element {
            cost: cost as u32,
            rating: rating as u32,
            peak: peak as u32,
        }
    }
}
