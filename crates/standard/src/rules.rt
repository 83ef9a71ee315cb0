// What becomes of an element's part before it is shared over the uses.
ghost use Rattle.std.specs.Prelude.{◌≡◌, ℕ, ◌≤◌};
ghost use Rattle.records.specs.declared.element.Element.{Element};
ghost use Rattle.standard.specs.Reduced.{unreduced, by_peak};
ghost use Rattle.std.proofs.Common.{rules};
ghost use Rattle.standard.specs.Reducing.{by_peak-le};

use records::element::Element;

pub trait Rule {
    ghost reduced: { Self → ℕ → Element → ℕ };

    fn reduce(&self, part: u64, element: &Element) -> u64
        ensures { result ≡ reduced self.now part element.now };

    ghost less: { (s : Self) (part : ℕ) (e : Element) → reduced s part e ≤ part };
}

// The standard method: every part stays as it is.
#[derive(Clone, Copy)]
pub struct Standard;

impl Rule for Standard {
    ghost reduced = { λ _. unreduced };

    ghost less = { Prim.search rules };

    fn reduce(&self, part: u64, _element: &Element) -> u64 {
        part
    }
}

// The modified method: the part of an element whose peak is below its rating is reduced with the peak.
#[derive(Clone, Copy)]
pub struct Modified;

impl Rule for Modified {
    ghost reduced = { λ _. by_peak };

    ghost less = { λ s part e. by_peak-le part e };

    fn reduce(&self, part: u64, element: &Element) -> u64 {
        if element.peak < element.rating {
            (u128::from(part) * u128::from(element.peak) / u128::from(element.rating)) as u64
        } else {
            part
        }
    }
}
