// What an amount is shared by: elements weigh what they cost, and uses weigh what they draw.
ghost use Rattle.std.specs.Prelude.{◌≡◌, ℕ};

use records::element::Element;
use records::network_use::NetworkUse;

pub(crate) trait Weighs {
    ghost weight: { Self → ℕ };

    fn weight(&self) -> u64
        ensures { result ≡ weight self.now };
}

impl Weighs for Element {
    ghost weight = { λ e. e.cost };

    fn weight(&self) -> u64 {
        self.cost.into()
    }
}

impl Weighs for NetworkUse {
    ghost weight = { λ u. u.demand };

    fn weight(&self) -> u64 {
        self.demand.into()
    }
}
