// A method that allots a half and a quarter of the pool to two points; the whole pool is the part of its one element.
ghost use Rattle.std.specs.Prelude.{◌/◌, [], ◌∷◌};
ghost use Rattle.std.proofs.Common.{rules};

use bits::refusal::Refusal;
use methods::method::{MAX_POOL, Method};

#[derive(Clone, Copy)]
pub struct Quarters;

impl Method for Quarters {
    ghost points = { λ _. 2 };

    ghost elements = { λ _. 1 };

    ghost amounts = { λ _ pool. pool / 2 ∷ pool / 4 ∷ [] };

    ghost parts = { λ _ pool. pool ∷ [] };

    ghost some = { Prim.search rules };

    ghost few = { Prim.search rules };

    ghost allotted = { Prim.search rules };

    ghost parted = { Prim.search rules };

    ghost within = { Prim.search rules };

    ghost bounded = { Prim.search rules };

    fn points(&self) -> usize {
        2
    }

    fn elements(&self) -> usize {
        1
    }

    fn amount(&self, pool: u64, place: usize) -> Result<u64, Refusal> {
        if pool > MAX_POOL {
            return Err(Refusal::ArgumentOutOfRange);
        }
        match place {
            0 => Ok(pool / 2),
            1 => Ok(pool / 4),
            _ => Err(Refusal::ArgumentOutOfRange),
        }
    }

    fn part(&self, pool: u64, place: usize) -> Result<u64, Refusal> {
        if pool > MAX_POOL || place > 0 {
            return Err(Refusal::ArgumentOutOfRange);
        }
        Ok(pool)
    }
}
