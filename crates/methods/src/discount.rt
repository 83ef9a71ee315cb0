// A method over another, which lowers each amount by a figure that is agreed for its place.
ghost use Rattle.std.specs.Prelude.{◌≡◌, ◌-◌, replicate};
ghost use Rattle.std.proofs.Common.{◌∙◌, arith, rules};
ghost use Rattle.std.specs.Result.{result_err};
ghost use Rattle.methods.specs.Lowered.{lowered, agree_refusal, agreed};
ghost use Rattle.methods.specs.Lowering.{lowered-length, lowered-sum};

use crate::method::{MAX_POOL, Method};
use bits::refusal::Refusal;
use std::array;

// The largest figure that is agreed, in cents.
pub const MAX_FIGURE: u64 = MAX_POOL;

#[derive(Drop)]
pub struct Discount<M> {
    method: M,
    // By place; an array, since nothing is taken from the heap.
    figures: [u64; 64],
}

impl<M: Method> Discount<M> {
    // A discount that lowers nothing yet.
    pub fn new(method: M) -> Discount<M>
        ensures over { result.method ≡ method }
        ensures fresh { result.figures ≡ replicate 64 0 }
    {
        Discount {
            method,
            figures: [0; 64],
        }
    }

    // Agrees the figure by which the amount at a place is lowered, in the place of an earlier one.
    pub fn agree(&mut self, place: usize, figure: u64) -> Result<(), Refusal>
        ensures refused { result_err result ≡ agree_refusal (M.points self.old.method) place figure }
        ensures figures { self.new.figures ≡ agreed (M.points self.old.method) place figure self.old.figures }
        ensures method { self.new.method ≡ self.old.method }
    {
        if figure > MAX_FIGURE || place >= self.method.points() {
            return Err(Refusal::ArgumentOutOfRange);
        }
        self.figures[place] = figure;
        Ok(())
    }
}

// An amount less a figure, and never below zero.
fn lower(amount: u64, figure: u64) -> u64
    ensures { result ≡ amount - figure }
{
    amount.saturating_sub(figure)
}

impl<M: Method> Method for Discount<M> {
    ghost points = { λ d. M.Method.points d.method };

    ghost elements = { λ d. M.Method.elements d.method };

    ghost amounts = { λ d pool. lowered (M.Method.amounts d.method pool) d.figures };

    ghost parts = { λ d pool. M.Method.parts d.method pool };

    ghost some = { Prim.search rules };

    ghost few = { Prim.search rules };

    ghost allotted = { λ d pool. lowered-length (M.Method.amounts d.method pool) d.figures ∙ M.Method.allotted d.method pool };

    ghost parted = { Prim.search rules };

    ghost within = { λ d pool small. omega (arith, lowered-sum (M.Method.amounts d.method pool) d.figures, M.Method.within d.method pool small) };

    ghost bounded = { Prim.search rules };

    fn points(&self) -> usize {
        self.method.points()
    }

    fn elements(&self) -> usize {
        self.method.elements()
    }

    #[tactic(auto, using(crate::specs::Lowering::lowered_at))]
    fn amount(&self, pool: u64, place: usize) -> Result<u64, Refusal> {
        let amount = self.method.amount(pool, place)?;
        Ok(lower(amount, self.figures[place]))
    }

    fn part(&self, pool: u64, place: usize) -> Result<u64, Refusal> {
        self.method.part(pool, place)
    }

    fn amounts(&self, pool: u64) -> Result<[u64; 64], Refusal> {
        let amounts = self.method.amounts(pool)?;
        Ok(array::from_fn(|place| lower(amounts[place], self.figures[place])))
    }
}
