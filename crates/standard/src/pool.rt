// An amount that can be shared.
ghost use Rattle.std.specs.Prelude.{◌≡◌, ◌≤◌, Some, None, cond, IfOk, nat_le};
ghost use Rattle.std.specs.Result.{result_err};
ghost use Rattle.bits.specs.declared.refusal.Refusal.TheVariants.{ArgumentOutOfRange};

use bits::refusal::Refusal;
use methods::method::MAX_POOL;

#[derive(Clone, Copy)]
pub(crate) struct Pool {
    pub(crate) cents: u64,
    ghost within: { cents ≤ 100000000000 },
}

impl Pool {
    // The pool of so many cents, unless they are too many.
    pub(crate) fn new(cents: u64) -> Result<Pool, Refusal>
        ensures refused { result_err result ≡ cond (nat_le cents 100000000000) None (Some ArgumentOutOfRange) }
        ensures value { IfOk result (λ p. p.cents ≡ cents) }
    {
        if cents > MAX_POOL {
            return Err(Refusal::ArgumentOutOfRange);
        }
        Ok(Pool { cents })
    }
}
