// A yearly charge in twelve monthly instalments.
ghost use Rattle.std.specs.Prelude.{◌≡◌, ◌+◌, ◌/◌, ◌≤◌, sum_by};
ghost use Rattle.std.specs.Option.{SomeIff};
ghost use Rattle.money.specs.Instalments.{Payable, instalment_of, months};

// The largest yearly charge, in cents: more than any charge of a page comes to.
pub const MAX_CHARGE: u64 = 2_000_000_000_000;

// The instalment of a month, 1 for July to 12 for June. The twelve add up to the charge, and none is larger than a
// twelfth by more than a cent.
#[tactic(auto, using(crate::proofs::Twelfths::twelve, crate::proofs::Twelfths::even))]
pub fn instalment(charge: u64, month: u8) -> Option<u64>
    ensures value { SomeIff result (Payable charge month) (instalment_of charge month) }
    ensures twelve { sum_by (instalment_of charge) months ≡ charge }
    ensures even { instalment_of charge month ≤ charge / 12 + 1 }
{
    if charge > MAX_CHARGE || !(1..=12).contains(&month) {
        return None;
    }
    let due_by = |month: u8| charge * u64::from(month) / 12;
    Some(due_by(month) - due_by(month - 1))
}
