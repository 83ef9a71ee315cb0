// Worked cases, as one theorem: the clauses cite the definitions that the contracts of the code cite.
ghost use Rattle.std.specs.Prelude.{◌≡◌, [], ◌∷◌, map};
ghost use Rattle.money.specs.Instalments.{instalment_of};
ghost use Rattle.money.specs.Postage.{charge_of, price_of, remainder_of};
ghost use Rattle.money.specs.Sharing.{shares_of};

// 100 cents over three equal weights; 10 cents over 1 and 2 MWh, with the price, both charges and the remainder; and a
// charge of 100 cents in months 1, 2, 3 and 12.
pub fn worked_cases()
    ensures thirds { shares_of 100 (1 ∷ 1 ∷ 1 ∷ []) ≡ 33 ∷ 33 ∷ 34 ∷ [] }
    ensures stamp { (price_of 10 (1 ∷ 2 ∷ []) ≡ 3333) × (map (charge_of 3333) (1 ∷ 2 ∷ []) ≡ 3 ∷ 6 ∷ []) × (remainder_of 10 (1 ∷ 2 ∷ []) ≡ 1) }
    ensures months { map (instalment_of 100) (1 ∷ 2 ∷ 3 ∷ 12 ∷ []) ≡ 8 ∷ 8 ∷ 9 ∷ 9 ∷ [] }
{}
