// Worked cases, as one theorem: its clauses cite the definitions that the contracts of the code cite.
#![tactic(auto)]

ghost use Rattle.std.specs.Prelude.{◌≡◌, [], ◌∷◌, map, pos, negsuc};
ghost use Rattle.locational.specs.Prices.{lower_bound, upper_bound, point_price};
ghost use Rattle.money.specs.Instalments.{instalment_of};
ghost use Rattle.money.specs.Postage.{charge_of, price_of, remainder_of};
ghost use Rattle.money.specs.Sharing.{shares_of};
ghost use Rattle.pricing.specs.Pricing.{n1_of};
ghost use Rattle.pricing.specs.Revenues.{l1_of, rest_of};
ghost use Rattle.pricing.specs.Signs.{not_below_zero};
ghost use Rattle.standard.specs.Reduced.{by_peak};

// - thirds: 100 cents over three equal weights.
// - residue: L0 of 225,000 less a locational residue of 300,000 leaves no locational revenue.
// - credit: N0 of 225,000 less another residue of 300,000, and nothing else, is an N1 of −75,000.
// - stamp: 10 cents over 1 and 2 MWh, with the price, both charges and the remainder.
// - moved: after a price of 150,000 and at a ratio of 10,000, a price of 153,000 stays and one of 153,001 is moved there.
// - narrow: after a price of 1 and at a ratio of 10,500, both bounds are 1.
// - months: a charge of 100 cents in months 1, 2, 3 and 12.
// - reduced: a part of 225,000 at a peak of 1,500 of 2,000.
#[tactic(auto, unfolding(money::specs::Sharing::shares_of))]
pub fn worked_cases()
    ensures thirds { shares_of 100 (1 ∷ 1 ∷ 1 ∷ []) ≡ 33 ∷ 33 ∷ 34 ∷ [] }
    ensures residue { not_below_zero (l1_of 225000 (pos 300000)) ≡ 0 }
    ensures credit { n1_of (rest_of 225000 (pos 0) (pos 300000)) (pos 0) 0 0 ≡ negsuc 74999 }
    ensures stamp { (price_of 10 (1 ∷ 2 ∷ []) ≡ 3333) × (map (charge_of 3333) (1 ∷ 2 ∷ []) ≡ 3 ∷ 6 ∷ []) × (remainder_of 10 (1 ∷ 2 ∷ []) ≡ 1) }
    ensures moved { (point_price 153000 1000 150000 150000 10000 ≡ 153000) × (point_price 153001 1000 150000 150000 10000 ≡ 153000) }
    ensures narrow { (lower_bound 1 10500 ≡ 1) × (upper_bound 1 10500 ≡ 1) }
    ensures months { map (instalment_of 100) (1 ∷ 2 ∷ 3 ∷ 12 ∷ []) ≡ 8 ∷ 8 ∷ 9 ∷ 9 ∷ [] }
    ensures reduced { by_peak 225000 (record { cost = 500; rating = 2000; peak = 1500 }) ≡ 168750 }
{}
