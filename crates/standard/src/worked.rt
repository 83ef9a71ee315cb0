// Worked cases and what tells the methods apart, as theorems: the clauses cite the definitions that the contracts of the
// code cite.
ghost use Rattle.std.specs.Prelude.{◌≡◌, ℕ, [], ◌∷◌};
ghost use Rattle.agreement.specs.Data.{YearData};
ghost use Rattle.methods.specs.Lowered.{lowered};
ghost use Rattle.money.specs.Sharing.{shares_of};
ghost use Rattle.standard.specs.Allotted.{costs, parts_in, parts_of, amounts_of};
ghost use Rattle.standard.specs.Reduced.{unreduced, by_peak};
ghost use Rattle.standard.specs.Worked.{worked_elements, worked_uses, three_elements, their_uses};

// The parts of the standard method are the shares of the pool over the costs.
pub fn standard_parts()
    ensures { (d : YearData) (pool : ℕ) → parts_in unreduced d pool ≡ shares_of pool (costs d.elements) }
{}

// A pool of 225,000 cents: under the standard method, under the modified one, and under a discount of 0, 10,000 and
// 80,000 over the standard method.
pub fn worked_year()
    ensures standard { amounts_of 3 worked_uses (parts_of unreduced worked_elements 225000) ≡ 0 ∷ 150000 ∷ 75000 ∷ [] }
    ensures parts { parts_of by_peak worked_elements 225000 ≡ 168750 ∷ [] }
    ensures modified { amounts_of 3 worked_uses (parts_of by_peak worked_elements 225000) ≡ 0 ∷ 112500 ∷ 56250 ∷ [] }
    ensures discount { lowered (0 ∷ 150000 ∷ 75000 ∷ []) (0 ∷ 10000 ∷ 80000 ∷ []) ≡ 0 ∷ 140000 ∷ 0 ∷ [] }
{}

// A pool of 100 cents over three elements: the part of the unused one stays unallotted, and only a peak below the rating
// reduces a part.
pub fn unused_element()
    ensures parts { parts_of unreduced three_elements 100 ≡ 33 ∷ 33 ∷ 34 ∷ [] }
    ensures amounts { amounts_of 3 their_uses (parts_of unreduced three_elements 100) ≡ 11 ∷ 34 ∷ 22 ∷ [] }
    ensures reduced { parts_of by_peak three_elements 100 ≡ 16 ∷ 33 ∷ 34 ∷ [] }
    ensures modified { amounts_of 3 their_uses (parts_of by_peak three_elements 100) ≡ 5 ∷ 34 ∷ 11 ∷ [] }
{}
