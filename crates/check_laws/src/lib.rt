// The law of the check: it stands in the contract of a function, so that the check asks for its proof.
#![tactic(auto)]

ghost use Rattle.check_rules.specs.Check.{CheckedForm};
ghost use Rattle.check_rules.specs.CheckLaws.{CheckLaw, SheetLaw};

// A method is checked exactly when it cannot go wrong: it has an instruction and at most 256 cells, every operand and every
// handler suits it, and one depth for each location fits all its instructions and comes from below. A sheet is checked exactly
// when it has a method and each of them is.
pub fn check_law_stands()
    ensures methods { CheckLaw }
    ensures sheets { (s : CheckedForm) → SheetLaw s }
{}
