// Theorems on the definitions that the contracts of this crate cite, each on a function that does nothing else.
ghost use Rattle.plan.specs.ByPlaces.{DealingStands};
ghost use Rattle.plan.specs.Judged.{PlansStand};
ghost use Rattle.plan.specs.Cases.{WorkedCases};
ghost use Rattle.plan.specs.Lengths.{StandardsStand};

// Dealing by the recursion is dealing by places, each sample to its own.
pub fn dealing_stands<X>()
    ensures { DealingStands X }
{}

// Plans are granted and refused as their limits say.
pub fn plans_stand()
    ensures { PlansStand }
{}

// Cases worked by hand.
pub fn cases_stand()
    ensures { WorkedCases }
{}

// A standard plan takes each radix in turn, and only lengths without one are refused.
pub fn standards_stand()
    ensures { StandardsStand }
{}
