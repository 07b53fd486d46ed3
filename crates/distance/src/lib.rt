// How far the fixed tones can be from the sums before rounding.
#![tactic(auto)]

ghost use Rattle.distance.specs.Distance.{TonesAreNearSums};

// The bound that both parts of every tone keep, under every plan of the stroke's length.
pub fn tones_are_near_sums()
    ensures answer { TonesAreNearSums }
{}
