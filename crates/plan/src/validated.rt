// A plan that was checked. Its making and its use stand in other files, since their clauses cite it.
ghost use Rattle.std.specs.Prelude.{◌≡◌, ◌≤◌, take};
ghost use Rattle.plan.specs.Radices.{size, most_radices, largest_size, Each};

use crate::limits::MOST_RADICES;

// Clauses see its list as `radices_of`. A model would only rename that, and hide the facts below from other crates.
#[derive(Clone, Copy)]
pub struct Plan {
    // With zeros behind the first `count`: a plan is copied and needs no heap, and no vector of the library is `Copy`.
    pub(crate) radices: [u8; MOST_RADICES],
    pub(crate) count: usize,
    // Their product, which every call on lent memory asks for: kept, so that none multiplies it out again.
    pub(crate) samples: usize,
    ghost few: { count ≤ most_radices },
    ghost each: { Each (take count radices) },
    ghost whole: { samples ≡ size (take count radices) },
    ghost small: { samples ≤ largest_size },
}
