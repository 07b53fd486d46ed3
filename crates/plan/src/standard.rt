// The standard plan of a length.
ghost use Rattle.std.specs.Prelude.{◌≡◌, ◌*◌, ◌≤◌, [], ◌∷◌, ◌++◌, replicate};
ghost use Rattle.plan.specs.Radices.{size, most_radices, least_radix, largest_radix, largest_size};
ghost use Rattle.plan.specs.Planned.{radices_of, as_list};
ghost use Rattle.plan.specs.Standard.{standard as standard_plan};

use crate::fault::PlanFault;
use crate::limits::{LARGEST_SIZE, MOST_RADICES};
use crate::validated::Plan;

// In the order in which they are tried.
const STANDARD_RADICES: [u8; 5] = [4, 2, 3, 5, 7];

impl Plan {
    // The plan of one sample.
    fn empty() -> Plan
        ensures answer { radices_of result ≡ [] }
        ensures rest { result.radices ≡ replicate most_radices 0 }
    {
        Plan {
            radices: [0; MOST_RADICES],
            count: 0,
            samples: 1,
        }
    }

    // The plan with one more radix at its end.
    fn with(self, radix: u8) -> Plan
        requires radix { (least_radix ≤ radix) × (radix ≤ largest_radix) }
        requires small { size (radices_of self) * radix ≤ largest_size }
        ensures answer { radices_of result ≡ radices_of self ++ radix ∷ [] }
    {
        let mut radices = self.radices;
        radices[self.count] = radix;
        Plan {
            radices,
            count: self.count + 1,
            samples: self.samples * radix as usize,
        }
    }

    // The plan that takes each standard radix in turn while it divides what is left of n.
    pub fn standard(n: usize) -> Result<Plan, PlanFault>
        ensures answer { as_list result ≡ standard_plan n }
    {
        if n == 0 || n > LARGEST_SIZE {
            return Err(PlanFault::Length(n));
        }
        let mut plan = Plan::empty();
        let mut left = n;
        for r in STANDARD_RADICES {
            while left % r as usize == 0 {
                plan = plan.with(r);
                left /= r as usize;
            }
        }
        if left > 1 {
            return Err(PlanFault::Length(n));
        }
        Ok(plan)
    }
}
