// A plan from a lent list of radices, or the refusal of the list.
ghost use Rattle.std.specs.Prelude.{◌≡◌, ◌-◌, ◌≤◌, ◌++◌, length, replicate};
ghost use Rattle.plan.specs.Radices.{most_radices};
ghost use Rattle.plan.specs.Planned.{ranged as ranged_from, product as product_from, planned, as_list};

use crate::fault::PlanFault;
use crate::limits::{LARGEST_RADIX, LARGEST_SIZE, LEAST_RADIX, MOST_RADICES};
use crate::validated::Plan;

// Refuses the first radix that is out of its limits.
fn ranged(radices: &[u8]) -> Result<(), PlanFault>
    ensures answer { result ≡ ranged_from 0 radices.now }
{
    for (i, r) in radices.iter().enumerate() {
        if !(LEAST_RADIX..=LARGEST_RADIX).contains(r) {
            return Err(PlanFault::Radix(i));
        }
    }
    Ok(())
}

// The product of the radices, or a refusal where it passes the largest length.
fn product(radices: &[u8]) -> Result<usize, PlanFault>
    ensures answer { result ≡ product_from 1 0 radices.now }
{
    let mut len = 1;
    for (i, r) in radices.iter().enumerate() {
        len *= *r as usize;
        if len > LARGEST_SIZE {
            return Err(PlanFault::Product(i));
        }
    }
    Ok(len)
}

// The radices at the front of the room that every plan has, and zeros after them.
fn held(radices: &[u8]) -> [u8; MOST_RADICES]
    requires { length radices.now ≤ most_radices }
    ensures answer { result ≡ radices.now ++ replicate (most_radices - length radices.now) 0 }
{
    let mut room = [0; MOST_RADICES];
    room[..radices.len()].copy_from_slice(radices);
    room
}

impl Plan {
    // The plan with these radices.
    pub fn new(radices: &[u8]) -> Result<Plan, PlanFault>
        ensures answer { as_list result ≡ planned radices.now }
    {
        let count = radices.len();
        if count > MOST_RADICES {
            return Err(PlanFault::TooMany);
        }
        ranged(radices)?;
        let samples = product(radices)?;
        Ok(Plan {
            radices: held(radices),
            count,
            samples,
        })
    }
}
