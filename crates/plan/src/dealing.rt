// What a plan says of itself, and where it deals each sample.
ghost use Rattle.std.specs.Prelude.{◌≡◌, ◌<◌};
ghost use Rattle.plan.specs.Radices.{size, turns, Plan as IsPlan};
ghost use Rattle.plan.specs.Dealing.{place};
ghost use Rattle.plan.specs.Planned.{radices_of};

use crate::validated::Plan;

impl Plan {
    // The radices, which are a plan.
    pub fn radices(&self) -> &[u8]
        ensures answer { result.now ≡ radices_of self.now }
        ensures plan { IsPlan result.now }
    {
        &self.radices[..self.count]
    }

    // How many samples the plan is for.
    pub fn len(&self) -> usize
        ensures answer { result ≡ size (radices_of self.now) }
    {
        self.samples
    }

    // How many turns a transform under the plan makes.
    pub fn turns(&self) -> usize
        ensures answer { result ≡ turns (radices_of self.now) }
    {
        let sum: usize = self.radices().iter().map(|r| usize::from(*r)).sum();
        self.len() * sum
    }

    // Where sample n is dealt to. After the last sample the places begin again, so no n is refused.
    pub fn place(&self, n: usize) -> usize
        ensures answer { result ≡ place (radices_of self.now) n }
        ensures within { result < size (radices_of self.now) }
    {
        // q1 N/r1 + q2 N/(r1 r2) + .. is ((q1 r2 + q2) r3 + q3) .., and the digits of n come in that order.
        let mut left = n;
        let mut at = 0;
        for r in self.radices() {
            let r = *r as usize;
            at = at * r + left % r;
            left /= r;
        }
        at
    }
}
