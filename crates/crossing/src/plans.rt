// The standard plan of a length.
ghost use Rattle.std.specs.Prelude.{◌≡◌, length};
ghost use Rattle.std.specs.Result.{result_map_both};
ghost use Rattle.crossing.specs.Answers.{in_front};
ghost use Rattle.crossing.specs.Plans.{standard_in, Plans};

use crate::status::{Status, answered};
use plan::Plan;
use refusal::Fault;

fn standard_into(n: usize, radices: &mut [u8]) -> Result<usize, Fault>
    ensures answer { result ≡ result_map_both length (λ f. f) (standard_in (length radices.old) n) }
    ensures after { radices.new ≡ in_front (standard_in (length radices.old) n) radices.old }
{
    let plan = Plan::standard(n)?;
    let made = plan.radices();
    let count = made.len();
    if radices.len() < count {
        return Err(Fault::Length);
    }
    radices[0..count].copy_from_slice(made);
    Ok(count)
}

// The radices of the standard plan of `n` at the front of `radices`, and how many they are.
pub fn standard_plan(n: usize, radices: &mut [u8], count: &mut usize) -> Status
    ensures made { Plans n count.old radices.old result count.new radices.new }
{
    answered(standard_into(n, radices), count)
}
