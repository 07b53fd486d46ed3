// A plan that an arithmetic can be taken by.
ghost use Rattle.std.specs.Prelude.{◌≡◌, ◌%◌, Ok};
ghost use Rattle.std.specs.Result.{result_and, result_map_both};
ghost use Rattle.plan.specs.Radices.{size};
ghost use Rattle.plan.specs.Planned.{radices_of};
ghost use Rattle.spectrum.specs.Granted.{plans, divided};

use crate::tested::divides;
use arithmetic::Arithmetic;
use plan::Plan;
use refusal::Fault;
use std::marker::PhantomData;

// A plan whose length divides the span.
#[derive(Drop)]
pub(crate) struct Suited<X: Arithmetic> {
    pub(crate) plan: Plan,
    of: PhantomData<X>,
    ghost divides: { X.Arithmetic.meaning.span % size (radices_of plan) ≡ 0 },
}

impl<X: Arithmetic> Suited<X> {
    // The plan of these radices, where the span suits its length.
    pub(crate) fn new(radices: &[u8]) -> Result<Suited<X>, Fault>
        ensures answer { result_map_both (λ suited. radices_of suited.plan) (λ f. f) result ≡ result_and (plans radices.now) (result_and (divided X.Arithmetic.meaning.span (size radices.now)) (Ok radices.now)) }
    {
        let plan = Plan::new(radices)?;
        divides::<X>(plan.len())?;
        Ok(Suited {
            plan,
            of: PhantomData,
        })
    }
}
