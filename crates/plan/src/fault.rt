// Why a length or a list of radices is no plan.
ghost use Rattle.std.specs.Prelude.{◌≡◌};
ghost use Rattle.plan.specs.Faults.{fault_number, fault_place};

#[derive(Clone, Copy, Debug, PartialEq, Eq)]
pub enum PlanFault {
    // More radices than a plan has.
    TooMany,
    // The radix at this index is out of its limits.
    Radix(usize),
    // At this index the product passes the largest length.
    Product(usize),
    // This length has no standard plan.
    Length(usize),
}

impl PlanFault {
    // The number by which the refusal is known everywhere.
    pub fn number(self) -> u8
        ensures answer { result ≡ fault_number self }
    {
        match self {
            PlanFault::TooMany => 21,
            PlanFault::Radix(_) => 22,
            PlanFault::Product(_) => 23,
            PlanFault::Length(_) => 25,
        }
    }

    // The index of the radix, or the length that was asked for.
    pub fn place(self) -> usize
        ensures answer { result ≡ fault_place self }
    {
        match self {
            PlanFault::TooMany => 0,
            PlanFault::Radix(index) | PlanFault::Product(index) => index,
            PlanFault::Length(n) => n,
        }
    }
}
