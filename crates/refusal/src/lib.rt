// Why a call is refused, and whose doing it is.
#![tactic(auto)]

ghost use Rattle.std.specs.Prelude.{◌≡◌, Some};
ghost use Rattle.refusal.specs.declared.Fault.TheVariants.{File as OfFile, Plan as OfPlan, Lent as OfLent};
ghost use Rattle.refusal.specs.Faults.{number_of, layer_of, place_of, layer_number};
ghost use Rattle.refusal.specs.Printed.{printed_fault};

use plan::PlanFault;
use std::fmt;
use stroke::FileFault;
use writing::LentFault;

#[derive(Clone, Copy, Debug, PartialEq, Eq)]
pub enum Fault {
    File(FileFault),
    Plan(PlanFault),
    Lent(LentFault),
    // This length does not divide the arithmetic's span.
    Span(usize),
    // The arithmetic is not of the kind that the call needs.
    Unfit,
    // A buffer is not of the stated length.
    Length,
    // The work buffer is too short.
    Work,
    // A sheet has no sample or tone of this number.
    Place(usize),
    // A run has no stage left to take.
    NoStage,
    // A run has stages left, where it was to be finished.
    StagesLeft,
}

// Who can mend a fault: whoever wrote the file, chose the length, or lent the memory and calls on it.
#[derive(Clone, Copy, Debug, PartialEq, Eq)]
pub enum Layer {
    File = 1,
    Length = 2,
    Memory = 3,
}

// By hand, each with `from_gives`, since clauses name the fault that `?` makes of these.
impl From<FileFault> for Fault {
    ghost from_gives = { λ f r. r ≡ OfFile f };

    fn from(f: FileFault) -> Fault {
        Fault::File(f)
    }
}

impl From<PlanFault> for Fault {
    ghost from_gives = { λ f r. r ≡ OfPlan f };

    fn from(f: PlanFault) -> Fault {
        Fault::Plan(f)
    }
}

impl From<LentFault> for Fault {
    ghost from_gives = { λ f r. r ≡ OfLent f };

    fn from(f: LentFault) -> Fault {
        Fault::Lent(f)
    }
}

impl Fault {
    pub fn number(self) -> u8
        ensures answer { result ≡ number_of self }
    {
        match self {
            Fault::File(f) => f.number(),
            Fault::Plan(f) => f.number(),
            Fault::Lent(f) => f.number(),
            Fault::Span(_) => 24,
            Fault::Unfit => 26,
            Fault::Length => 31,
            Fault::Work => 32,
            Fault::Place(_) => 41,
            Fault::NoStage => 51,
            Fault::StagesLeft => 52,
        }
    }

    pub fn layer(self) -> Layer
        ensures answer { result ≡ layer_of self }
    {
        match self {
            Fault::File(_) => Layer::File,
            Fault::Plan(_) => Layer::Length,
            Fault::Lent(_)
            | Fault::Span(_)
            | Fault::Unfit
            | Fault::Length
            | Fault::Work
            | Fault::Place(_)
            | Fault::NoStage
            | Fault::StagesLeft => Layer::Memory,
        }
    }

    pub fn place(self) -> usize
        ensures answer { result ≡ place_of self }
    {
        match self {
            Fault::File(f) => f.place(),
            Fault::Plan(f) => f.place(),
            Fault::Lent(f) => f.place(),
            Fault::Span(n) | Fault::Place(n) => n,
            Fault::Unfit | Fault::Length | Fault::Work | Fault::NoStage | Fault::StagesLeft => 0,
        }
    }
}

impl Layer {
    pub fn number(self) -> u8
        ensures answer { result ≡ layer_number self }
    {
        self as u8
    }
}

impl fmt::Display for Fault {
    ghost output = { λ fault. Some (printed_fault fault) };

    fn fmt<W: fmt::Write>(&self, f: &mut fmt::Formatter<W>) -> fmt::Result {
        let number = self.number();
        let layer = self.layer().number();
        let place = self.place();
        write!(f, "{number} {layer} {place}")
    }
}
