// Why a file is refused.
ghost use Rattle.std.specs.Prelude.{◌≡◌};
ghost use Rattle.stroke.specs.Faults.{number_of, place_of};

// The offset in a case is that of the offending byte or field in the file.
#[derive(Clone, Copy, Debug, PartialEq, Eq)]
pub enum FileFault {
    Size,
    Version(usize),
    Flag(usize),
    Count,
    Distance,
    Start,
    Field(usize),
}

impl FileFault {
    pub fn number(self) -> u8
        ensures { result ≡ number_of self }
    {
        match self {
            FileFault::Size => 11,
            FileFault::Version(_) | FileFault::Flag(_) => 12,
            FileFault::Count => 13,
            FileFault::Distance => 14,
            FileFault::Start => 15,
            FileFault::Field(_) => 16,
        }
    }

    pub fn place(self) -> usize
        ensures { result ≡ place_of self }
    {
        match self {
            FileFault::Version(at) | FileFault::Flag(at) | FileFault::Field(at) => at,
            FileFault::Size | FileFault::Count | FileFault::Distance | FileFault::Start => 0,
        }
    }
}
