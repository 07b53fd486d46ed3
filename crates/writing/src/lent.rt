// A stroke in lent lists of counts, and why one is refused.
ghost use Rattle.std.specs.Prelude.{◌≡◌, is_some, slice_index};
ghost use Rattle.std.specs.Option.{option_map};
ghost use Rattle.writing.specs.Lending.{lent_number, lent_place, held, sized, within_limits};

use stroke::{MOST_SAMPLES, Sampled};

// Two lists, since callers, C among them, lend two, and a stroke may have no pressures. Nothing is taken for granted of them.
#[derive(Clone, Copy)]
pub struct Lent<'a> {
    pub path: &'a [(i16, i16)],
    pub pressure: Option<&'a [u16]>,
}

#[derive(Clone, Copy, Debug, PartialEq, Eq)]
pub enum LentFault {
    // No samples or too many, or another number of pressures.
    Length,
    // The sample of this index has a count beyond its limits.
    Count(usize),
    // The output is too short for the file.
    Room,
}

impl LentFault {
    pub fn number(self) -> u8
        ensures { result ≡ lent_number self }
    {
        match self {
            LentFault::Length => 31,
            LentFault::Count(_) => 33,
            LentFault::Room => 34,
        }
    }

    pub fn place(self) -> usize
        ensures { result ≡ lent_place self }
    {
        match self {
            LentFault::Count(i) => i,
            LentFault::Length | LentFault::Room => 0,
        }
    }
}

impl Lent<'_> {
    // Refuses no samples or too many, and another number of pressures.
    pub fn sized(&self) -> Result<(), LentFault>
        ensures answer { result ≡ sized (held self.now) }
    {
        let n = self.path.len();
        if n == 0 || n > MOST_SAMPLES {
            return Err(LentFault::Length);
        }
        match self.pressure {
            Some(us) if us.len() != n => Err(LentFault::Length),
            _ => Ok(()),
        }
    }

    pub fn has_pressure(&self) -> bool
        ensures { result ≡ is_some (held self.now).pressure }
    {
        self.pressure.is_some()
    }

    // The pressure of sample `i`, if the stroke has any: 0 where the list has none for it.
    pub(crate) fn pressure_at(&self, i: usize) -> Option<u16>
        ensures { result ≡ option_map (λ us. slice_index us i) (held self.now).pressure }
    {
        self.pressure.map(|us| us.get(i).copied().unwrap_or(0))
    }

    // Refuses the first sample that has a count beyond its limits.
    pub fn within_limits(&self) -> Result<(), LentFault>
        ensures answer { result ≡ within_limits (held self.now) }
    {
        match self.first_beyond() {
            Some((i, _)) => Err(LentFault::Count(i)),
            None => Ok(()),
        }
    }
}

impl Sampled for Lent<'_> {
    ghost holds = { held };

    fn count(&self) -> usize {
        self.path.len()
    }

    fn sample(&self, i: usize) -> Option<(i16, i16, u16)> {
        let (x, y) = *self.path.get(i)?;
        Some((x, y, self.pressure_at(i).unwrap_or(0)))
    }
}
