// Strokes in lent lists of samples and pressures, and their files.
ghost use Rattle.std.specs.Prelude.{◌≡◌, ◌≤◌, length};
ghost use Rattle.stroke.specs.Contents.{most_samples};
ghost use Rattle.writing.specs.Lending.{held};
ghost use Rattle.writing.specs.Written.{after_writing};
ghost use Rattle.handover.specs.Lending.{kept, lent_stroke, writing, Writes};

use crate::reading::Counts;
use arrayvec::ArrayVec;
use crossing::{Status, answered};
use refusal::Fault;
use stroke::MOST_SAMPLES;
use writing::{Lent, LentFault};

impl From<Counts> for (i16, i16) {
    ghost from_gives = { λ c pair. pair ≡ (c.x, c.y) };

    fn from(counts: Counts) -> (i16, i16) {
        (counts.x, counts.y)
    }
}

// A stroke in lent lists, whose samples are copied as tuples, since no tuple crosses. `few` is what each push owes.
#[derive(Drop)]
pub(crate) struct Held<'a> {
    path: ArrayVec<(i16, i16), MOST_SAMPLES>,
    // Empty where there are none: C has no Option.
    pressure: &'a [u16],
}

impl<'a> Held<'a> {
    pub(crate) fn of(path: &[Counts], pressure: &'a [u16]) -> Held<'a>
        requires few { length path.now ≤ most_samples }
        ensures answer { kept result ≡ lent_stroke path.now pressure.now }
    {
        // A loop of its own: at a type parameter a push owes that the ArrayVec fits in memory, which is not proved.
        let mut tuples = ArrayVec::new();
        for sample in path {
            tuples.push((*sample).into());
        }
        Held {
            path: tuples,
            pressure,
        }
    }

    pub(crate) fn lent(&self) -> Lent<'_>
        ensures answer { held result ≡ kept self.now }
    {
        Lent {
            path: self.path.as_slice(),
            pressure: (!self.pressure.is_empty()).then_some(self.pressure),
        }
    }
}

fn write_into(path: &[Counts], pressure: &[u16], out: &mut [u8]) -> Result<usize, Fault>
    ensures answer { result ≡ writing (lent_stroke path.now pressure.now) (length out.old) }
    ensures after { out.new ≡ after_writing (lent_stroke path.now pressure.now) out.old }
{
    if path.len() > MOST_SAMPLES {
        return Err(Fault::Lent(LentFault::Length));
    }
    let len = writing::write(&Held::of(path, pressure).lent(), out)?;
    Ok(len)
}

pub fn write(path: &[Counts], pressure: &[u16], out: &mut [u8], length: &mut usize) -> Status
    ensures made { Writes path.now pressure.now length.old out.old result length.new out.new }
{
    answered(write_into(path, pressure, out), length)
}
