// The samples of a stroke, copied out of the file that it is read from.
ghost use Rattle.std.specs.Prelude.{◌≡◌, ◌≤◌, length, Ok, Err, MatchResult};
ghost use Rattle.stroke.specs.Contents.{most_samples, pressures};
ghost use Rattle.writing.specs.Lending.{held};
ghost use Rattle.stroke.specs.Reading.{contents, decode};
ghost use Rattle.comparison.specs.Copied.{copied, copied_pressure};

use arrayvec::ArrayVec;
use stroke::{FileFault, MOST_SAMPLES, Stroke};
use writing::Lent;

// Two lists, as a stroke is lent. `few`, below, is what each push into the fixed room owes.
#[derive(Drop)]
pub(crate) struct Samples {
    pub(crate) path: ArrayVec<(i16, i16), MOST_SAMPLES>,
    pressure: Option<ArrayVec<u16, MOST_SAMPLES>>,
}

fn path_of(stroke: &Stroke<'_>) -> ArrayVec<(i16, i16), MOST_SAMPLES>
    requires few { length (contents stroke.now).path ≤ most_samples }
    ensures answer { result.items ≡ (contents stroke.now).path }
{
    let mut path = ArrayVec::new();
    for i in 0..stroke.len() {
        if let Some(sample) = stroke.path(i) {
            path.push(sample);
        }
    }
    path
}

// A loop of its own: at a type parameter a push owes that the ArrayVec fits in memory, which is not proved.
fn pressure_of(stroke: &Stroke<'_>) -> Option<ArrayVec<u16, MOST_SAMPLES>>
    requires few { length (pressures (contents stroke.now)) ≤ most_samples }
    ensures answer { copied_pressure result ≡ (contents stroke.now).pressure }
{
    if !stroke.has_pressure() {
        return None;
    }
    let mut pressures = ArrayVec::new();
    for i in 0..stroke.len() {
        if let Some(pressure) = stroke.pressure(i) {
            pressures.push(pressure);
        }
    }
    Some(pressures)
}

impl Samples {
    // Those of the stroke that is read in a file.
    pub(crate) fn read(file: &[u8]) -> Result<Samples, FileFault>
        ensures answer { MatchResult result (λ s. decode file.now ≡ Ok (copied s)) (λ e. decode file.now ≡ Err e) }
    {
        let stroke = stroke::read(file)?;
        Ok(Samples {
            path: path_of(&stroke),
            pressure: pressure_of(&stroke),
        })
    }

    pub(crate) fn lent(&self) -> Lent<'_>
        ensures answer { held result ≡ copied self.now }
    {
        Lent {
            path: self.path.as_slice(),
            pressure: self.pressure.as_ref().map(|pressures| pressures.as_slice()),
        }
    }
}
