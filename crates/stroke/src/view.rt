// A stroke that lies in lent bytes.
ghost use Rattle.std.specs.Prelude.{◌≡◌, ◌≤◌, length, is_some, MatchOption};
ghost use Rattle.std.specs.List.{slice_get};
ghost use Rattle.stroke.specs.Contents.{pressures};
ghost use Rattle.stroke.specs.Layout.{sample_size};
ghost use Rattle.stroke.specs.Reading.{contents, Begins};

use crate::fields::FIELD;
use crate::search::Sampled;

// Holds no count of its own: any bytes are a stroke of as many whole samples as they have.
// Whether they have pressures is a flag of the format, which says how wide a sample is: an enum would say no more.
#[derive(Clone, Copy)]
pub struct Stroke<'a> {
    pub(crate) samples: &'a [u8],
    pub(crate) pressed: bool,
}

// How many bytes a sample has: x and y, and a pressure if there is any.
pub fn sample_size(pressed: bool) -> usize
    ensures { result ≡ sample_size pressed }
{
    if pressed { 3 * FIELD } else { 2 * FIELD }
}

impl Stroke<'_> {
    #[tactic(auto, using(crate::proofs::Samples::length_path))]
    pub fn len(&self) -> usize
        ensures { result ≡ length (contents self.now).path }
    {
        self.samples.len() / sample_size(self.pressed)
    }

    pub fn has_pressure(&self) -> bool
        ensures { result ≡ is_some (contents self.now).pressure }
    {
        self.pressed
    }

    // Where sample `i` begins, if there is such a sample. A plain `if`: `then` would only put the product into a closure.
    #[tactic(auto, using(crate::proofs::Samples::length_path, crate::proofs::Samples::sample_inside))]
    fn offset(&self, i: usize) -> Option<usize>
        ensures { MatchOption result (length (contents self.now).path ≤ i) (Begins self.now i) }
    {
        if i < self.len() {
            Some(i * sample_size(self.pressed))
        } else {
            None
        }
    }

    // x and y of sample `i`, if there is such a sample.
    #[tactic(auto, using(crate::proofs::Indexed::nth_map_counting))]
    pub fn path(&self, i: usize) -> Option<(i16, i16)>
        ensures { result ≡ slice_get (contents self.now).path i }
    {
        let at = self.offset(i)?;
        let s = self.samples;
        let x = i16::from_le_bytes([s[at], s[at + 1]]);
        let y = i16::from_le_bytes([s[at + FIELD], s[at + FIELD + 1]]);
        Some((x, y))
    }

    // The pressure of sample `i`, if there is such a sample and it has one.
    #[tactic(auto, using(crate::proofs::Samples::pressure_there))]
    pub fn pressure(&self, i: usize) -> Option<u16>
        ensures { result ≡ slice_get (pressures (contents self.now)) i }
    {
        if !self.pressed {
            return None;
        }
        let at = self.offset(i)? + 2 * FIELD;
        Some(u16::from_le_bytes([self.samples[at], self.samples[at + 1]]))
    }
}

impl Sampled for Stroke<'_> {
    ghost holds = { contents };

    fn count(&self) -> usize {
        self.len()
    }

    fn sample(&self, i: usize) -> Option<(i16, i16, u16)> {
        let (x, y) = self.path(i)?;
        Some((x, y, self.pressure(i).unwrap_or(0)))
    }
}
