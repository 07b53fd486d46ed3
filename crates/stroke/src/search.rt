// The search for the first field that is beyond its limits.
ghost use Rattle.std.specs.Prelude.{◌≡◌, length};
ghost use Rattle.stroke.specs.Contents.{Contents, sample, first_beyond};

use crate::fields::{Field, field_beyond};

// A stroke by its samples, whatever memory they lie in.
pub trait Sampled {
    // What it holds.
    ghost holds: { Self → Contents };

    // How many samples there are.
    fn count(&self) -> usize
        ensures { result ≡ length (holds self.now).path };

    // x, y and the pressure of sample `i`, if there is such a sample. A pressure that is not there is 0, which is in its limits.
    fn sample(&self, i: usize) -> Option<(i16, i16, u16)>
        ensures { result ≡ sample (holds self.now) i };

    // The first field of all that is beyond its limits: its sample, and which of its fields.
    final fn first_beyond(&self) -> Option<(usize, Field)>
        ensures { result ≡ first_beyond (holds self.now) }
    {
        (0..self.count()).find_map(|i| {
            let (x, y, pressure) = self.sample(i)?;
            Some((i, field_beyond(x, y, pressure)?))
        })
    }
}
