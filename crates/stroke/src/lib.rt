// Stroke files: bytes are read to the stroke that lies in them, or refused.
#![tactic(auto)]

ghost use Rattle.std.specs.Prelude.{◌≡◌, IfOk, Ok, Err, MatchResult};
ghost use Rattle.stroke.specs.Format.{Granted, ReadsBack, FirstNamed};
ghost use Rattle.stroke.specs.Reading.{contents, decode};
ghost use Rattle.stroke.specs.Writing.{FileOf};

mod fault;
mod fields;
mod search;
mod view;

pub use fault::FileFault;
pub use fields::{Field, field_beyond};
pub use search::Sampled;
pub use view::{Stroke, sample_size};

// The most bytes of a file.
const MOST_BYTES: usize = 65_536;

// The most samples of a stroke.
pub const MOST_SAMPLES: usize = 512;

// How many bytes the trailer has.
pub const TRAILER: usize = 8;

// The one version that there is.
pub const VERSION: u8 = 1;

// Reads a file from its end. The first test that fails decides, and nothing is trusted before its test.
#[tactic(auto, using(crate::proofs::Beyond::field_inside))]
pub fn read(bytes: &[u8]) -> Result<Stroke<'_>, FileFault>
    ensures answer { MatchResult result (λ s. decode bytes.now ≡ Ok (contents s)) (λ e. decode bytes.now ≡ Err e) }
    ensures file { IfOk result (λ s. FileOf (contents s) bytes.now) }
{
    let len = bytes.len();
    let [.., d0, d1, d2, d3, n0, n1, flag, version] = bytes else {
        return Err(FileFault::Size);
    };
    if len > MOST_BYTES {
        return Err(FileFault::Size);
    }
    if *version != VERSION {
        return Err(FileFault::Version(len - 1));
    }
    let pressed = match *flag {
        0 => false,
        1 => true,
        _ => return Err(FileFault::Flag(len - 2)),
    };
    let size = sample_size(pressed);
    let count = u16::from_le_bytes([*n0, *n1]) as usize;
    if count == 0 || count > MOST_SAMPLES {
        return Err(FileFault::Count);
    }
    let distance = u32::from_le_bytes([*d0, *d1, *d2, *d3]) as usize;
    if distance != count * size {
        return Err(FileFault::Distance);
    }
    let trailer = len - TRAILER;
    if distance > trailer {
        return Err(FileFault::Start);
    }
    let start = trailer - distance;
    let samples = &bytes[start..trailer];
    let stroke = Stroke { samples, pressed };
    match stroke.first_beyond() {
        Some((i, field)) => {
            let at = i * size + field.offset();
            Err(FileFault::Field(start + at))
        }
        None => Ok(stroke),
    }
}

// That files are granted exactly where they are files of a stroke, and that the field which a refusal names is the first.
pub fn format_stands()
    ensures granted { Granted }
    ensures back { ReadsBack }
    ensures first { FirstNamed }
{}
