// What is reported on a file.
ghost use Rattle.std.specs.Prelude.{◌≡◌};
ghost use Rattle.pad.specs.declared.report.Failure.TheVariants.{Refused as OfRefused, Text as OfText};
ghost use Rattle.pad.specs.Reported.{spectrum_in, Reports};

use crate::files::file_tones;
use crate::text::spectrum_text;
use arithmetic::Arithmetic;
use fixed::Fixed;
use refusal::Fault;
use spectrum::SCRATCH;
use std::alloc::{AllocError, Global};
use stroke::MOST_SAMPLES;

// What the transform of the longest stroke works in.
const MOST_WORK: usize = MOST_SAMPLES + SCRATCH;

// Why there is no report: the file is refused, or there is no memory for the text.
#[derive(Clone, Copy, Drop)]
pub enum Failure {
    Refused(Fault),
    Text(AllocError),
}

// By hand, each with `from_gives`: `Reports` names the failure that `?` makes, and of a derived `From` nothing is known.
impl From<Fault> for Failure {
    ghost from_gives = { λ f r. r ≡ OfRefused f };

    fn from(f: Fault) -> Failure {
        Failure::Refused(f)
    }
}

impl From<AllocError> for Failure {
    ghost from_gives = { λ e r. r ≡ OfText e };

    fn from(e: AllocError) -> Failure {
        Failure::Text(e)
    }
}

// The text that is printed of a stroke file's spectrum.
pub fn report_on(heap: Global, bytes: &[u8]) -> Result<String, Failure>
    ensures answer { Reports (spectrum_in bytes.now) result }
{
    // Rooms of a fixed size: only the text is to want memory.
    let mut tones = [Fixed::zero(); MOST_SAMPLES];
    let mut work = [Fixed::zero(); MOST_WORK];
    let summary = file_tones(bytes, &mut tones, &mut work)?;
    let text = spectrum_text(heap, summary.turns, &tones[..summary.count])?;
    Ok(text)
}
