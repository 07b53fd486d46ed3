// Strokes in lent lists of counts, and the files that they are written as.
#![tactic(auto)]

ghost use Rattle.std.specs.Prelude.{◌≡◌, ◌*◌, ◌^◌, ◌<◌, length, is_some, IfOk};
ghost use Rattle.stroke.specs.Layout.{sample_size};
ghost use Rattle.stroke.specs.Writing.{sample_bytes, samples_bytes, trailer};
ghost use Rattle.writing.specs.Lending.{held};
ghost use Rattle.writing.specs.Written.{written, after_writing, ReadAs, GrantedAsWritten};

use stroke::{TRAILER, VERSION, sample_size};

mod lent;

pub use lent::{Lent, LentFault};

// Sample `i` into its part of the file.
fn write_sample(stroke: &Lent<'_>, i: usize, part: &mut [u8])
    requires there { i < length stroke.now.path.now }
    requires whole { length part.old ≡ sample_size (is_some (held stroke.now).pressure) }
    ensures after { part.new ≡ sample_bytes (held stroke.now) i }
{
    let (x, y) = stroke.path[i];
    let [x0, x1] = x.to_le_bytes();
    let [y0, y1] = y.to_le_bytes();
    match stroke.pressure_at(i) {
        Some(pressure) => {
            let [u0, u1] = pressure.to_le_bytes();
            part.copy_from_slice(&[x0, x1, y0, y1, u0, u1]);
        }
        None => part.copy_from_slice(&[x0, x1, y0, y1]),
    }
}

// The samples, one after the other.
// By index, since a proof knows nothing of what `out.chunks_exact_mut(size)` leaves in `out`: tried, and `after` stayed open.
#[tactic(auto, using(crate::proofs::Filling::row_inside))]
fn write_samples(stroke: &Lent<'_>, size: usize, out: &mut [u8])
    requires size { size ≡ sample_size (is_some (held stroke.now).pressure) }
    requires whole { length out.old ≡ length stroke.now.path.now * size }
    ensures after { out.new ≡ samples_bytes (held stroke.now) }
{
    for i in 0..stroke.path.len() {
        let at = i * size;
        write_sample(stroke, i, &mut out[at..at + size]);
    }
}

// The trailer: how far back the first sample lies, how many there are, and whether they have pressures.
fn trailer(distance: usize, count: usize, pressed: bool) -> [u8; TRAILER]
    requires { (distance < 2 ^ 32) × (count < 2 ^ 16) }
    ensures { result ≡ trailer distance count pressed }
{
    let [d0, d1, d2, d3] = (distance as u32).to_le_bytes();
    let [n0, n1] = (count as u16).to_le_bytes();
    [d0, d1, d2, d3, n0, n1, u8::from(pressed), VERSION]
}

// Writes the file of a stroke, without notes, at the front of `out`, and answers its length in bytes.
// Every refusal comes before the first write.
pub fn write(stroke: &Lent<'_>, out: &mut [u8]) -> Result<usize, LentFault>
    ensures answer { result ≡ written (held stroke.now) (length out.old) }
    ensures after { out.new ≡ after_writing (held stroke.now) out.old }
    ensures back { IfOk result (ReadAs (held stroke.now) out.new) }
{
    stroke.sized()?;
    stroke.within_limits()?;
    let count = stroke.path.len();
    let pressed = stroke.has_pressure();
    let size = sample_size(pressed);
    let distance = count * size;
    let len = distance + TRAILER;
    if out.len() < len {
        return Err(LentFault::Room);
    }
    write_samples(stroke, size, &mut out[0..distance]);
    out[distance..len].copy_from_slice(&trailer(distance, count, pressed));
    Ok(len)
}

// That every file which is granted is notes, and then what `write` would write of the stroke in it.
pub fn writing_stands()
    ensures granted { GrantedAsWritten }
{}
