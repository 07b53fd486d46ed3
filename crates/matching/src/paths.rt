// The matches of two paths: lagged sums in the path arithmetic, read as whole numbers.
ghost use Rattle.std.specs.Prelude.{◌≡◌, ◌<◌, ◌≤◌, map, length, neg_ℤ, slice_index_or};
ghost use Rattle.std.specs.List.{range_with_len, AllByRecursion, AllZip};
ghost use Rattle.stroke.specs.Contents.{most_samples, Near};
ghost use Rattle.path.specs.Paths.{sampled};
ghost use Rattle.matching.specs.Lags.{origin, match_at, matches, best_first};
ghost use Rattle.matching.specs.Readings.{Paired, signed_part, signed_parts, read_sum};

use crate::choosing::first_best;
use crate::lagged::lagged_sum;
use arithmetic::Arithmetic;
use arrayvec::ArrayVec;
use path::{MODULUS, Path};
use stroke::MOST_SAMPLES;

// The largest part that stands for itself.
const HALF: u32 = (MODULUS / 2) as u32;

// A part above half the modulus stands for itself less the modulus.
fn signed_part(u: u32) -> i64
    ensures answer { result ≡ signed_part u }
{
    if u > HALF {
        u as i64 - MODULUS as i64
    } else {
        u as i64
    }
}

fn signed_parts(r: Path) -> (i64, i64)
    ensures answer { result ≡ signed_parts r }
{
    let (u, v) = r.read();
    (signed_part(u), signed_part(v))
}

// A sample's conjugate as an element.
fn conjugate(sample: (i16, i16)) -> Path
    requires near { Near sample }
    ensures answer { result ≡ sampled sample.0 (neg_ℤ sample.1) }
{
    let (x, y) = sample;
    Path::sample(x, -y)
}

// What `enter` makes of each sample. `few` is what each push into the fixed room owes: no type of a lent list says it.
// Pressures have their own loop: at a type parameter a push owes that the ArrayVec fits in memory, which is not proved.
fn elements<F: Fn((i16, i16)) -> Path>(
    path: &[(i16, i16)],
    enter: F,
) -> ArrayVec<Path, MOST_SAMPLES>
    requires few { length path.now ≤ most_samples }
    requires callable { AllByRecursion (F.pre enter) path.now }
    ensures each { AllZip (F.post enter) path.now result.items }
{
    let mut elements = ArrayVec::new();
    for sample in path {
        elements.push(enter(*sample));
    }
    elements
}

// The sum of every lag, read as whole numbers, into `out`.
// No struct holds two lists that are `Paired`: samples would need one and their elements another, and each would owe it anew.
fn every_sum(a: &[Path], b: &[Path], out: &mut [(i64, i64)])
    requires paired { Paired a.now b.now 0 }
    requires whole { length out.old ≡ length a.now }
    ensures after { out.new ≡ map (read_sum a.now b.now) (range_with_len 0 (length a.now)) }
{
    for (lag, sum) in out.iter_mut().enumerate() {
        *sum = signed_parts(lagged_sum(a, b, lag));
    }
}

// The least lag of the largest first part.
fn best_lag(sums: &[(i64, i64)]) -> usize
    requires some { 0 < length sums.now }
    ensures answer { result ≡ best_first (λ lag. slice_index_or sums.now lag origin) (length sums.now) }
{
    first_best(sums.len(), |lag| sums[lag].0)
}

// The match of every lag into `out`; answers the least lag of the largest first part.
pub(crate) fn match_paths(a: &[(i16, i16)], b: &[(i16, i16)], out: &mut [(i64, i64)]) -> usize
    requires paired { Paired a.now b.now 0 }
    requires near { (AllByRecursion Near a.now) × (AllByRecursion Near b.now) }
    requires whole { length out.old ≡ length a.now }
    ensures answer { result ≡ best_first (match_at a.now b.now) (length a.now) }
    ensures after { out.new ≡ matches a.now b.now }
{
    let xs = elements(a, conjugate);
    let ys = elements(b, |(x, y)| Path::sample(x, y));
    every_sum(xs.as_slice(), ys.as_slice(), out);
    best_lag(out)
}
