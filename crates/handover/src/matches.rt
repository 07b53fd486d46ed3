// The match of two strokes in lent lists.
ghost use Rattle.std.specs.Prelude.{◌≡◌, ◌≤◌, ◌&&◌, map, length, is_some};
ghost use Rattle.std.specs.Result.{result_map_both};
ghost use Rattle.stroke.specs.Contents.{most_samples};
ghost use Rattle.matching.specs.Lags.{matches};
ghost use Rattle.matching.specs.Matched.{matched};
ghost use Rattle.spectrum.specs.Granted.{where_granted};
ghost use Rattle.handover.specs.Lending.{pressure_held, kept, lent_stroke};
ghost use Rattle.handover.specs.Matching.{sum as sum_of, lags as lags_of, too_long, Matches};

use crate::lending::Held;
use crate::reading::Counts;
use crossing::{Status, answered, settled};
use matching::Match;
use path::Path;
use pressure::Pressure;
use refusal::Fault;
use spectrum::divides;
use stroke::MOST_SAMPLES;

// The pair R of a lag, in whole counts, as it crosses to C.
#[derive(Clone, Copy)]
#[repr(C)]
pub struct Sum {
    pub x: i64,
    pub y: i64,
}

// The lags at which two strokes agree best. Where either has no pressures, `pressed` is 0 and so is `pressure`: C has no Option.
#[derive(Clone, Copy)]
#[repr(C)]
pub struct Lags {
    pub path: usize,
    pub pressed: usize,
    pub pressure: usize,
}

impl From<(i64, i64)> for Sum {
    ghost from_gives = { λ pair sum. sum ≡ sum_of pair };

    fn from((x, y): (i64, i64)) -> Sum {
        Sum { x, y }
    }
}

impl From<Match> for Lags {
    ghost from_gives = { λ found best. best ≡ lags_of found };

    fn from(found: Match) -> Lags {
        Lags {
            path: found.lag,
            pressed: usize::from(found.pressure.is_some()),
            pressure: found.pressure.unwrap_or(0),
        }
    }
}

// Refuses strokes of which a list is longer than a stroke may be: by the length of the first, or for the list.
fn over_long(n: usize, pressed: bool) -> Result<(), Fault>
    ensures answer { result ≡ too_long n pressed }
{
    divides::<Path>(n)?;
    if pressed {
        divides::<Pressure>(n)?;
    }
    Err(Fault::Length)
}

// `out` is indexed: tried `out.iter_mut().zip(sums)`, of whose writes a proof knows nothing, and `copy` with a nested `map`, left open.
fn copy_sums(sums: &[(i64, i64)], out: &mut [Sum])
    requires { length out.old ≡ length sums.now }
    ensures after { out.new ≡ map sum_of sums.now }
{
    for (lag, sum) in sums.iter().enumerate() {
        out[lag] = Sum::from(*sum);
    }
}

// The match by way of sums in tuples. Their fixed list lies on the stack, since no call from C takes heap.
fn match_into(a: &Held<'_>, b: &Held<'_>, out: &mut [Sum]) -> Result<Lags, Fault>
    requires few { length out.old ≤ most_samples }
    ensures answer { result ≡ result_map_both lags_of (λ f. f) (matched (kept a.now) (kept b.now) (length out.old)) }
    ensures after { out.new ≡ where_granted result (map sum_of (matches (kept a.now).path (kept b.now).path)) out.old }
{
    let mut sums = [(0, 0); MOST_SAMPLES];
    let sums = &mut sums[..out.len()];
    let found = matching::match_strokes(&a.lent(), &b.lent(), sums)?;
    copy_sums(sums, out);
    Ok(Lags::from(found))
}

fn both_pressed(p: &[u16], q: &[u16]) -> bool
    ensures answer { result ≡ is_some (pressure_held p.now) && is_some (pressure_held q.now) }
{
    !p.is_empty() && !q.is_empty()
}

// Matches two strokes: the sums of every lag go to `out`, and the best lags to `best`. Its parameters are those of the C call.
pub fn match_strokes(
    a: &[Counts],
    p: &[u16],
    b: &[Counts],
    q: &[u16],
    out: &mut [Sum],
    best: &mut Lags,
) -> Status
    ensures made { Matches (lent_stroke a.now p.now) (lent_stroke b.now q.now) best.old out.old result best.new out.new }
{
    if a.len() > MOST_SAMPLES || b.len() > MOST_SAMPLES || out.len() > MOST_SAMPLES {
        return settled(over_long(a.len(), both_pressed(p, q)));
    }
    answered(match_into(&Held::of(a, p), &Held::of(b, q), out), best)
}
