// The comparison of the strokes in two files.
ghost use Rattle.std.specs.Prelude.{◌≡◌, IfOk};
ghost use Rattle.comparison.specs.Copied.{copied};
ghost use Rattle.comparison.specs.Compared.{compared_strokes, compared, Best, BestOf};

use crate::samples::Samples;
use matching::match_strokes;
use refusal::Fault;
use stroke::MOST_SAMPLES;

// The lag at which two paths agree best and the pair R there; and the pressures' best lag.
// Flat, as it is printed: a `Match` inside would part the lag from the sum that is its own.
#[derive(Clone, Copy, Debug, PartialEq, Eq)]
pub struct Comparison {
    pub lag: usize,
    pub sum: (i64, i64),
    // None where either stroke has no pressures.
    pub pressure: Option<usize>,
}

fn compare_strokes(a: &Samples, b: &Samples) -> Result<Comparison, Fault>
    ensures answer { result ≡ compared_strokes (copied a.now) (copied b.now) }
    ensures best { IfOk result (Best (copied a.now) (copied b.now)) }
{
    // A fixed list on the stack in place of a Vec: the comparison takes no heap, and a stroke has no more lags than this.
    let mut sums = [(0, 0); MOST_SAMPLES];
    let found = match_strokes(&a.lent(), &b.lent(), &mut sums[..a.path.len()])?;
    Ok(Comparison {
        lag: found.lag,
        sum: sums[found.lag],
        pressure: found.pressure,
    })
}

// Matches the stroke in the first file with the one in the second. The first file is read before the second, and both
// before their lengths are looked at.
pub fn compare_files(first: &[u8], second: &[u8]) -> Result<Comparison, Fault>
    ensures answer { result ≡ compared first.now second.now }
    ensures best { IfOk result (BestOf first.now second.now) }
{
    let a = Samples::read(first)?;
    let b = Samples::read(second)?;
    compare_strokes(&a, &b)
}
