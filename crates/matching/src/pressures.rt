// The best lag of two lists of pressures: lagged sums in the pressure arithmetic, read as whole numbers.
ghost use Rattle.std.specs.Prelude.{◌≡◌, ◌≤◌, length};
ghost use Rattle.std.specs.List.{AllByRecursion};
ghost use Rattle.stroke.specs.Contents.{limit, most_samples};
ghost use Rattle.matching.specs.Lags.{pressure_match, best_count};
ghost use Rattle.matching.specs.Readings.{Paired, entered_pressures, read_pressures};

use crate::choosing::first_best;
use crate::lagged::lagged_sum;
use arithmetic::Arithmetic;
use arrayvec::ArrayVec;
use pressure::Pressure;
use stroke::MOST_SAMPLES;

// Each pressure as an element. `few` is what each push into the fixed room owes: no type of a lent list says it.
fn elements(counts: &[u16]) -> ArrayVec<Pressure, MOST_SAMPLES>
    requires few { length counts.now ≤ most_samples }
    ensures answer { result.items ≡ entered_pressures counts.now }
{
    let mut elements = ArrayVec::new();
    for count in counts {
        elements.push(Pressure::count(*count));
    }
    elements
}

// The least lag of the largest sum.
// No struct holds two lists that are `Paired`: counts would need one and their elements another, and each would owe it anew.
fn best_lag(a: &[Pressure], b: &[Pressure]) -> usize
    requires paired { Paired a.now b.now 0 }
    ensures answer { result ≡ best_count (read_pressures a.now b.now) (length a.now) }
{
    first_best(a.len(), |lag| i64::from(lagged_sum(a, b, lag).read()))
}

// The least lag of the largest match of pressures.
pub(crate) fn match_pressures(p: &[u16], q: &[u16]) -> usize
    requires paired { Paired p.now q.now 0 }
    requires low { (AllByRecursion (λ u. u ≤ limit) p.now) × (AllByRecursion (λ u. u ≤ limit) q.now) }
    ensures answer { result ≡ best_count (pressure_match p.now q.now) (length p.now) }
{
    let a = elements(p);
    let b = elements(q);
    best_lag(a.as_slice(), b.as_slice())
}
