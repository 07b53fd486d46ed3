// The least place of the largest value.
ghost use Rattle.std.specs.Prelude.{◌≡◌, ℕ, ℤ, ◌<◌};
ghost use Rattle.matching.specs.Lags.{best};

// The least place below n at which `value` is largest.
// A loop: `max_by_key` answers the last of equal values, so that the first would come only of a range walked backwards.
pub(crate) fn first_best<F: Fn(usize) -> i64>(n: usize, value: F) -> usize
    requires some { 0 < n }
    requires callable { (k : ℕ) → k < n → F.pre value k }
    ensures least { (f : ℕ → ℤ) → ((k : ℕ) (z : ℤ) → k < n → F.post value k z → z ≡ f k) → result ≡ best f n }
{
    let mut best = 0;
    let mut most = value(0);
    for place in 1..n {
        let next = value(place);
        if next > most {
            best = place;
            most = next;
        }
    }
    best
}
