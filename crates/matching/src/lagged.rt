// The lagged sum, in any arithmetic.
ghost use Rattle.std.specs.Prelude.{◌≡◌};
ghost use Rattle.std.specs.List.{zip};
ghost use Rattle.matching.specs.Readings.{Paired, added, lagged};

use arithmetic::Arithmetic;

// Adds the product of each two that meet to a sum, in order.
fn add_products<X: Arithmetic>(sum: X, xs: &[X], ys: &[X]) -> X
    ensures answer { result ≡ added X.Arithmetic.meaning sum (zip xs.now ys.now) }
{
    xs.iter()
        .zip(ys)
        .fold(sum, |sum, (x, y)| sum.sum(x.product(*y)))
}

// The sum over t of a_t times b at (t + lag) mod N: first what is met up to the end of b, and then from its front.
// No struct holds two lists that are `Paired`: that the lag is below their length would still be owed at each lag.
pub(crate) fn lagged_sum<X: Arithmetic>(a: &[X], b: &[X], lag: usize) -> X
    requires paired { Paired a.now b.now lag }
    ensures answer { result ≡ lagged X.Arithmetic.meaning a.now b.now lag }
{
    let (early, late) = a.split_at(a.len() - lag);
    let (front, rest) = b.split_at(lag);
    let first = early[0].product(rest[0]);
    let sum = add_products(first, &early[1..], &rest[1..]);
    add_products(sum, late, front)
}
