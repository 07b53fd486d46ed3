// Samples and tones on their own: how each half of a sheet's cells follows a call.
// `divides` stands by each: a type that held it would still owe that it is of this length and of this span.
ghost use Rattle.std.specs.Prelude.{◌≡◌, ◌*◌, ◌/◌, ◌<◌, length};
ghost use Rattle.arithmetic.specs.Laws.{Divides};
ghost use Rattle.spectra.specs.Moves.{laid as laid_on};
ghost use Rattle.spectra.specs.Spectra.{defining, spectrum};
ghost use Rattle.cells.specs.Cells.{tones_edited, tones_shifted};

use arithmetic::Arithmetic;
use spectrum::Angle;

// The angle that goes on by `k` of the `n` parts of a circle.
fn parts<X: Arithmetic>(k: usize, n: usize) -> Angle
    requires { k < n }
    ensures at { result.at ≡ 0 }
    ensures step { result.step ≡ k * (X.Arithmetic.meaning.span / n) }
    ensures span { result.span ≡ X.Arithmetic.meaning.span }
{
    Angle::by::<X>(k * (X::span() as usize / n))
}

// Adds to each tone k the change of sample `i`, turned by i k of the N parts of a circle.
pub(crate) fn edit_tones<X: Arithmetic>(tones: &mut [X], i: usize, change: X)
    requires divides { Divides (length tones.old) X.Arithmetic.meaning.span }
    requires within { i < length tones.old }
    ensures after { tones.new ≡ tones_edited X.Arithmetic.meaning i change tones.old }
{
    let mut angle = parts::<X>(i, tones.len());
    for tone in tones.iter_mut() {
        *tone = tone.sum(change.turn(angle.place()));
        angle = angle.onward();
    }
}

// Turns each tone k by (N - h) k of the N parts of a circle.
pub(crate) fn shift_tones<X: Arithmetic>(tones: &mut [X], h: usize)
    requires divides { Divides (length tones.old) X.Arithmetic.meaning.span }
    requires within { h < length tones.old }
    ensures after { tones.new ≡ tones_shifted X.Arithmetic.meaning h tones.old }
{
    let n = tones.len();
    let mut angle = parts::<X>((n - h) % n, n);
    for tone in tones.iter_mut() {
        *tone = tone.turn(angle.place());
        angle = angle.onward();
    }
}

// Adds the laid samples, place by place. A loop of three lines, as spectrum's `multiply`: one function of both would take what is
// done at a place as a closure, and its clause would say less than either.
pub(crate) fn lay_samples<X: Arithmetic>(under: &mut [X], laid: &[X])
    requires { length under.old ≡ length laid.now }
    ensures after { under.new ≡ laid_on X.Arithmetic.meaning under.old laid.now }
{
    // By number, as spectrum's `multiply`: after `iter_mut().zip(..)`, which was tried there, a proof knows how many elements there are, and not which.
    for (t, x) in laid.iter().enumerate() {
        under[t] = under[t].sum(*x);
    }
}

// Tone `k` of the samples by its defining sum.
fn tone_of<X: Arithmetic>(samples: &[X], k: usize) -> X
    requires divides { Divides (length samples.now) X.Arithmetic.meaning.span }
    requires within { k < length samples.now }
    ensures answer { result ≡ defining X.Arithmetic.meaning samples.now k }
{
    let mut angle = parts::<X>(k, samples.len());
    let mut sum = samples[0].turn(angle.place());
    for x in &samples[1..] {
        angle = angle.onward();
        sum = sum.sum(x.turn(angle.place()));
    }
    sum
}

// Adds to each tone that of the laid samples.
pub(crate) fn lay_tones<X: Arithmetic>(tones: &mut [X], laid: &[X])
    requires divides { Divides (length tones.old) X.Arithmetic.meaning.span }
    requires whole { length tones.old ≡ length laid.now }
    ensures after { tones.new ≡ laid_on X.Arithmetic.meaning tones.old (spectrum X.Arithmetic.meaning laid.now) }
{
    for (k, tone) in tones.iter_mut().enumerate() {
        *tone = tone.sum(tone_of(laid, k));
    }
}
