// The engine on lent slices: samples are dealt, then columns make blocks, blocks a stage, and the stages the tones.
ghost use Rattle.std.specs.Prelude.{◌≡◌, ℕ, ◌+◌, ◌*◌, ◌%◌, ◌^◌, ◌<◌, ◌≤◌, length, replicate};
ghost use Rattle.plan.specs.Radices.{size, turns, largest_radix, largest_size, Each};
ghost use Rattle.plan.specs.Dealing.{dealt, place};
ghost use Rattle.plan.specs.Planned.{radices_of};
ghost use Rattle.spectra.specs.Tones.{tone, combine};
ghost use Rattle.spectra.specs.Stages.{staged, stages as every_stage};
ghost use Rattle.spectrum.specs.Shapes.{Column};

use crate::circle::onward;
use crate::shape::Shape;
use crate::suited::Suited;
use arithmetic::Arithmetic;

// The place of the sample after the one at `at`: the first radix counts up, and carries into the next.
fn next_place(radices: &[u8], n: usize, at: usize) -> usize
    requires each { Each radices.now }
    requires whole { n ≡ size radices.now }
    requires within { (at < n) × (n ≤ largest_size) }
    ensures answer { (i : ℕ) → at ≡ place radices.now i → result ≡ place radices.now (i + 1) }
    ensures within { result < n }
{
    let mut at = at;
    let mut block = n;
    for r in radices {
        let part = block / *r as usize;
        if at + part < block {
            return at + part;
        }
        at -= block - part;
        block = part;
    }
    at
}

impl<X: Arithmetic> Shape<X> {
    // Where tone `j` of part `q` stands in a block.
    fn place(&self, q: usize, j: usize) -> usize
        requires { (q < self.now.radix) × (j < self.now.len) }
        ensures answer { result ≡ q * self.now.len + j }
        ensures within { result < self.now.radix * self.now.len }
    {
        q * self.len + j
    }

    // Tone `i * len + j` of the block.
    // The lengths of lent slices stay in `requires`, here and below: a struct of two slices was tried, and its caller's proof does not learn what they hold afterwards.
    fn output(&self, block: &[X], i: usize, j: usize) -> X
        requires cell { (i < self.now.radix) × (j < self.now.len) }
        requires whole { length block.now ≡ self.now.radix * self.now.len }
        ensures { result ≡ tone X.Arithmetic.meaning self.now.radix self.now.len block.now (i * self.now.len + j) }
    {
        let span = X::span() as usize;
        let step = self.place(i, j) * self.unit;
        let mut sum = block[j].turn(0);
        let mut e = step;
        // The exponent is a word of its own: with an `Angle` in this loop a transform takes a tenth longer.
        for part in block[self.len..].chunks_exact(self.len) {
            sum = sum.sum(part[j].turn(e as u32));
            e = onward(e, step, span);
        }
        sum
    }

    // Column `j` of the block, where it stands: its tones rest on the column alone.
    fn column(&self, block: &mut [X], j: usize, scratch: &mut [X])
        requires whole { length block.old ≡ self.now.radix * self.now.len }
        requires column { j < self.now.len }
        requires scratch { self.now.radix ≤ length scratch.old }
        ensures after { Column X.Arithmetic.meaning self.now.radix self.now.len j self.now.radix block.old block.new }
    {
        let tones = &mut scratch[..self.radix];
        for (i, tone) in tones.iter_mut().enumerate() {
            *tone = self.output(block, i, j);
        }
        for (i, tone) in tones.iter().enumerate() {
            block[self.place(i, j)] = *tone;
        }
    }

    // Every column of a block.
    fn combine(&self, block: &mut [X], scratch: &mut [X])
        requires whole { length block.old ≡ self.now.radix * self.now.len }
        requires scratch { self.now.radix ≤ length scratch.old }
        ensures after { block.new ≡ combine X.Arithmetic.meaning self.now.radix self.now.len block.old }
    {
        for j in 0..self.len {
            self.column(block, j, scratch);
        }
    }

    // The stage of the radix, where those after it have the product `len`: every block. Answers the turns made.
    // By value: through a reference each tone would read the shape again, which what was written might have changed, and a
    // transform in the fixed arithmetic under twos takes a quarter longer.
    pub(crate) fn stage(self, buf: &mut [X], scratch: &mut [X]) -> usize
        requires whole { length buf.old % (self.radix * self.len) ≡ 0 }
        requires fits { length buf.old < 2 ^ 32 }
        requires scratch { self.radix ≤ length scratch.old }
        ensures after { buf.new ≡ staged X.Arithmetic.meaning self.radix self.len buf.old }
        ensures turns { result ≡ length buf.old * self.radix }
    {
        let size = self.radix * self.len;
        // By number: tried, and after `for block in buf.chunks_exact_mut(size)` a proof knows nothing of what was written.
        for b in 0..buf.len() / size {
            self.combine(&mut buf[b * size..(b + 1) * size], scratch);
        }
        // Each tone is a sum of as many turned parts as the radix says.
        buf.len() * self.radix
    }
}

impl<X: Arithmetic> Suited<X> {
    // Each sample at its dealt place.
    pub(crate) fn scatter(&self, samples: &[X], out: &mut [X])
        requires samples { length samples.now ≡ size (radices_of self.now.plan) }
        requires out { length out.old ≡ size (radices_of self.now.plan) }
        ensures after { out.new ≡ dealt X.Arithmetic.meaning.zero (radices_of self.now.plan) samples.now }
    {
        let radices = self.plan.radices();
        let n = self.plan.len();
        let mut at = 0;
        for x in samples {
            out[at] = *x;
            at = next_place(radices, n, at);
        }
    }

    // The samples in dealt order, by way of the front of `work`.
    pub(crate) fn deal(&self, buf: &mut [X], work: &mut [X])
        requires whole { length buf.old ≡ size (radices_of self.now.plan) }
        requires room { length buf.old ≤ length work.old }
        ensures after { buf.new ≡ dealt X.Arithmetic.meaning.zero (radices_of self.now.plan) buf.old }
    {
        let n = buf.len();
        work[0..n].copy_from_slice(buf);
        self.scatter(&work[0..n], buf);
    }

    // Every stage of the plan, the last radix first. Answers the turns made.
    pub(crate) fn stages(&self, buf: &mut [X], scratch: &mut [X]) -> usize
        requires whole { length buf.old ≡ size (radices_of self.now.plan) }
        requires scratch { largest_radix ≤ length scratch.old }
        ensures after { buf.new ≡ every_stage X.Arithmetic.meaning (radices_of self.now.plan) buf.old }
        ensures turns { result ≡ turns (radices_of self.now.plan) }
    {
        let mut len = 1;
        let mut made = 0;
        for r in self.plan.radices().iter().rev() {
            let radix = *r as usize;
            made += Shape::new(radix, len).stage(buf, scratch);
            len *= radix;
        }
        made
    }
}

// Nothing of the samples stays behind in lent memory.
pub fn clear<X: Arithmetic>(work: &mut [X])
    ensures after { work.new ≡ replicate (length work.old) X.Arithmetic.meaning.zero }
{
    // A loop: `fill` asks for a clone that cannot fail, which an arithmetic does not say, so its call gets no proof.
    for x in work.iter_mut() {
        *x = X::zero();
    }
}
