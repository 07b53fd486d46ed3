// A sheet over its lent cells. Its length and its cells are tested at each call, since making one refuses nothing.
ghost use Rattle.std.specs.Prelude.{◌≡◌};
ghost use Rattle.cells.specs.Plain.{edit, shift, mirror, lay};
ghost use Rattle.cells.specs.Lent.{cells_of, length_of, Kept, asked, cells_left, sounded};

use crate::fitting::{fits, within};
use crate::tones::{edit_tones, lay_samples, lay_tones, shift_tones};
use arithmetic::Arithmetic;
use refusal::Fault;

#[derive(Drop)]
pub struct Sheet<'a, X> {
    cells: &'a mut [X],
    n: usize,
}

// `kept` stands by each call: no type says of a `&mut self` which cells and which length it ends with.
impl<'a, X: Arithmetic> Sheet<'a, X> {
    // The sheet of `n` samples and their tones in these cells.
    pub fn over(cells: &'a mut [X], n: usize) -> Sheet<'a, X>
        ensures named { result.cells.ghost_name ≡ cells.entry.ghost_name }
        ensures cells { cells_of result ≡ cells.old }
        ensures len { length_of result ≡ n }
    {
        Sheet { cells, n }
    }

    // Sample `i` becomes `v`, and the tones follow.
    pub fn edit(&mut self, i: usize, v: X) -> Result<(), Fault>
        ensures answer { result ≡ asked X.Arithmetic.meaning (edit i v) self.old }
        ensures after { cells_of self.new ≡ cells_left result X.Arithmetic.meaning (edit i v) self.old }
        ensures kept { Kept self.old self.new }
    {
        let n = self.n;
        fits::<X>(n, self.cells.len())?;
        within(n, i)?;
        let change = v.difference(self.cells[i]);
        self.cells[i] = v;
        edit_tones(&mut self.cells[n..2 * n], i, change);
        Ok(())
    }

    // Sample t becomes the old sample (t + h) mod N, and the tones follow.
    pub fn shift(&mut self, h: usize) -> Result<(), Fault>
        ensures answer { result ≡ asked X.Arithmetic.meaning (shift h) self.old }
        ensures after { cells_of self.new ≡ cells_left result X.Arithmetic.meaning (shift h) self.old }
        ensures kept { Kept self.old self.new }
    {
        let n = self.n;
        fits::<X>(n, self.cells.len())?;
        within(n, h)?;
        self.cells[0..n].rotate_left(h);
        shift_tones(&mut self.cells[n..2 * n], h);
        Ok(())
    }

    // Sample t becomes the old sample (N - t) mod N, and the tones follow.
    pub fn mirror(&mut self) -> Result<(), Fault>
        ensures answer { result ≡ asked X.Arithmetic.meaning mirror self.old }
        ensures after { cells_of self.new ≡ cells_left result X.Arithmetic.meaning mirror self.old }
        ensures kept { Kept self.old self.new }
    {
        let n = self.n;
        fits::<X>(n, self.cells.len())?;
        spectrum::mirror(&mut self.cells[0..n]);
        spectrum::mirror(&mut self.cells[n..2 * n]);
        Ok(())
    }

    // The laid samples are added place by place, and the tones follow.
    pub fn lay(&mut self, laid: &[X]) -> Result<(), Fault>
        ensures answer { result ≡ asked X.Arithmetic.meaning (lay laid.now) self.old }
        ensures after { cells_of self.new ≡ cells_left result X.Arithmetic.meaning (lay laid.now) self.old }
        ensures kept { Kept self.old self.new }
    {
        let n = self.n;
        fits::<X>(n, self.cells.len())?;
        if laid.len() != n {
            return Err(Fault::Length);
        }
        lay_samples(&mut self.cells[0..n], laid);
        lay_tones(&mut self.cells[n..2 * n], laid);
        Ok(())
    }

    // Tone `k`, read.
    pub fn tone(&mut self, k: usize) -> Result<X::Reading, Fault>
        ensures answer { result ≡ sounded X.Arithmetic.meaning k self.old }
        ensures same { cells_of self.new ≡ cells_of self.old }
        ensures kept { Kept self.old self.new }
    {
        let n = self.n;
        fits::<X>(n, self.cells.len())?;
        within(n, k)?;
        Ok(self.cells[n + k].read())
    }
}
