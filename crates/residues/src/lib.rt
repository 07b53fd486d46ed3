// Residues: what numbers leave by a modulus that is known when the program is built.
#![tactic(auto)]

ghost use Rattle.std.specs.Prelude.{◌≡◌, ◌+◌, ◌*◌, ◌%◌, ◌<◌, ◌≤◌};
ghost use Rattle.residues.specs.Residues.{Modulus, opposite, inverse};

use std::ops::{Add, Mul, Sub};

// A word below the modulus.
#[derive(Clone, Copy, Debug, PartialEq, Eq)]
pub struct Residue<const M: u64> {
    pub word: u32,
    pub ghost below: { word < M },
    pub ghost modulus: { Modulus M },
}

// What a constructor asks is of the constant M alone, which is settled when the program is built: nothing that is handed over.
impl<const M: u64> Residue<M> {
    pub fn of(n: u64) -> Residue<M>
        requires { Modulus M }
        ensures { result.word ≡ n % M }
    {
        Residue {
            word: (n % M) as u32,
        }
    }

    // Of a word: a reduced one is its own residue, with no division.
    pub fn of_word(word: u32) -> Residue<M>
        requires { Modulus M }
        ensures { result.word ≡ word % M }
    {
        let n = word as u64;
        let left = if n < M { n } else { n % M };
        Residue { word: left as u32 }
    }

    // More by at most the modulus: a subtraction at most, and no division.
    fn plus(self, n: u32) -> Residue<M>
        requires { n ≤ M }
        ensures { result.word ≡ (self.entry.word + n) % M }
    {
        let m = M as u32;
        let sum = self.word + n;
        let word = if sum < m { sum } else { sum - m };
        Residue { word }
    }

    // The inverse of n, which divides the span, from that of the span.
    pub fn inverse_of_part(self, span: u32, n: u32) -> Residue<M>
        ensures { result.word ≡ inverse M span self.entry.word n }
    {
        if n > 0 && span % n == 0 {
            self * (span / n)
        } else {
            Residue { word: 0 }
        }
    }
}

impl<const M: u64> Add for Residue<M> {
    type Output = Residue<M>;

    ghost add_gives = { λ a b c. c.word ≡ (a.word + b.word) % M };

    fn add(self, other: Residue<M>) -> Residue<M> {
        self.plus(other.word)
    }
}

impl<const M: u64> Sub for Residue<M> {
    type Output = Residue<M>;

    ghost sub_gives = { λ a b c. c.word ≡ (a.word + opposite M b.word) % M };

    fn sub(self, other: Residue<M>) -> Residue<M> {
        self.plus(M as u32 - other.word)
    }
}

// Times any word.
impl<const M: u64> Mul<u32> for Residue<M> {
    type Output = Residue<M>;

    ghost mul_gives = { λ a n c. c.word ≡ (a.word * n) % M };

    fn mul(self, n: u32) -> Residue<M> {
        Residue::of(self.word as u64 * n as u64)
    }
}
