// The fixed arithmetic: pairs of 32-bit numbers in units of 1/1,024 of a count.
#![tactic(auto)]

ghost use Rattle.std.specs.Prelude.{◌≡◌, ◌^◌, ◌≤◌, ◌+ℤ◌, ◌-ℤ◌, ◌*ℤ◌, unsigned_abs};
ghost use Rattle.fixed.specs.Pairs.{fixed, sampled, TurnsByZero};
ghost use Rattle.fixed.specs.Range.{into_range, BringsIntoRange};
ghost use Rattle.fixed.specs.Rounding.{rounded, FloorRoundsDown, RoundsToNearest};
ghost use Rattle.fixed.specs.Worked.{WorkedCases};
ghost use Rattle.fixed.specs.Laws;

use arithmetic::Arithmetic;
use quarter::Direction;

// How many units make a count.
const UNITS: i32 = 1024;

// How many turns make the full circle.
const CIRCLE: u32 = 512;

// A direction of the table has the length 2^30.
const SHIFT: u32 = 30;

#[derive(Clone, Copy, Debug, PartialEq, Eq)]
#[repr(C)]
pub struct Fixed {
    pub x: i32,
    pub y: i32,
}

impl Fixed {
    // A path sample of whole counts.
    pub fn sample(x: i16, y: i16) -> Fixed
        ensures answer { result ≡ sampled x y }
    {
        Fixed {
            x: UNITS * x as i32,
            y: UNITS * y as i32,
        }
    }

    // How far it goes along a direction, in whole units.
    fn along(self, to: Direction) -> i64
        ensures answer { result ≡ rounded (self.x *ℤ to.c +ℤ self.y *ℤ to.s) }
    {
        rounded(self.x as i64 * to.c as i64 + self.y as i64 * to.s as i64)
    }

    // How far beside it.
    fn beside(self, to: Direction) -> i64
        ensures answer { result ≡ rounded (self.y *ℤ to.c -ℤ self.x *ℤ to.s) }
    {
        rounded(self.y as i64 * to.c as i64 - self.x as i64 * to.s as i64)
    }
}

// A sum of two products in whole units, to the nearest; a half goes up.
fn rounded(z: i64) -> i64
    requires { unsigned_abs z ≤ 2 ^ 62 }
    ensures answer { result ≡ rounded z }
{
    (z + (1 << (SHIFT - 1))) >> SHIFT
}

// The low 32 bits, as a signed number; `as` alone is to lose nothing.
fn into_range(z: i64) -> i32
    ensures answer { result ≡ into_range z }
{
    ((z.cast_unsigned() & u32::MAX as u64) as u32).cast_signed()
}

impl Arithmetic for Fixed {
    type Reading = (i32, i32);

    ghost meaning = { fixed };

    ghost lawful = { Laws.lawful };

    fn zero() -> Fixed {
        Fixed { x: 0, y: 0 }
    }

    fn sum(self, other: Fixed) -> Fixed {
        Fixed {
            x: self.x.wrapping_add(other.x),
            y: self.y.wrapping_add(other.y),
        }
    }

    fn difference(self, other: Fixed) -> Fixed {
        Fixed {
            x: self.x.wrapping_sub(other.x),
            y: self.y.wrapping_sub(other.y),
        }
    }

    fn turn(self, e: u32) -> Fixed {
        let to = quarter::entry(e);
        Fixed {
            x: into_range(self.along(to)),
            y: into_range(self.beside(to)),
        }
    }

    // Not full: neither a product nor a part, so both are zero.
    fn product(self, _other: Fixed) -> Fixed {
        Fixed { x: 0, y: 0 }
    }

    fn part(self, _n: u32) -> Fixed {
        Fixed { x: 0, y: 0 }
    }

    fn read(self) -> (i32, i32) {
        (self.x, self.y)
    }

    fn span() -> u32 {
        CIRCLE
    }

    fn exact() -> bool {
        false
    }

    fn full() -> bool {
        false
    }
}

// What the words of these contracts come to.
pub fn fixed_stands()
    ensures floor { FloorRoundsDown }
    ensures rounding { RoundsToNearest }
    ensures range { BringsIntoRange }
    ensures turning { TurnsByZero }
{}

pub fn worked_cases_stand()
    ensures answer { WorkedCases }
{}
