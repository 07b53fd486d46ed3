// How the elements of each arithmetic are written in a case, and their readings printed.
ghost use Rattle.std.specs.Prelude.{◌≡◌, ◌≢◌, ℕ, ◌^◌, ◌<◌, List, ◌++◌, Ok, OnOk, string_bytes};
ghost use Rattle.fixed.specs.Range.{InRange};
ghost use Rattle.casework.specs.Spelling.{Spelling, comma, Lacks, joined, pressure_spelling, path_spelling, fixed_spelling};

use arithmetic::Arithmetic;
use fixed::Fixed;
use path::Path;
use pressure::Pressure;
use std::alloc::AllocError;

pub trait Element: Arithmetic + Clone + PartialEq {
    // Its words are numbers that a machine holds.
    ghost Held: { Self → Type 0 };

    ghost spelling: { Spelling Self Self.Reading };

    // What fills the work before a call, so that a change shows: a granted call leaves zeros there.
    fn mark() -> Self
        ensures shows { result ≢ Self.Arithmetic.meaning.zero };

    // Its words as they stand, reduced or not.
    fn parse(text: &str) -> anyhow::Result<Self>
        ensures read { (x : Self) → Held x → text.now ≡ spelling.written x → result ≡ Ok x };

    fn write(reading: Self::Reading, text: &mut String) -> Result<(), AllocError>
        ensures after { OnOk result (string_bytes text.new ≡ string_bytes text.old ++ spelling.printed reading) };
}

// The words on both sides of the first comma. One that is missing is empty.
fn pair(text: &str) -> (&str, &str)
    ensures answer { (u v : List ℕ) → Lacks comma u → text.now ≡ joined u v → (result.0.now ≡ u) × (result.1.now ≡ v) }
{
    text.split_once(',').unwrap_or((text, ""))
}

// A text up to its second comma.
pub(crate) fn front(text: &str) -> &str
    ensures cut { (u v more : List ℕ) → Lacks comma u → Lacks comma v → text.now ≡ joined u (joined v more) → result.now ≡ joined u v }
    ensures whole { (u v : List ℕ) → Lacks comma u → Lacks comma v → text.now ≡ joined u v → result.now ≡ text.now }
    ensures bare { Lacks comma text.now → result.now ≡ text.now }
{
    let Some((first, rest)) = text.split_once(',') else {
        return text;
    };
    match rest.split_once(',') {
        Some((second, _)) => &text[..first.len() + 1 + second.len()],
        None => text,
    }
}

impl Element for Pressure {
    ghost Held = { λ a. a.word < 2 ^ 32 };

    ghost spelling = { pressure_spelling };

    fn mark() -> Pressure {
        Pressure { word: u32::MAX }
    }

    fn parse(text: &str) -> anyhow::Result<Pressure> {
        Ok(Pressure {
            word: text.parse()?,
        })
    }

    fn write(reading: u32, text: &mut String) -> Result<(), AllocError> {
        write!(text, "{reading}")
    }
}

impl Element for Path {
    ghost Held = { λ a. (a.u < 2 ^ 32) × (a.v < 2 ^ 32) };

    ghost spelling = { path_spelling };

    fn mark() -> Path {
        Path { u: u32::MAX, v: 77 }
    }

    fn parse(text: &str) -> anyhow::Result<Path> {
        let (u, v) = pair(text);
        Ok(Path {
            u: u.parse()?,
            v: v.parse()?,
        })
    }

    fn write(reading: (u32, u32), text: &mut String) -> Result<(), AllocError> {
        let (u, v) = reading;
        write!(text, "{u},{v}")
    }
}

// As a path's element but for the type of its words, whose reading and printing the library names at each type alone.
impl Element for Fixed {
    ghost Held = { λ a. (InRange a.x) × (InRange a.y) };

    ghost spelling = { fixed_spelling };

    fn mark() -> Fixed {
        Fixed { x: 77, y: -77 }
    }

    fn parse(text: &str) -> anyhow::Result<Fixed> {
        let (x, y) = pair(text);
        Ok(Fixed {
            x: x.parse()?,
            y: y.parse()?,
        })
    }

    fn write(reading: (i32, i32), text: &mut String) -> Result<(), AllocError> {
        let (x, y) = reading;
        write!(text, "{x},{y}")
    }
}
