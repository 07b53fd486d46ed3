// The match of two lent strokes.
ghost use Rattle.std.specs.Prelude.{◌≡◌, length, is_ok, IfOk, if◌then◌else◌, Ok};
ghost use Rattle.stroke.specs.Contents.{Sound};
ghost use Rattle.writing.specs.Lending.{held};
ghost use Rattle.matching.specs.Lags.{matches};
ghost use Rattle.matching.specs.Worked.{Worked};
ghost use Rattle.matching.specs.Matched.{spans, lengths, limits, granted, pressure_lag, matched, BestLags};

use crate::paths::match_paths;
use crate::pressures::match_pressures;
use path::Path;
use pressure::Pressure;
use refusal::Fault;
use spectrum::divides;
use writing::Lent;

// The lags at which two strokes agree best.
#[derive(Clone, Copy, Debug, PartialEq, Eq)]
pub struct Match {
    pub lag: usize,
    // None where either stroke has no pressures.
    pub pressure: Option<usize>,
}

// Two strokes that are to be matched.
#[derive(Clone, Copy)]
struct Pair<'a> {
    a: Lent<'a>,
    b: Lent<'a>,
}

impl Pair<'_> {
    fn spans(&self) -> Result<(), Fault>
        ensures answer { result ≡ spans (held self.now.a) (held self.now.b) }
    {
        let n = self.a.path.len();
        divides::<Path>(n)?;
        if self.a.has_pressure() && self.b.has_pressure() {
            divides::<Pressure>(n)
        } else {
            Ok(())
        }
    }

    fn lengths(&self, room: usize) -> Result<(), Fault>
        ensures answer { result ≡ lengths (held self.now.a) (held self.now.b) room }
    {
        self.a.sized()?;
        self.b.sized()?;
        let n = self.a.path.len();
        if self.b.path.len() == n && room == n {
            Ok(())
        } else {
            Err(Fault::Length)
        }
    }

    fn limits(&self) -> Result<(), Fault>
        ensures answer { result ≡ limits (held self.now.a) (held self.now.b) }
    {
        self.a.within_limits()?;
        self.b.within_limits()?;
        Ok(())
    }

    // Refuses two strokes that cannot be matched into a list of a length, the lowest number first.
    fn granted(&self, room: usize) -> Result<(), Fault>
        ensures answer { result ≡ granted (held self.now.a) (held self.now.b) room }
    {
        self.spans()?;
        self.lengths(room)?;
        self.limits()
    }

    fn pressure_lag(&self) -> Option<usize>
        requires sound { (Sound (held self.now.a)) × (Sound (held self.now.b)) }
        requires same { length (held self.now.b).path ≡ length (held self.now.a).path }
        ensures answer { result ≡ pressure_lag (held self.now.a).pressure (held self.now.b).pressure }
    {
        self.a
            .pressure
            .zip(self.b.pressure)
            .map(|(p, q)| match_pressures(p, q))
    }

    // The match of every lag into `out`, and the lags that are best, of two strokes that were granted.
    fn best_lags(&self, out: &mut [(i64, i64)]) -> Match
        requires granted { Ok tt ≡ granted (held self.now.a) (held self.now.b) (length out.old) }
        ensures answer { Ok result ≡ matched (held self.now.a) (held self.now.b) (length out.old) }
        ensures after { out.new ≡ matches (held self.now.a).path (held self.now.b).path }
        ensures best { BestLags (held self.now.a) (held self.now.b) result }
    {
        let lag = match_paths(self.a.path, self.b.path, out);
        let pressure = self.pressure_lag();
        Match { lag, pressure }
    }
}

// Writes the match of every lag into `out`, and answers the lags that are best. Every refusal comes before the first write.
pub fn match_strokes(a: &Lent<'_>, b: &Lent<'_>, out: &mut [(i64, i64)]) -> Result<Match, Fault>
    ensures answer { result ≡ matched (held a.now) (held b.now) (length out.old) }
    ensures after { out.new ≡ (if is_ok result then matches (held a.now).path (held b.now).path else out.old) }
    ensures best { IfOk result (BestLags (held a.now) (held b.now)) }
{
    let pair = Pair { a: *a, b: *b };
    pair.granted(out.len())?;
    Ok(pair.best_lags(out))
}

// The match of (0, 1) with (1, 0).
pub fn case_stands()
    ensures answer { Worked }
{}
