// A list of calls, played on a sheet: each is answered as the plain sheet answers it. What is lent is handed over one by one.
#![tactic(auto)]

ghost use Rattle.std.specs.Prelude.{◌≡◌, map, length, OnOk};
ghost use Rattle.cells.specs.Holding.{Holds};
ghost use Rattle.cells.specs.Played.{sheet_answer, sheet_after, sheet_finally, sheet_answers};
ghost use Rattle.cells.specs.Lent.{cells_of, length_of, Kept};
ghost use Rattle.replay.specs.Replaying.{plainly, replayed, answers_to, samples_left, cells_played};
ghost use Rattle.spectrum.specs.Granted.{where_granted, cleared};

use arithmetic::Arithmetic;
use cells::Answer;
use refusal::Fault;
use sheet::{Sheet, open, sized};

mod calls;

pub use calls::Call;

// One call, with its answer.
fn play<X: Arithmetic>(sheet: &mut Sheet<'_, X>, call: &Call<'_, X>) -> Answer<X::Reading>
    ensures answer { result ≡ sheet_answer X.Arithmetic.meaning (length_of sheet.old) (plainly call.now) (cells_of sheet.old) }
    ensures after { cells_of sheet.new ≡ sheet_after X.Arithmetic.meaning (length_of sheet.old) (plainly call.now) (cells_of sheet.old) }
    ensures kept { Kept sheet.old sheet.new }
{
    match call {
        Call::Edit(i, v) => sheet.edit(*i, *v).map(|()| None),
        Call::Shift(h) => sheet.shift(*h).map(|()| None),
        Call::Mirror => sheet.mirror().map(|()| None),
        Call::Lay(laid) => sheet.lay(laid).map(|()| None),
        Call::Tone(k) => sheet.tone(*k).map(Some),
    }
}

// Every call in turn, with its answer in the same place: two lists, since both are lent.
fn play_all<X: Arithmetic>(
    sheet: &mut Sheet<'_, X>,
    calls: &[Call<'_, X>],
    answers: &mut [Answer<X::Reading>],
)
where
    X::Reading: Copy,
    requires { length answers.old ≡ length calls.now }
    ensures answers { answers.new ≡ sheet_answers X.Arithmetic.meaning (length_of sheet.old) (map plainly calls.now) (cells_of sheet.old) }
    ensures after { cells_of sheet.new ≡ sheet_finally X.Arithmetic.meaning (length_of sheet.old) (map plainly calls.now) (cells_of sheet.old) }
    ensures kept { Kept sheet.old sheet.new }
{
    // By number: after `answers.iter_mut().zip(calls)` a proof would know how many answers there are, and not which.
    for (i, call) in calls.iter().enumerate() {
        answers[i] = play(sheet, call);
    }
}

// Opens a sheet, plays the calls on it, and writes the answer to each: all as the plain sheet that begins with the samples.
// A refusal changes nothing, and a granted call leaves zeros in `work`.
pub fn replay<X: Arithmetic>(
    radices: &[u8],
    cells: &mut [X],
    work: &mut [X],
    calls: &[Call<'_, X>],
    answers: &mut [Answer<X::Reading>],
) -> Result<(), Fault>
where
    X::Reading: Copy,
    ensures answer { result ≡ replayed X.Arithmetic.meaning radices.now (length cells.old) (length work.old) (length calls.now) (length answers.old) }
    ensures answers { answers.new ≡ where_granted result (answers_to X.Arithmetic.meaning radices.now calls.now cells.old) answers.old }
    ensures after { cells.new ≡ where_granted result (cells_played X.Arithmetic.meaning radices.now calls.now cells.old) cells.old }
    ensures sheet { OnOk result (Holds X.Arithmetic.meaning (samples_left X.Arithmetic.meaning radices.now calls.now cells.old) cells.new) }
    ensures work { work.new ≡ cleared X.Arithmetic.meaning result work.old }
{
    sized::<X>(radices, cells.len())?;
    if answers.len() != calls.len() {
        return Err(Fault::Length);
    }
    let n = open(radices, cells, work)?;
    let mut sheet = Sheet::over(cells, n);
    play_all(&mut sheet, calls, answers);
    Ok(())
}
