// What every call answers: that it is granted, or by which number, layer and place it is refused.
ghost use Rattle.std.specs.Prelude.{◌≡◌};
ghost use Rattle.crossing.specs.Answers.{refused, status_of, answer_or};

use refusal::Fault;

// All zero where the call is granted: no refusal has the number 0. C has no Result, so the numbers stand here plain.
#[derive(Clone, Copy)]
#[repr(C)]
pub struct Status {
    pub number: u32,
    pub layer: u32,
    pub place: usize,
}

// By its name, where a derived `Default` would not say that it grants.
const GRANTED: Status = Status {
    number: 0,
    layer: 0,
    place: 0,
};

impl From<Fault> for Status {
    ghost from_gives = { λ f r. r ≡ refused f };

    fn from(fault: Fault) -> Status {
        Status {
            number: u32::from(fault.number()),
            layer: u32::from(fault.layer().number()),
            place: fault.place(),
        }
    }
}

// What a call without an answer came to.
pub fn settled(res: Result<(), Fault>) -> Status
    ensures answer { result ≡ status_of res }
{
    match res {
        Ok(()) => GRANTED,
        Err(fault) => Status::from(fault),
    }
}

// What a call came to. Its answer goes to `out`, which a refusal leaves as it was.
pub fn answered<T: Copy>(res: Result<T, Fault>, out: &mut T) -> Status
    ensures answer { result ≡ status_of res }
    ensures out { out.new ≡ answer_or out.old res }
{
    match res {
        Ok(answer) => {
            *out = answer;
            GRANTED
        }
        Err(fault) => Status::from(fault),
    }
}
