// The cases of writing.
use crate::given::Given;
use crate::print_refusal;
use refusal::Fault;
use stroke::read;
use writing::{Lent, write};

// What fills the output before a call, so that a change shows.
const MARK: u8 = 0xa5;

// How many bytes are printed on a line.
const ROW: usize = 24;

// Whether `at` gives each of the values in its place.
fn same<T: PartialEq + Copy, F: Fn(usize) -> Option<T>>(values: &[T], at: F) -> bool
    requires { F.IsAlwaysCallable at }
{
    values
        .iter()
        .enumerate()
        .all(|(i, value)| at(i) == Some(*value))
}

// Whether the bytes are read as the stroke.
fn read_back(stroke: &Lent<'_>, bytes: &[u8]) -> bool {
    let Ok(back) = read(bytes) else {
        return false;
    };
    let pressed = match stroke.pressure {
        Some(us) => back.has_pressure() && same(us, |i| back.pressure(i)),
        None => !back.has_pressure(),
    };
    pressed && back.len() == stroke.path.len() && same(stroke.path, |i| back.path(i))
}

fn print_bytes(rt: &HostRuntime, out: &[u8]) -> anyhow::Result<()> {
    for row in out.chunks(ROW) {
        let mut text = String::new(rt.alloc());
        for byte in row {
            write!(text, "{byte:02x}")?;
        }
        println!(rt; "{text}")?;
    }
    Ok(())
}

pub(crate) fn run_write(rt: &HostRuntime, room: usize, stroke: &str) -> anyhow::Result<()> {
    let given = Given::parse(rt.alloc(), stroke)?;
    let stroke = given.lent();
    let mut out = vec![in rt.alloc(); MARK; room]?;
    match write(&stroke, &mut out) {
        Ok(len) => {
            println!(rt; "length {len}")?;
            print_bytes(rt, &out)?;
            if !read_back(&stroke, out.get(..len).unwrap_or(&out)) {
                println!(rt; "it is not read back")?;
            }
            Ok(())
        }
        Err(fault) => print_refusal(
            rt,
            Fault::Lent(fault),
            !out.iter().all(|byte| *byte == MARK),
        ),
    }
}
