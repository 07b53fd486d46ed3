// Reading a stroke file: its samples and its pressures are copied into lent lists.
ghost use Rattle.std.specs.Prelude.{◌≡◌, length};
ghost use Rattle.std.specs.Result.{result_map_both};
ghost use Rattle.stroke.specs.Contents.{pressures};
ghost use Rattle.stroke.specs.Reading.{contents};
ghost use Rattle.crossing.specs.Answers.{in_front};
ghost use Rattle.handover.specs.Reading.{counts, path_counts, heading, read_in, Reads};

use crate::copying::copy;
use crossing::{Status, answered};
use refusal::Fault;
use stroke::Stroke;

// A path sample in whole counts, as it crosses to C.
#[derive(Clone, Copy)]
#[repr(C)]
pub struct Counts {
    pub x: i16,
    pub y: i16,
}

// How many samples a stroke has, and how many pressures: as many, or none. A struct of numbers, as it crosses to C.
#[derive(Clone, Copy)]
#[repr(C)]
pub struct Heading {
    pub samples: usize,
    pub pressures: usize,
}

impl From<(i16, i16)> for Counts {
    ghost from_gives = { λ pair c. c ≡ counts pair };

    fn from((x, y): (i16, i16)) -> Counts {
        Counts { x, y }
    }
}

// How many pressures the stroke has.
fn pressure_count(stroke: &Stroke<'_>) -> usize
    ensures answer { result ≡ length (pressures (contents stroke.now)) }
{
    if stroke.has_pressure() {
        stroke.len()
    } else {
        0
    }
}

// Every refusal comes before the first write.
fn read_into(bytes: &[u8], path: &mut [Counts], pressure: &mut [u16]) -> Result<Heading, Fault>
    ensures answer { result ≡ result_map_both heading (λ f. f) (read_in (length path.old) (length pressure.old) bytes.now) }
    ensures path { path.new ≡ in_front (result_map_both path_counts (λ f. f) (read_in (length path.old) (length pressure.old) bytes.now)) path.old }
    ensures pressure { pressure.new ≡ in_front (result_map_both pressures (λ f. f) (read_in (length path.old) (length pressure.old) bytes.now)) pressure.old }
{
    let stroke = stroke::read(bytes)?;
    let samples = stroke.len();
    let pressures = pressure_count(&stroke);
    if path.len() < samples || pressure.len() < pressures {
        return Err(Fault::Length);
    }
    copy(&mut path[0..samples], |i| stroke.path(i).map(Counts::from));
    copy(&mut pressure[0..pressures], |i| stroke.pressure(i));
    Ok(Heading { samples, pressures })
}

// Reads a stroke file. Its samples take the front of `path` and its pressures, if any, that of `pressure`.
pub fn read(
    bytes: &[u8],
    path: &mut [Counts],
    pressure: &mut [u16],
    heading: &mut Heading,
) -> Status
    ensures made { Reads bytes.now heading.old path.old pressure.old result heading.new path.new pressure.new }
{
    answered(read_into(bytes, path, pressure), heading)
}
