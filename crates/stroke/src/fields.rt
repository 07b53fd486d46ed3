// The fields of a sample, and their limits.
ghost use Rattle.std.specs.Prelude.{◌≡◌};
ghost use Rattle.stroke.specs.Contents.{field_beyond};
ghost use Rattle.stroke.specs.Layout.{field_offset};

// The largest count, and how far a negative one may go.
const LIMIT: u16 = 1_023;

// How many bytes a field of a sample has.
pub(crate) const FIELD: usize = 2;

// One count of a sample, in the order in which they lie in a file.
#[derive(Clone, Copy, Debug, PartialEq, Eq)]
pub enum Field {
    X,
    Y,
    Pressure,
}

impl Field {
    // Where the field begins in its sample.
    pub(crate) fn offset(self) -> usize
        ensures { result ≡ field_offset self }
    {
        self as usize * FIELD
    }
}

// The first field of a sample that is beyond its limits.
pub fn field_beyond(x: i16, y: i16, pressure: u16) -> Option<Field>
    ensures { result ≡ field_beyond x y pressure }
{
    if x.unsigned_abs() > LIMIT {
        Some(Field::X)
    } else if y.unsigned_abs() > LIMIT {
        Some(Field::Y)
    } else if pressure > LIMIT {
        Some(Field::Pressure)
    } else {
        None
    }
}
