// What a program is given to read, and how much of it is read at most.
ghost use Rattle.std.specs.Prelude.{◌≡◌, take, IfSome, IfOk, string_bytes};
ghost use Rattle.casework.specs.Most.{most_of_file, most_of_script};

use std::alloc::Global;
use std::io;
use std::io::Read;

// One byte more than the largest file: enough to refuse a larger one.
const ENOUGH_BYTES: u64 = 65_537;

// More than any script of cases has.
const MOST_SCRIPT: u64 = 1_000_000;

// The bytes of a stroke file, up to one more than a file may have.
pub fn file_bytes<R: Read + Drop>(heap: Global, file: R) -> io::Result<Vec<u8>>
    ensures bytes { IfOk result (λ v. IfSome (R.remaining file) (λ bs. v.items ≡ take most_of_file bs)) }
{
    let mut bytes = Vec::new(heap);
    file.take(ENOUGH_BYTES).read_to_end(&mut bytes)?;
    Ok(bytes)
}

// The text of a script of cases.
pub fn script<R: Read + Drop>(heap: Global, input: R) -> io::Result<String>
    ensures text { IfOk result (λ s. IfSome (R.remaining input) (λ bs. string_bytes s ≡ take most_of_script bs)) }
{
    io::read_to_string(heap, input.take(MOST_SCRIPT))
}
