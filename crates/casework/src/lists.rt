// The lists of a case.
ghost use Rattle.std.specs.Prelude.{◌≡◌, ◌≢◌, ◌==◌, [], length, IfOk, codes};
ghost use Rattle.std.specs.List.{slice_split};
ghost use Rattle.casework.specs.Listed.{HasWords, SpacesAlone};
ghost use Rattle.casework.specs.Spelling.{comma, spaced};

use crate::element::{Element, front};
use std::alloc::Global;

fn radix(word: &str) -> anyhow::Result<u8> {
    Ok(word.parse()?)
}

// The radices of a plan, which commas join; '-' stands for none.
pub fn radices(heap: Global, text: &str) -> anyhow::Result<Vec<u8>>
    ensures none { text.now ≡ codes "-" → IfOk result (λ v. v.items ≡ []) }
    ensures count { text.now ≢ codes "-" → IfOk result (λ v. length v.items ≡ length (slice_split (λ c. c == comma) text.now)) }
{
    if text == "-" {
        return Ok(Vec::new(heap));
    }
    text.split(',').map(radix).try_collect(heap)
}

// What is read of each word of a list, which white space parts. The two below hand its clauses on.
fn each_word<X: Element, F: FnMut(&str) -> anyhow::Result<X>>(
    heap: Global,
    text: &str,
    read: F,
) -> anyhow::Result<Vec<X>>
    requires pre { (f : _) (a : _) → F.FnMut.pre f a }
    ensures count { IfOk result (λ v. HasWords text.now (length v.items)) }
    ensures spaced { SpacesAlone text.now → IfOk result (λ v. length v.items ≡ length (spaced text.now)) }
{
    text.split_whitespace().map(read).try_collect(heap)
}

// The elements of a list.
pub fn elements<X: Element>(heap: Global, text: &str) -> anyhow::Result<Vec<X>>
    ensures count { IfOk result (λ v. HasWords text.now (length v.items)) }
    ensures spaced { SpacesAlone text.now → IfOk result (λ v. length v.items ≡ length (spaced text.now)) }
{
    each_word(heap, text, |word| X::parse(word))
}

// The same, where what stands after an element's second comma is not read.
pub fn front_elements<X: Element>(heap: Global, text: &str) -> anyhow::Result<Vec<X>>
    ensures count { IfOk result (λ v. HasWords text.now (length v.items)) }
    ensures spaced { SpacesAlone text.now → IfOk result (λ v. length v.items ≡ length (spaced text.now)) }
{
    each_word(heap, text, |word| X::parse(front(word)))
}
