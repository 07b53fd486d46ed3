// Copying into a lent list.
ghost use Rattle.std.specs.Prelude.{◌≡◌, ℕ, List, Option, length};
ghost use Rattle.std.specs.List.{slice_get};

// Writes the items to their places, as far as there are any.
pub(crate) fn copy<T: Copy, F: Fn(usize) -> Option<T>>(out: &mut [T], item: F)
    requires callable { F.IsAlwaysCallable item }
    ensures after { (items : List T) → ((i : ℕ) (found : Option T) → F.post item i found → found ≡ slice_get items i) → length out.old ≡ length items → out.new ≡ items }
{
    for (i, place) in out.iter_mut().enumerate() {
        if let Some(found) = item(i) {
            *place = found;
        }
    }
}
