//! The place in a file that keeps its hold.

ghost use Rattle.std.specs.Prelude.{◌≡◌, Some, None};

/// Puts the hold into an empty place.
pub(crate) fn put_back<H>(place: &mut Option<H>, hold: H)
    requires empty { place.old ≡ None }
    ensures there { place.new ≡ Some hold }
{
    match place.replace(hold) {
        None => {}
        Some(_other) => unreachable!(),
    }
}
