//! Items of a slice.
ghost use Rattle.std.specs.Prelude.{◌≡◌, ◌<◌, length, slice_get, Some};

/// The item at `i`.
pub fn item<T: Copy>(items: &[T], i: usize) -> T
    requires { i < length items.now }
    ensures { slice_get items.now i ≡ Some result }
{
    items[i]
}
