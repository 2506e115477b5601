//! The front of an array that C is told by.
ghost use Rattle.std.specs.Prelude.{◌≡◌, ◌≤◌, ◌++◌, length, drop};

/// Copies elements to the front of an array.
pub fn put_front<T: Copy>(elements: &[T], array: &mut [T])
    requires { length elements.now ≤ length array.old }
    ensures { array.new ≡ elements.now ++ drop (length elements.now) array.old }
{
    array[..elements.len()].copy_from_slice(elements);
}
