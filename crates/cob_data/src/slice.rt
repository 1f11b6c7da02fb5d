//! The front of a list, and what follows it.
ghost use Rattle.std.specs.Prelude.{◌≡◌, ◌≤◌, ◌-◌, take, drop, length};

/// What follows so many elements.
pub fn behind<T>(list: &[T], count: usize) -> &[T]
    ensures value { result.now ≡ drop count list.now }
    ensures len { length result.now ≡ length list.now - count }
{
    if count < list.len() {
        &list[count..]
    } else {
        &list[list.len()..]
    }
}

/// So many elements at the beginning.
pub fn front<T>(list: &[T], count: usize) -> &[T]
    requires { count ≤ length list.now }
    ensures value { result.now ≡ take count list.now }
    ensures len { length result.now ≡ count }
{
    &list[..count]
}
