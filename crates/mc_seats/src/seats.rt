// A thing taken out of a list of things that can't be let go, and another put in its place.
ghost use Rattle.std.specs.Prelude.{◌≡◌, ◌<◌, ◌≤◌, ◌+◌, ◌∷◌, Some, slice_get, vec_len, vec_capacity};
ghost use Rattle.std.specs.List.{insert, remove};

/// Takes the thing at a place out.
pub fn take_at<T>(things: &mut Vec<T>, at: usize) -> T
    requires { at < vec_len things.old }
    ensures taken { slice_get things.old.items at ≡ Some result }
    ensures items { things.new.items ≡ remove things.old.items at }
    ensures len { at ≤ vec_len things.new }
    ensures room { vec_len things.new < vec_capacity things.new }
{
    things.remove(at)
}

// Takes the first thing out.
pub(crate) fn take_first<T>(things: &mut Vec<T>) -> T
    requires { 0 < vec_len things.old }
    ensures items { things.old.items ≡ result ∷ things.new.items }
    ensures len { vec_len things.new + 1 ≡ vec_len things.old }
    ensures capacity { vec_capacity things.new ≡ vec_capacity things.old }
{
    things.remove(0)
}

// Puts a thing before all. Takes no memory.
pub(crate) fn put_first<T>(things: &mut Vec<T>, thing: T)
    requires room { vec_len things.old < vec_capacity things.old }
    ensures items { things.new.items ≡ thing ∷ things.old.items }
    ensures len { vec_len things.new ≡ vec_len things.old + 1 }
    ensures capacity { vec_capacity things.new ≡ vec_capacity things.old }
{
    match things.insert(0, thing) {
        Ok(()) => (),
        Err(_failed) => unreachable!(),
    }
}

/// Puts a thing in at a place. Takes no memory.
pub fn put_at<T>(things: &mut Vec<T>, at: usize, thing: T)
    requires len { at ≤ vec_len things.old }
    requires room { vec_len things.old < vec_capacity things.old }
    ensures { things.new.items ≡ insert things.old.items at thing }
{
    match things.insert(at, thing) {
        Ok(()) => (),
        Err(_failed) => unreachable!(),
    }
}
