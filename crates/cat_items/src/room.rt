//! Changes of a list that take no memory.

ghost use Rattle.std.specs.Prelude.{◌≡◌, ◌+◌, ◌++◌, ◌≤◌, ◌<◌, vec_len, insert};
ghost use Rattle.std.specs.Vec.{vec_capacity};

/// Puts in an element where there is room.
pub fn insert_in_room<T: Drop>(items: &mut Vec<T>, at: usize, item: T)
    requires within { at ≤ vec_len items.old }
    requires room { vec_len items.old < vec_capacity items.old }
    ensures items { items.new.items ≡ insert items.old.items at item }
    ensures len { vec_len items.new ≡ vec_len items.old + 1 }
    ensures capacity { vec_capacity items.new ≡ vec_capacity items.old }
{
    let _ = items.insert(at, item);
}

/// Puts elements at the end where there is room.
pub fn append_in_room<T: Drop>(items: &mut Vec<T>, mut more: Vec<T>)
    requires { vec_len items.old + vec_len more ≤ vec_capacity items.old }
    ensures items { items.new.items ≡ items.old.items ++ more.items }
    ensures len { vec_len items.new ≡ vec_len items.old + vec_len more }
    ensures capacity { vec_capacity items.old ≤ vec_capacity items.new }
{
    let _ = items.append(&mut more);
}
