//! Entries of the journal.

ghost use Rattle.std.specs.Prelude.{◌≡◌, ◌+◌, ◌++◌, ◌∷◌, [], ◌<◌, vec_len};
ghost use Rattle.std.specs.Vec.{vec_capacity};

use sql_tree::Text;

/// A statement that was answered: the session's number, and the text without its semicolon.
#[derive(Drop)]
pub struct Entry {
    pub session: u32,
    pub text: Text,
}

/// Puts an entry at the end, where there is room.
pub fn enter(journal: &mut Vec<Entry>, entry: Entry)
    requires { vec_len journal.old < vec_capacity journal.old }
    ensures { journal.new.items ≡ journal.old.items ++ entry ∷ [] }
{
    if journal.push(entry).is_err() {
        unreachable!();
    }
}
