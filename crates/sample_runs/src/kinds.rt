//! Replies of each kind, counted.

ghost use Rattle.std.specs.Prelude.{◌≡◌, count_by};
ghost use Rattle.sample_runs.specs.Kinds.{is_of};

use sessions::Reply;

/// The kind of a reply, as its line begins.
#[derive(Clone, Copy, Debug)]
pub enum Kind {
    Ok,
    Warn,
    Rows,
    Err,
}

// Whether a reply is of this kind.
#[tactic(auto, unfolding(crate::specs::Kinds::is_of))]
fn is_of(kind: Kind, reply: &Reply) -> bool
    ensures { result ≡ is_of kind reply.now }
{
    match (kind, reply) {
        (Kind::Ok, Reply::Ok)
        | (Kind::Warn, Reply::Warn(_))
        | (Kind::Rows, Reply::Rows(_))
        | (Kind::Err, Reply::Refused(_) | Reply::JournalFull { .. }) => true,
        _ => false,
    }
}

// How many of these replies are of this kind.
pub fn count_of(kind: Kind, replies: &[Reply]) -> usize
    ensures { result ≡ count_by (is_of kind) replies.now }
{
    let mut count = 0;
    for reply in replies {
        if is_of(kind, reply) {
            count += 1;
        }
    }
    count
}
