ghost use Rattle.std.specs.Prelude.{◌≡◌, ◌+◌, ⊤, [], length, map, Some, None, is_some};

use catalog_lock::Machine;
use std::alloc::Global;

/// One call that was counted.
#[derive(Drop)]
pub struct Call {
    pub session: u32,
    pub text: Vec<u8>,
}

/// It counts calls, but for those whose text begins with one byte, and answers how many there were.
#[derive(Drop)]
pub struct Counter {
    alloc: Global,
    pub skipped: u8,
    pub calls: Vec<Call>,
}

impl Counter {
    pub fn new(alloc: Global, skipped: u8) -> Counter
        ensures { (result.calls.items ≡ []) × (result.skipped ≡ skipped) }
    {
        Counter {
            alloc,
            skipped,
            calls: Vec::new(alloc),
        }
    }
}

impl Machine for Counter {
    ghost use Rattle.catalog_lock.specs.History.{event};

    type Reply = Option<u64>;

    type Made = u8;

    ghost history = { λ c. map (λ call. event call.session call.text.items) c.calls.items };

    ghost made = { λ c. c.skipped };

    ghost takes = { λ _ _. ⊤ };

    ghost step = { λ _ log _ _ reply. reply ≡ Some (length log + 1) };

    ghost keeps = { λ reply. is_some reply };

    ghost may_give = { λ _ _ _ _ reply. reply ≡ None };

    ghost blank = { 0 };

    fn act(&mut self, session: u32, text: &[u8]) -> Option<u64> {
        if text.first() == Some(&self.skipped) {
            return None;
        }
        let text = Vec::from_slice(self.alloc, text).ok()?;
        self.calls.reserve(1).ok()?;
        self.calls.push_reserved(Call { session, text });
        Some(self.calls.len() as u64)
    }

    fn kept(reply: &Option<u64>) -> bool {
        reply.is_some()
    }
}
