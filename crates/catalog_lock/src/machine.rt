ghost use Rattle.std.specs.Prelude.{◌≡◌, ◌≤◌, ◌^◌, ◌++◌, ◌∷◌, [], length, MatchBool};
ghost use Rattle.catalog_lock.specs.History.{event};

/// A sequential object with a journal, which sessions can share.
///
/// An event is a call that was kept, with its session's number and its text. A machine's history is never longer than
/// 2^63 events, which each `act` has to keep.
pub trait Machine {
    ghost use Rattle.std.specs.Prelude.{ℕ, Bool, List};
    ghost use Rattle.catalog_lock.specs.declared.history.Event.{Event};

    /// What a call answers.
    type Reply;

    /// What a machine is made with, as its limits: plain data, which no call changes.
    type Made;

    /// The events so far.
    ghost history: { Self → List Event };

    /// What this machine was made with.
    ghost made: { Self → Self.Made };

    /// The texts that a machine takes.
    ghost takes: { Self.Made → List ℕ → Type 0 };

    /// The replies of the sequential object to a session's text after a history.
    ghost step: { Self.Made → List Event → ℕ → List ℕ → Self.Reply → Type 0 };

    /// The replies that make an event.
    ghost keeps: { Self.Reply → Bool };

    /// The replies that a machine may give to a session's text after a history and make no event, as where memory is wanting.
    ghost may_give: { Self.Made → List Event → ℕ → List ℕ → Self.Reply → Type 0 };

    /// Any value of that type, which means nothing: it stands in the view of a pass that ended.
    ghost blank: { Self.Made };

    /// Makes a call. It appends one event exactly where its reply is kept, and else leaves the history as it was.
    fn act(&mut self, session: u32, text: &[u8]) -> Self::Reply
        requires takes { takes (made self.old) text.now }
        ensures event { MatchBool (keeps result)
            ((history self.new ≡ history self.old ++ event session text.now ∷ []) × step (made self.old) (history self.old) session text.now result)
            ((history self.new ≡ history self.old) × may_give (made self.old) (history self.old) session text.now result) }
        ensures made { made self.new ≡ made self.old }
        ensures room { length (history self.new) ≤ 2 ^ 63 };

    /// Whether a reply makes an event.
    fn kept(reply: &Self::Reply) -> bool
        ensures { result ≡ keeps reply.now };
}
