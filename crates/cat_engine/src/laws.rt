//! Laws of the steps of a book, over their definition alone.

ghost use Rattle.std.specs.Prelude.{◌≡◌, ◌≢◌, ◌↔◌, ◌++◌, ◌∷◌, [], ℕ, List, None, Some};
ghost use Rattle.std.specs.List.{Contains};
ghost use Rattle.sql_names.specs.NameBytes.{NameBytes};
ghost use Rattle.cat_items.specs.declared.edit.Refusal.{Refusal};
ghost use Rattle.cat_items.specs.declared.edit.Who.{Who};
ghost use Rattle.cat_items.specs.declared.item.Item.TheVariants.{User};
ghost use Rattle.cat_items.specs.Good.{IsGood};
ghost use Rattle.cat_items.specs.Reach.{Has};
ghost use Rattle.cat_items.specs.Rights.{IsAuthorization};
ghost use Rattle.role_edit.specs.CreatedRoles.{IsTaken};
ghost use Rattle.cat_engine.specs.Connections.{IsProperSession};
ghost use Rattle.cat_engine.specs.Contents.{Content, State};
ghost use Rattle.cat_engine.specs.Effects.{ChangesSession};
ghost use Rattle.cat_engine.specs.Histories.{IsAfter, IsReached, IsReplyAt, EachFindsRoom, IsLegal, IsOpening};
ghost use Rattle.cat_engine.specs.Sessions.{current, session_of, set_for, who_of, with_setting};
ghost use Rattle.cat_items.specs.declared.limits.Limits.{Limits};
ghost use Rattle.cat_engine.specs.Steps.{Step};
ghost use Rattle.cat_engine.specs.declared.journal.Entry.{Entry};
ghost use Rattle.cat_engine.specs.declared.reply.Reply.{Reply};
ghost use Rattle.cat_engine.specs.declared.session.Connection.{Connection};
ghost use Rattle.cat_engine.specs.declared.session.Session.{Session};
ghost use Rattle.cat_engine.specs.declared.session.Setting.{Setting};

/// A state, a session and its text settle the reply and the state after it.
pub fn a_step_is_settled()
    ensures { (old : State) (session : ℕ) (text : List ℕ) (reply other : Reply) (new next : State) → Step old session text reply new
        → Step old session text other next → (reply ≡ other) × (new ≡ next) }
{}

/// A refused statement leaves the catalogue and all connections; the journal gets its entry.
pub fn a_refusal_changes_nothing()
    ensures { (old : State) (session : ℕ) (text : List ℕ) (refusal : Refusal) (new : State) → Step old session text (Reply.Refused refusal) new
        → (new.content ≡ old.content) × (new.journal ≡ old.journal ++ record { session = session; text = text } ∷ []) }
{}

/// A start and a history settle the state after it.
pub fn a_history_settles_its_state()
    ensures { (start : State) (history : List Entry) (one other : State) → IsAfter start history one → IsAfter start history other → one ≡ other }
{}

/// A start and a history settle the reply at each place.
pub fn a_history_settles_its_replies()
    ensures { (start : State) (history : List Entry) (k : ℕ) (reply other : Reply) → IsReplyAt start history k reply → IsReplyAt start history k other → reply ≡ other }
{}

/// Users and limits have one opening: the catalogue of these users alone, no connection and an empty journal.
pub fn users_and_limits_have_one_opening()
    ensures { (users : List NameBytes) (limits : Limits) (one other : State) → IsOpening users limits one → IsOpening users limits other → one ≡ other }
{}

/// The journal after a legal history from an opening is that history.
pub fn the_journal_is_the_history()
    ensures { (users : List NameBytes) (limits : Limits) (start state : State) (history : List Entry) → IsOpening users limits start → IsLegal limits history
        → IsAfter start history state → state.journal ≡ history }
{}

/// A history from an opening is legal exactly where each of its texts is a statement's and, at its place, doesn't find the
/// journal full.
pub fn a_legal_history_finds_room()
    ensures { (users : List NameBytes) (limits : Limits) (start state : State) (history : List Entry) → IsOpening users limits start → IsAfter start history state
        → (IsLegal limits history ↔ EachFindsRoom start history) }
{}

/// In each state that a book reaches, the connections of a session have names of their own, and the current one is one
/// of them (SQL:2003 part 2, 17).
pub fn connections_have_their_own_names()
    ensures { (state : State) → IsReached state → (number : ℕ) → IsProperSession (session_of state.content.sessions number) }
{}

/// In each state that a book reaches the catalogue is good: it holds exactly what finite chains of support hold of it and of
/// the rights that the system could grant for it, and has the shape of a catalogue.
pub fn reached_states_are_good()
    ensures { (state : State) → IsReached state → IsGood state.content.catalogue }
{}

/// No statement makes, changes or destroys a user: those of each state that a book reaches are those that it opened with.
pub fn users_are_those_of_the_opening()
    ensures { (state : State) → IsReached state → (name : NameBytes) → Contains state.content.catalogue (User name) ↔ Contains state.users name }
{}

/// In each state that a book reaches, whom a session's current connection is for is a user of the catalogue.
pub fn connected_users_stand()
    ensures { (state : State) → IsReached state → (number : ℕ) (who : Who) → who_of state.content.sessions number ≡ Some who
        → Contains state.content.catalogue (User who.user) }
{}

/// So a name is taken for CREATE ROLE exactly where a user or a role of the catalogue has it.
pub fn taken_roles_are_those_that_stand()
    ensures { (state : State) → IsReached state → (number : ℕ) (who : Who) → who_of state.content.sessions number ≡ Some who → (name : NameBytes)
        → IsTaken state.content.catalogue who name ↔ Has state.content.catalogue (IsAuthorization name) }
{}

/// A statement on connections changes the session of its own number, and all others stay (SQL:2003 part 2, 17).
pub fn a_session_changes_alone()
    ensures own { (number : ℕ) (change : Session → Session) (old new : Content) → ChangesSession number change old new
        → session_of new.sessions number ≡ change (session_of old.sessions number) }
    ensures others { (number other : ℕ) (change : Session → Session) (old new : Content) → other ≢ number → ChangesSession number change old new
        → session_of new.sessions other ≡ session_of old.sessions other }
{}

/// What SET SCHEMA and SET ROLE set is so for the session's current connection; where there is none, nothing is set (SQL:2003 part 2, 18).
pub fn a_setting_is_that_of_the_current_connection()
    ensures set { (session : Session) (setting : Setting) (c : Connection) → current session ≡ Some c → current (set_for session setting) ≡ Some (with_setting setting c) }
    ensures nothing { (session : Session) (setting : Setting) → current session ≡ None → set_for session setting ≡ session }
{}
