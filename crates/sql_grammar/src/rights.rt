//! Privileges, their targets, grantees and grantors.

ghost use Rattle.std.specs.Prelude.{◌≡◌, Some};
ghost use Rattle.std.specs.List.{list_all};
ghost use Rattle.sql_spelling.specs.declared.kind.Kind.TheVariants as k;
ghost use Rattle.sql_phrases.specs.Parsers.{Reads, separated};
ghost use Rattle.sql_grammar.specs.RightsRules as rules;
ghost use Rattle.sql_grammar.specs.RightsParsers as spec;

use sql_phrases::{GrammarError, Reader, columns, identifier, object_name};
use sql_tree::{
    Action, Behaviour, Grantee, Grantor, Items, Privilege, Privileges, Target, TargetKind,
};
use sql_words::{Kind, is_name, kind_of, same_kind};
use std::alloc::Global;

/// `[RESTRICT | CASCADE]`
#[tactic(auto, unfolding(crate::specs::RightsParsers::behaviour))]
pub fn behaviour(words: &mut Reader<'_>) -> Behaviour
    ensures { spec.behaviour words.old ≡ Some (result, words.new) }
{
    if words.eat(Kind::Cascade) {
        return Behaviour::Cascade;
    }
    words.eat(Kind::Restrict);
    Behaviour::Restrict
}

#[tactic(auto, unfolding(crate::specs::RightsParsers::grantor))]
fn grantor(words: &mut Reader<'_>) -> Result<Grantor, GrammarError>
    ensures { Reads (spec.grantor words.old) result words.new }
{
    if words.eat(Kind::CurrentUser) {
        return Ok(Grantor::CurrentUser);
    }
    words.expect(Kind::CurrentRole)?;
    Ok(Grantor::CurrentRole)
}

/// A word, and a grantor after it.
#[tactic(auto, unfolding(crate::specs::RightsParsers::grantor_after))]
pub fn grantor_after(words: &mut Reader<'_>, by: Kind) -> Result<Grantor, GrammarError>
    ensures { Reads (spec.grantor_after by words.old) result words.new }
{
    words.expect(by)?;
    grantor(words)
}

/// `[GRANTED BY grantor]`
#[tactic(auto, unfolding(crate::specs::RightsParsers::granted_by, sql_phrases::specs::Parsers::optional))]
pub fn granted_by(words: &mut Reader<'_>) -> Result<Option<Grantor>, GrammarError>
    ensures { Reads (spec.granted_by words.old) result words.new }
{
    if words.eat(Kind::Granted) {
        Ok(Some(grantor_after(words, Kind::By)?))
    } else {
        Ok(None)
    }
}

#[tactic(auto, unfolding(crate::specs::RightsParsers::grantee))]
fn grantee(alloc: Global, words: &mut Reader<'_>) -> Result<Grantee, GrammarError>
    ensures { Reads (spec.grantee words.old) result words.new }
{
    if words.eat(Kind::Public) {
        return Ok(Grantee::Public);
    }
    Ok(Grantee::Named(identifier(alloc, words)?))
}

/// Grantees with commas between them.
#[tactic(auto, unfolding(sql_phrases::specs::Parsers::separated), using(sql_phrases::proofs::Turns::separated_step, sql_phrases::proofs::Turns::separated_done))]
pub fn grantees(alloc: Global, words: &mut Reader<'_>) -> Result<Items<Grantee>, GrammarError>
    ensures { Reads (separated k.Comma spec.grantee words.old) result words.new }
{
    let mut found = Items::new(alloc);
    for _turn in 0..words.len() {
        found.push(grantee(alloc, words)?)?;
        if !words.eat(Kind::Comma) {
            return Ok(found);
        }
    }
    Err(GrammarError::Syntax)
}

// An action and its columns, after the word that says it.
fn on_columns(
    alloc: Global,
    words: &mut Reader<'_>,
    action: Action,
) -> Result<Privilege, GrammarError>
    ensures { Reads (spec.on_columns action words.old) result words.new }
{
    words.take();
    Ok(Privilege {
        action,
        columns: columns(alloc, words)?,
    })
}

// An action without columns.
fn on_all(alloc: Global, words: &mut Reader<'_>, action: Action) -> Privilege
    ensures { spec.on_all action words.old ≡ Some (result, words.new) }
{
    words.take();
    Privilege {
        action,
        columns: Items::new(alloc),
    }
}

#[tactic(auto, unfolding(crate::specs::RightsParsers::privilege))]
fn privilege(alloc: Global, words: &mut Reader<'_>) -> Result<Privilege, GrammarError>
    ensures { Reads (spec.privilege words.old) result words.new }
{
    match words.peek() {
        Kind::Select => Ok(on_columns(alloc, words, Action::Select)?),
        Kind::Insert => Ok(on_columns(alloc, words, Action::Insert)?),
        Kind::Update => Ok(on_columns(alloc, words, Action::Update)?),
        Kind::References => Ok(on_columns(alloc, words, Action::References)?),
        Kind::Delete => Ok(on_all(alloc, words, Action::Delete)),
        Kind::Usage => Ok(on_all(alloc, words, Action::Usage)),
        Kind::Execute => Ok(on_all(alloc, words, Action::Execute)),
        _ => Err(GrammarError::Syntax),
    }
}

#[tactic(auto, unfolding(sql_phrases::specs::Parsers::separated), using(sql_phrases::proofs::Turns::separated_step, sql_phrases::proofs::Turns::separated_done))]
fn listed(alloc: Global, words: &mut Reader<'_>) -> Result<Items<Privilege>, GrammarError>
    ensures { Reads (separated k.Comma spec.privilege words.old) result words.new }
{
    let mut found = Items::new(alloc);
    for _turn in 0..words.len() {
        found.push(privilege(alloc, words)?)?;
        if !words.eat(Kind::Comma) {
            return Ok(found);
        }
    }
    Err(GrammarError::Syntax)
}

#[tactic(auto, unfolding(crate::specs::RightsParsers::privileges))]
fn privileges(alloc: Global, words: &mut Reader<'_>) -> Result<Privileges, GrammarError>
    ensures { Reads (spec.privileges words.old) result words.new }
{
    if words.eat(Kind::All) {
        words.expect(Kind::Privileges)?;
        return Ok(Privileges::All);
    }
    Ok(Privileges::Listed(listed(alloc, words)?))
}

fn target_kind_by(kind: Kind, named: bool) -> Option<TargetKind>
    ensures { result ≡ spec.target_kind_by kind named }
{
    match kind {
        Kind::Table => Some(TargetKind::Table),
        Kind::Function => Some(TargetKind::Function),
        Kind::Procedure => Some(TargetKind::Procedure),
        Kind::Domain if named => Some(TargetKind::Domain),
        Kind::Routine if named => Some(TargetKind::Routine),
        _ => None,
    }
}

#[tactic(auto, unfolding(crate::specs::RightsParsers::target_kind, sql_phrases::specs::NameParsers::sees_name))]
fn target_kind(words: &mut Reader<'_>) -> TargetKind
    ensures { spec.target_kind words.old ≡ Some (result, words.new) }
{
    match target_kind_by(words.peek(), is_name(words.peek_after())) {
        Some(kind) => {
            words.take();
            kind
        }
        None => TargetKind::Table,
    }
}

#[tactic(auto, unfolding(crate::specs::RightsParsers::target))]
fn target(alloc: Global, words: &mut Reader<'_>) -> Result<Target, GrammarError>
    ensures { Reads (spec.target words.old) result words.new }
{
    let kind = target_kind(words);
    Ok(Target {
        kind,
        object: object_name(alloc, words)?,
    })
}

fn is_action_on(kind: TargetKind, action: Action) -> bool
    ensures { result ≡ rules.is_action_on kind action }
{
    match kind {
        TargetKind::Table => matches!(
            action,
            Action::Select | Action::Insert | Action::Update | Action::Delete | Action::References
        ),
        TargetKind::Domain => matches!(action, Action::Usage),
        TargetKind::Function | TargetKind::Procedure | TargetKind::Routine => {
            matches!(action, Action::Execute)
        }
    }
}

fn all_fit(kind: TargetKind, listed: &[Privilege]) -> bool
    ensures { result ≡ list_all (λ p. rules.is_action_on kind p.action) listed.now }
{
    let mut left = listed;
    while let [privilege, rest @ ..] = left {
        if !is_action_on(kind, privilege.action) {
            return false;
        }
        left = rest;
    }
    true
}

fn fit(kind: TargetKind, privileges: &Privileges) -> bool
    ensures { result ≡ rules.fit kind privileges.now }
{
    match privileges {
        Privileges::All => true,
        Privileges::Listed(listed) => all_fit(kind, listed.as_slice()),
    }
}

/// `privileges ON target`
#[tactic(auto, unfolding(crate::specs::RightsParsers::privileges_on, crate::specs::RightsParsers::fitting))]
pub fn privileges_on(
    alloc: Global,
    words: &mut Reader<'_>,
) -> Result<(Privileges, Target), GrammarError>
    ensures { Reads (spec.privileges_on words.old) result words.new }
{
    let privileges = privileges(alloc, words)?;
    words.expect(Kind::On)?;
    let target = target(alloc, words)?;
    if !fit(target.kind, &privileges) {
        return Err(GrammarError::Syntax);
    }
    Ok((privileges, target))
}

/// `[WITH GRANT OPTION]` or `[WITH ADMIN OPTION]`
#[tactic(auto, unfolding(crate::specs::RightsParsers::with_option))]
pub fn with_option(words: &mut Reader<'_>, what: Kind) -> Result<bool, GrammarError>
    ensures { Reads (spec.with_option what words.old) result words.new }
{
    if !words.eat(Kind::With) {
        return Ok(false);
    }
    words.expect(what)?;
    words.expect(Kind::Option)?;
    Ok(true)
}

/// `[GRANT OPTION FOR]` or `[ADMIN OPTION FOR]`
#[tactic(auto, unfolding(crate::specs::RightsParsers::option_for))]
pub fn option_for(words: &mut Reader<'_>, what: Kind) -> Result<bool, GrammarError>
    ensures { Reads (spec.option_for what words.old) result words.new }
{
    if !words.eat(what) {
        return Ok(false);
    }
    words.expect(Kind::Option)?;
    words.expect(Kind::For)?;
    Ok(true)
}

/// Whether a list of names comes next, and then a word of this kind. It reads nothing.
pub fn names_then(words: &Reader<'_>, by: Kind) -> bool
    ensures { result ≡ spec.names_then by words.now }
{
    let mut left = words.left();
    while let [name, after, rest @ ..] = left {
        if !is_name(kind_of(name)) {
            return false;
        }
        let kind = kind_of(after);
        if !same_kind(kind, Kind::Comma) {
            return same_kind(kind, by);
        }
        left = rest;
    }
    false
}
