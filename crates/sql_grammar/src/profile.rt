//! Statements of SQL that the profile leaves out.

ghost use Rattle.std.specs.Prelude.{◌≡◌};
ghost use Rattle.sql_grammar.specs.Profile as spec;

use sql_words::Kind;

fn after_alter(kind: Kind) -> bool
    ensures { result ≡ spec.after_alter kind }
{
    matches!(
        kind,
        Kind::Routine | Kind::Function | Kind::Procedure | Kind::Type_ | Kind::Sequence
    )
}

fn after_create(kind: Kind) -> bool
    ensures { result ≡ spec.after_create kind }
{
    matches!(
        kind,
        Kind::Cast
            | Kind::Character
            | Kind::Collation
            | Kind::Global
            | Kind::Local
            | Kind::Method
            | Kind::Ordering
            | Kind::Recursive
            | Kind::Sequence
            | Kind::Transform
            | Kind::Translation
            | Kind::Trigger
            | Kind::Type_
    )
}

fn after_drop(kind: Kind) -> bool
    ensures { result ≡ spec.after_drop kind }
{
    matches!(
        kind,
        Kind::Cast
            | Kind::Character
            | Kind::Collation
            | Kind::Ordering
            | Kind::Sequence
            | Kind::Transform
            | Kind::Translation
            | Kind::Trigger
            | Kind::Type_
    )
}

fn after_set(kind: Kind) -> bool
    ensures { result ≡ spec.after_set kind }
{
    matches!(
        kind,
        Kind::Catalog
            | Kind::Constraints
            | Kind::Local
            | Kind::Names
            | Kind::Path
            | Kind::Session
            | Kind::Time
            | Kind::Transaction
    )
}

/// Whether a statement that the profile leaves out begins with these two words.
pub fn begins_other(first: Kind, second: Kind) -> bool
    ensures { result ≡ spec.begins_other first second }
{
    match first {
        Kind::Call
        | Kind::Commit
        | Kind::Declare
        | Kind::Delete
        | Kind::Insert
        | Kind::Merge
        | Kind::Release
        | Kind::Rollback
        | Kind::Savepoint
        | Kind::Start
        | Kind::Update
        | Kind::Values
        | Kind::With => true,
        Kind::Alter => after_alter(second),
        Kind::Create => after_create(second),
        Kind::Drop => after_drop(second),
        Kind::Set => after_set(second),
        _ => false,
    }
}
