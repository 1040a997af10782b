//! What a walk begins with: users, the store of these alone, and statements that are read.

ghost use Rattle.std.specs.Prelude.{◌≡◌, ◌≢◌, ◌≤◌, All, AllPairs, IfOk, length};
ghost use Rattle.cat_items.specs.Shape.{IsAuthorizationName};
ghost use Rattle.statement_forms.specs.Written.{IsWritten};

use cat_items::{Catalogue, Who};
use catalogue_edits::Store;
use sample_texts::sample_texts;
use sql_grammar::statement;
use sql_tree::{Name, Statement, Text};
use sql_words::words;
use std::alloc::{AllocError, Global};
use std::test::Fail;

/// The name of these bytes.
pub fn name(alloc: Global, text: &[u8]) -> Result<Name, Fail>
    ensures { IfOk result (λ name. name ≡ text.now) }
{
    Ok(Name::of(alloc, text)?.ok_or("no name")?)
}

/// The users ALICE, BOB and CAROL.
pub fn users(alloc: Global) -> Result<Vec<Name>, Fail>
    ensures some { IfOk result (λ users. 1 ≤ length users.items) }
    ensures distinct { IfOk result (λ users. AllPairs (λ a b. a ≢ b) users.items) }
    ensures allowed { IfOk result (λ users. All IsAuthorizationName users.items) }
{
    let mut users = Vec::new(alloc);
    users.push(name(alloc, b"ALICE")?)?;
    users.push(name(alloc, b"BOB")?)?;
    users.push(name(alloc, b"CAROL")?)?;
    Ok(users)
}

/// The script of a sample of these users, a statement a line.
pub fn sample(alloc: Global, seed: u64, rounds: u32) -> Result<Text, Fail> {
    let script = sample_texts(alloc, &users(alloc)?, seed, rounds)?;
    let mut out = Text::new(alloc);
    for text in script.texts() {
        out.push_all(text.bytes())?;
        out.push(b'\n')?;
    }
    Ok(out)
}

/// The catalogue of these users alone, with its board.
pub fn opening(alloc: Global) -> Result<Store, Fail> {
    let catalogue = Catalogue::opening(alloc, &users(alloc)?)?;
    Ok(Store::new(alloc, catalogue)?)
}

/// The user of this name, whose default schema is called like him.
pub fn who_is(user: &Name) -> Result<Who, AllocError> {
    Ok(Who {
        user: user.copy()?,
        role: None,
        schema: user.copy()?,
    })
}

/// The statement that a text is.
pub fn read(alloc: Global, text: &[u8]) -> Result<Statement, Fail>
    ensures { IfOk result IsWritten }
{
    let Ok(words) = words(alloc, text) else {
        return Err("no words")?;
    };
    let Ok(statement) = statement(alloc, &words) else {
        return Err("no statement")?;
    };
    Ok(statement)
}
