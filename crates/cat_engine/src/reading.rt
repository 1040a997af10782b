//! From a text to its statement.

ghost use Rattle.std.specs.Prelude.{◌≡◌, ◌∷◌, [], ◌↔◌, IsTrue, Ok};
ghost use Rattle.cat_engine.specs.Built.{IsBuilt};
ghost use Rattle.edit_rules.specs.First.{IsTested};
ghost use Rattle.sql_words.specs.Words as spec;
ghost use Rattle.cat_engine.specs.WordRefusals.{Reads, bad_token, not_in_profile, syntax_error};

use cat_items::{EditError, Refusal};
use catalogue_edits::is_edit;
use sql_grammar::{GrammarError, statement};
use sql_tree::Statement;
use sql_words::{Word, WordsError, words};
use std::alloc::Global;

// Whether statements of this kind are built.
fn is_built(statement: &Statement) -> bool
    ensures { IsTrue result ↔ IsBuilt statement.now }
{
    match statement {
        Statement::Connect(_)
        | Statement::SetConnection(_)
        | Statement::Disconnect(_)
        | Statement::SetSchema(_)
        | Statement::SetRole(_)
        | Statement::Select(_) => true,
        edit => is_edit(edit),
    }
}

// The words of a text.
fn words_of(alloc: Global, text: &[u8]) -> Result<Vec<Word>, EditError>
    ensures { IsTested (bad_token text.now ∷ []) (λ words. spec.words_of text.now ≡ Ok words.items) result }
{
    match words(alloc, text) {
        Ok(words) => Ok(words),
        Err(WordsError::BadToken { offset }) => {
            Err(EditError::Refused(Refusal::BadToken { offset }))
        }
        Err(WordsError::Memory) => Err(EditError::Memory),
    }
}

/// The statement that a text is, where its kind is built.
pub fn read(alloc: Global, text: &[u8]) -> Result<Statement, EditError>
    ensures { IsTested (bad_token text.now ∷ not_in_profile text.now ∷ syntax_error text.now ∷ []) (Reads text.now) result }
{
    let words = words_of(alloc, text)?;
    let found = match statement(alloc, &words) {
        Ok(found) => found,
        Err(GrammarError::NotInProfile) => {
            return Err(EditError::Refused(Refusal::NotInProfile));
        }
        Err(GrammarError::Syntax) => return Err(EditError::Refused(Refusal::Syntax)),
        Err(GrammarError::Memory) => return Err(EditError::Memory),
    };
    if !is_built(&found) {
        return Err(EditError::Refused(Refusal::Syntax));
    }
    Ok(found)
}
