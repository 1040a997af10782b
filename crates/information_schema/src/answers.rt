//! Answers.

ghost use Rattle.std.specs.Prelude.{◌≡◌, IfSome};
ghost use Rattle.own_places.specs.Places.{HasPlaces};
ghost use Rattle.information_schema.specs.Answers.{Answers, IsAnswerFor};
ghost use Rattle.information_schema.specs.Queries.{refusal};
ghost use Rattle.information_schema.specs.declared.answers.InfoError.TheVariants.{Memory};

use crate::refusals::{no_view, test_query};
use crate::selection::selected;
use crate::views::view_named;
use cat_items::{Catalogue, Row, Who};
use own_places::OwnPlaces;
use role_graph::enabled;
use shown_items::{Session, Viewer, table_rows};
use sql_tree::{InfoQuery, Items, Path};
use std::alloc::{AllocError, Global};

/// The rows of an answer.
#[derive(Drop)]
pub struct Rows {
    pub rows: Items<Row>,
}

/// Why there is no answer.
#[derive(Drop)]
pub enum InfoError {
    /// There is no such view, or no such column of it: by its name behind INFORMATION_SCHEMA.
    UnknownName(Path),
    /// A column of texts is compared with a number, or a column of numbers with a literal.
    TypeMismatch,
    Memory,
}

impl From<AllocError> for InfoError {
    ghost from_gives = { λ _ error. error ≡ Memory };

    fn from(_error: AllocError) -> InfoError {
        InfoError::Memory
    }
}

/// The answer to a SELECT from a view of the Information Schema, for the user and the role of a session (SQL:2003 part 11, 5).
///
/// Rows are in order and each once before the tests and the choice of columns, so an answer may have equal rows. Where the places of the
/// catalogue are known and those of the session are few, a view of neither rights nor roles is answered by a look at these alone. The answer is the same.
pub fn answer(
    alloc: Global,
    c: &Catalogue,
    places: Option<&OwnPlaces>,
    who: &Who,
    query: &InfoQuery,
) -> Result<Rows, InfoError>
    requires { IfSome places (λ places. HasPlaces c.now.items places.now) }
    ensures { Answers result (refusal query.now) (λ answer. IsAnswerFor c.now.items who.now query.now answer.rows) }
{
    let Some(view) = view_named(query.view.bytes()) else {
        return no_view(alloc, &query.view);
    };
    test_query(alloc, view.columns, query)?;
    let names = enabled(alloc, c, who)?;
    let session = Session {
        user: &who.user,
        enabled: names.as_slice(),
    };
    let all = table_rows(alloc, c, Viewer::Session(session), view.table, places)?;
    let rows = selected(alloc, view.columns, query, &all)?;
    Ok(Rows {
        rows: Items::from_vec(rows),
    })
}
