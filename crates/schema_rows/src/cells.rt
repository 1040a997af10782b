//! Values of rows. Each `push_` function puts values at the end of a row.

ghost use Rattle.std.specs.Prelude.{◌≡◌, ◌++◌, ◌∷◌, [], OnOk, slice_get};
ghost use Rattle.std.specs.Option.{option_copied};
ghost use Rattle.cat_items.specs.declared.row.Cell.TheVariants as cell;
ghost use Rattle.schema_tables.specs.Cells as spec;
ghost use Rattle.sql_text.specs.Printing.{expr_text};
ghost use Rattle.cat_items.specs.ItemTexts.{action_text};

use cat_items::{Auth, Cell, Row};
use sql_text::{print_body, print_expr, print_query, put_default};
use sql_tree::{
    Action, Body, Default, Expr, Matching, Name, Object, Path, Query, Rule, SqlType, Text,
};
use std::alloc::{AllocError, Global};

/// A text of these bytes.
pub fn push_words(alloc: Global, row: &mut Row, bytes: &[u8]) -> Result<(), AllocError>
    ensures { OnOk result (row.new ≡ row.old ++ cell.Words bytes.now ∷ []) }
{
    row.push(Cell::Words(Text::of(alloc, bytes)?))
}

/// A name, as the text of its bytes.
pub fn push_name(alloc: Global, row: &mut Row, name: &Name) -> Result<(), AllocError>
    ensures { OnOk result (row.new ≡ row.old ++ cell.Words name.now ∷ []) }
{
    push_words(alloc, row, name.bytes())
}

/// The two names of an object.
pub fn push_object(alloc: Global, row: &mut Row, object: &Object) -> Result<(), AllocError>
    ensures { OnOk result (row.new ≡ row.old ++ spec.object_cells object.now) }
{
    push_name(alloc, row, &object.schema)?;
    push_name(alloc, row, &object.name)
}

/// The name at a place of a path, if it has so many.
fn push_name_at(alloc: Global, row: &mut Row, path: &Path, at: usize) -> Result<(), AllocError>
    ensures { OnOk result (row.new ≡ row.old ++ spec.optional_name_cells (slice_get path.now at)) }
{
    match path.get(at) {
        None => Ok(()),
        Some(name) => push_name(alloc, row, name),
    }
}

/// The names of a path.
pub fn push_path(alloc: Global, row: &mut Row, path: &Path) -> Result<(), AllocError>
    ensures { OnOk result (row.new ≡ row.old ++ spec.path_cells path.now) }
{
    let few = path.len();
    prove!(few <= 3);
    push_name_at(alloc, row, path, 0)?;
    push_name_at(alloc, row, path, 1)?;
    push_name_at(alloc, row, path, 2)
}

/// YES or NO.
pub fn push_yes(alloc: Global, row: &mut Row, yes: bool) -> Result<(), AllocError>
    ensures { OnOk result (row.new ≡ row.old ++ spec.yes_cell yes ∷ []) }
{
    if yes {
        push_words(alloc, row, b"YES")
    } else {
        push_words(alloc, row, b"NO")
    }
}

/// An authorization identifier.
pub fn push_auth(alloc: Global, row: &mut Row, auth: &Auth) -> Result<(), AllocError>
    ensures { OnOk result (row.new ≡ row.old ++ spec.auth_cell auth.now ∷ []) }
{
    match auth {
        Auth::System => push_words(alloc, row, b"_SYSTEM"),
        Auth::Public => push_words(alloc, row, b"PUBLIC"),
        Auth::Named(name) => push_name(alloc, row, name),
    }
}

/// The two names of an object, or two nulls.
pub fn push_optional_object(
    alloc: Global,
    row: &mut Row,
    object: Option<&Object>,
) -> Result<(), AllocError>
    ensures { OnOk result (row.new ≡ row.old ++ spec.optional_object_cells (option_copied object.entry)) }
{
    match object {
        None => {
            row.push(Cell::Null)?;
            row.push(Cell::Null)
        }
        Some(object) => push_object(alloc, row, object),
    }
}

/// A default, or null.
pub fn push_default(
    alloc: Global,
    row: &mut Row,
    default: Option<&Default>,
) -> Result<(), AllocError>
    ensures { OnOk result (row.new ≡ row.old ++ spec.default_cell (option_copied default.entry) ∷ []) }
{
    match default {
        None => row.push(Cell::Null),
        Some(default) => {
            let mut text = Text::new(alloc);
            put_default(&mut text, default)?;
            row.push(Cell::Words(text))
        }
    }
}

fn type_name(sort: SqlType) -> &'static [u8]
    ensures { result.now ≡ spec.type_name sort }
{
    match sort {
        SqlType::Character { .. } => b"CHARACTER",
        SqlType::CharacterVarying { .. } => b"CHARACTER VARYING",
        SqlType::Numeric { .. } => b"NUMERIC",
        SqlType::Decimal { .. } => b"DECIMAL",
        SqlType::Smallint => b"SMALLINT",
        SqlType::Integer => b"INTEGER",
        SqlType::Bigint => b"BIGINT",
        SqlType::Boolean => b"BOOLEAN",
        SqlType::Date => b"DATE",
        SqlType::Time { .. } => b"TIME",
        SqlType::Timestamp { .. } => b"TIMESTAMP",
    }
}

/// The name of a type.
pub fn push_type_name(alloc: Global, row: &mut Row, sort: SqlType) -> Result<(), AllocError>
    ensures { OnOk result (row.new ≡ row.old ++ cell.Words (spec.type_name sort) ∷ []) }
{
    push_words(alloc, row, type_name(sort))
}

fn number(n: Option<u32>) -> Cell
    ensures { result ≡ spec.number_cell n }
{
    match n {
        None => Cell::Null,
        Some(n) => Cell::Number(n as u64),
    }
}

fn push_numbers(
    row: &mut Row,
    length: Option<u32>,
    precision: Option<u32>,
    scale: Option<u32>,
    moment: Option<u32>,
) -> Result<(), AllocError>
    ensures { OnOk result (row.new ≡ row.old ++ spec.number_cell length ∷ spec.number_cell precision ∷ spec.number_cell scale ∷ spec.number_cell moment ∷ []) }
{
    row.push(number(length))?;
    row.push(number(precision))?;
    row.push(number(scale))?;
    row.push(number(moment))
}

/// The numbers of a type: a length, a precision and a scale, and a precision of times.
fn push_type_numbers(row: &mut Row, sort: SqlType) -> Result<(), AllocError>
    ensures { OnOk result (row.new ≡ row.old ++ spec.type_numbers sort) }
{
    match sort {
        SqlType::Character { length } => push_numbers(row, Some(length), None, None, None),
        SqlType::CharacterVarying { length } => push_numbers(row, Some(length), None, None, None),
        SqlType::Numeric { precision, scale } => push_numbers(
            row,
            None,
            Some(precision),
            Some(scale),
            None,
        ),
        SqlType::Decimal { precision, scale } => push_numbers(
            row,
            None,
            Some(precision),
            Some(scale),
            None,
        ),
        SqlType::Smallint => push_numbers(row, None, Some(5), Some(0), None),
        SqlType::Integer => push_numbers(row, None, Some(10), Some(0), None),
        SqlType::Bigint => push_numbers(row, None, Some(19), Some(0), None),
        SqlType::Boolean => push_numbers(row, None, None, None, None),
        SqlType::Date => push_numbers(row, None, None, None, Some(0)),
        SqlType::Time { precision } => push_numbers(row, None, None, None, Some(precision)),
        SqlType::Timestamp { precision } => push_numbers(row, None, None, None, Some(precision)),
    }
}

/// The name of a type, and its numbers.
pub fn push_type(alloc: Global, row: &mut Row, sort: SqlType) -> Result<(), AllocError>
    ensures { OnOk result (row.new ≡ row.old ++ spec.type_cells sort) }
{
    push_type_name(alloc, row, sort)?;
    push_type_numbers(row, sort)
}

/// The text of a query, or null.
pub fn push_query(alloc: Global, row: &mut Row, query: Option<&Query>) -> Result<(), AllocError>
    ensures { OnOk result (row.new ≡ row.old ++ spec.query_cell (option_copied query.entry) ∷ []) }
{
    match query {
        None => row.push(Cell::Null),
        Some(query) => row.push(Cell::Words(print_query(alloc, query)?)),
    }
}

/// The text of a body, or null.
pub fn push_body(alloc: Global, row: &mut Row, body: Option<&Body>) -> Result<(), AllocError>
    ensures { OnOk result (row.new ≡ row.old ++ spec.body_cell (option_copied body.entry) ∷ []) }
{
    match body {
        None => row.push(Cell::Null),
        Some(body) => row.push(Cell::Words(print_body(alloc, body)?)),
    }
}

/// The text of a condition.
pub fn push_expr(alloc: Global, row: &mut Row, condition: &Expr) -> Result<(), AllocError>
    ensures { OnOk result (row.new ≡ row.old ++ cell.Words (expr_text condition.now) ∷ []) }
{
    row.push(Cell::Words(print_expr(alloc, condition)?))
}

/// MATCH_OPTION
pub fn push_matching(alloc: Global, row: &mut Row, matching: Matching) -> Result<(), AllocError>
    ensures { OnOk result (row.new ≡ row.old ++ spec.matching_cell matching ∷ []) }
{
    match matching {
        Matching::Simple => push_words(alloc, row, b"SIMPLE"),
        Matching::Full => push_words(alloc, row, b"FULL"),
        Matching::Partial => push_words(alloc, row, b"PARTIAL"),
    }
}

fn rule_bytes(rule: Rule) -> &'static [u8]
    ensures { result.now ≡ spec.rule_name rule }
{
    match rule {
        Rule::NoAction => b"NO ACTION",
        Rule::Cascade => b"CASCADE",
        Rule::SetNull => b"SET NULL",
        Rule::SetDefault => b"SET DEFAULT",
        Rule::Restrict => b"RESTRICT",
    }
}

fn action_bytes(action: Action) -> &'static [u8]
    ensures { result.now ≡ action_text action }
{
    match action {
        Action::Select => b"SELECT",
        Action::Insert => b"INSERT",
        Action::Update => b"UPDATE",
        Action::Delete => b"DELETE",
        Action::References => b"REFERENCES",
        Action::Usage => b"USAGE",
        Action::Execute => b"EXECUTE",
        Action::Admin => b"ADMIN OPTION",
    }
}

/// PRIVILEGE_TYPE
pub fn push_action(alloc: Global, row: &mut Row, action: Action) -> Result<(), AllocError>
    ensures { OnOk result (row.new ≡ row.old ++ spec.action_cell action ∷ []) }
{
    push_words(alloc, row, action_bytes(action))
}

/// UPDATE_RULE or DELETE_RULE
pub fn push_rule(alloc: Global, row: &mut Row, rule: Rule) -> Result<(), AllocError>
    ensures { OnOk result (row.new ≡ row.old ++ spec.rule_cell rule ∷ []) }
{
    push_words(alloc, row, rule_bytes(rule))
}
