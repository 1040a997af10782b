//! The views, by their names.

ghost use Rattle.std.specs.Prelude.{◌≡◌, ◌+◌, ◌≤◌, ◌^◌, ◌-◌, length, map};
ghost use Rattle.std.specs.Option.{option_map};
ghost use Rattle.information_schema.specs.Views as spec;

use schema_tables::{SchemaTable, Sort, VIEWS};

/// A view: the table that it shows, and its columns.
#[derive(Clone, Copy)]
pub struct View {
    pub table: SchemaTable,
    pub columns: &'static [(&'static [u8], Sort)],
}

/// The first of these views that has this name.
fn view_in(
    views: &[(SchemaTable, &'static [u8], &'static [(&'static [u8], Sort)])],
    name: &[u8],
) -> Option<View>
    ensures { option_map spec.view_of result ≡ spec.view_in (spec.entries_of views.now) name.now }
{
    match views {
        [] => None,
        [view, rest @ ..] => {
            if view.1 == name {
                Some(View {
                    table: view.0,
                    columns: view.2,
                })
            } else {
                view_in(rest, name)
            }
        }
    }
}

/// The view of this name.
#[tactic(auto, unfolding(crate::specs::Views::views))]
pub fn view_named(name: &[u8]) -> Option<View>
    ensures { option_map spec.view_of result ≡ spec.view_named name.now }
{
    view_in(&VIEWS, name)
}

/// The number of a column of this name, from `first`, and what it has.
fn column_from(columns: &[(&[u8], Sort)], name: &[u8], first: usize) -> Option<(usize, Sort)>
    requires { first + length columns.now ≤ 2 ^ 64 - 1 }
    ensures { result ≡ spec.column_from first (spec.columns_of columns.now) name.now }
{
    match columns {
        [] => None,
        [column, rest @ ..] => {
            if column.0 == name {
                Some((first, column.1))
            } else {
                column_from(rest, name, first + 1)
            }
        }
    }
}

/// The number of a column, from 0, and what it has.
pub fn column_named(columns: &[(&[u8], Sort)], name: &[u8]) -> Option<(usize, Sort)>
    ensures { result ≡ spec.column_named (spec.columns_of columns.now) name.now }
{
    column_from(columns, name, 0)
}
