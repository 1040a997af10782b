//! What is said of columns (column definition, SQL:2003 part 2, 11.4).

ghost use Rattle.std.specs.Prelude.{◌≡◌, ◌↔◌, IsTrue, Contains};
ghost use Rattle.std.specs.List.{Any};
ghost use Rattle.std.specs.Option.{option_copied};
ghost use Rattle.sql_tree.specs.declared.table.ColumnOption.TheVariants as variants;
ghost use Rattle.table_parts.specs.Columns as spec;
ghost use Rattle.table_parts.specs.Parts.{DefinesColumn};

use crate::parts::Part;
use sql_tree::{ColumnDefinition, ColumnOption, Default, Items, Name, TableConstraintKind};

/// Whether a part is the column of this name.
fn is_column(part: &Part, name: &Name) -> bool
    ensures { IsTrue result ↔ DefinesColumn name.now part.now }
{
    match part {
        Part::Column(definition) => definition.column.same(name),
        Part::Constraint(_) => false,
    }
}

/// Whether a column has this name. It takes no memory.
pub fn has_column(parts: &Items<Part>, name: &Name) -> bool
    ensures { IsTrue result ↔ Any (DefinesColumn name.now) parts.now }
{
    for part in parts.as_slice() {
        if is_column(part, name) {
            return true;
        }
    }
    false
}

/// The DEFAULT of a column. It takes no memory.
pub fn default_in(options: &Items<ColumnOption>) -> Option<&Default>
    ensures { option_copied result ≡ spec.default_in options.now }
{
    for option in options.as_slice() {
        match option {
            ColumnOption::Default(default) => return Some(default),
            _ => {}
        }
    }
    None
}

/// Whether NOT NULL is written of a column.
fn has_not_null(options: &Items<ColumnOption>) -> bool
    ensures { IsTrue result ↔ Contains options.now variants.NotNull }
{
    for option in options.as_slice() {
        match option {
            ColumnOption::NotNull => return true,
            _ => {}
        }
    }
    false
}

/// Whether a name is among these. It takes no memory.
pub fn is_among(names: &Items<Name>, name: &Name) -> bool
    ensures { IsTrue result ↔ Contains names.now name.now }
{
    for other in names.as_slice() {
        if other.same(name) {
            return true;
        }
    }
    false
}

/// Whether a part is a PRIMARY KEY with this column.
fn is_primary_with(part: &Part, name: &Name) -> bool
    ensures { IsTrue result ↔ spec.IsPrimaryWith name.now part.now }
{
    match part {
        Part::Constraint(constraint) => match &constraint.kind {
            TableConstraintKind::PrimaryKey(columns) => is_among(columns, name),
            _ => false,
        },
        Part::Column(_) => false,
    }
}

/// Whether a column can't be null: NOT NULL is written, or it is in a PRIMARY KEY. It takes no memory.
pub fn is_not_null(parts: &Items<Part>, definition: &ColumnDefinition) -> bool
    ensures { IsTrue result ↔ spec.IsNotNull parts.now definition.now }
{
    if has_not_null(&definition.options) {
        return true;
    }
    for part in parts.as_slice() {
        if is_primary_with(part, &definition.column) {
            return true;
        }
    }
    false
}
