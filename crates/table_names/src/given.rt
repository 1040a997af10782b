//! The table that REFERENCES names.

ghost use Rattle.std.specs.Prelude.{◌∷◌, []};
ghost use Rattle.edit_rules.specs.First.{HasPassed};
ghost use Rattle.table_names.specs.Given as spec;

use cat_items::{Catalogue, EditError};
use edit_rules::test_base_table;
use sql_tree::Object;

/// Refuses a target that is neither the table that is made nor a base table: `UnknownName`.
pub fn test_target(c: &Catalogue, made: &Object, table: &Object) -> Result<(), EditError>
    ensures { HasPassed (spec.unknown_referenced_table c.now.items made.now table.now ∷ []) result }
{
    if table.same(made) {
        return Ok(());
    }
    test_base_table(c, table)
}
