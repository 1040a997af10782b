//! What surrounds the conditions of checks.

ghost use Rattle.std.specs.Prelude.{◌≡◌, IfOk};
ghost use Rattle.table_elements.specs.Conditions as spec;

use cat_items::Who;
use name_scopes::{OwnTable, Scope};
use sql_tree::Items;
use std::alloc::{AllocError, Global};
use table_work::Work;

/// The table that is made or altered, with its columns.
fn own_table(alloc: Global, w: &Work) -> Result<OwnTable, AllocError>
    ensures { IfOk result (λ own. own ≡ spec.own_table w.now) }
{
    let mut names = Items::new(alloc);
    let mut sorts = Items::new(alloc);
    for column in w.columns.as_slice() {
        names.push(column.name.copy()?)?;
        sorts.push(column.sort)?;
    }
    let table = w.table.copy()?;
    Ok(OwnTable {
        table,
        names,
        sorts,
    })
}

/// What surrounds the condition of each check of a statement: the columns of its table may be named, and base tables alone. `Err` is want
/// of memory.
pub fn check_scope(alloc: Global, who: &Who, w: &Work) -> Result<Scope, AllocError>
    ensures { IfOk result (λ scope. scope ≡ spec.check_scope who.now w.now) }
{
    let own = own_table(alloc, w)?;
    Ok(Scope {
        schema: who.schema.copy()?,
        own: Some(own),
        params: Items::new(alloc),
        value: None,
        itself: None,
        views: false,
    })
}
