//! Names of routines.

ghost use Rattle.std.specs.Prelude.{◌↔◌, ◌∷◌, [], IsTrue};
ghost use Rattle.cat_items.specs.Reach.{Has};
ghost use Rattle.cat_items.specs.Rights.{IsRoutine, path_of};
ghost use Rattle.edit_rules.specs.First.{HasPassed};
ghost use Rattle.routine_edit.specs.CreatedRoutines as spec;

use cat_items::{Catalogue, EditError, Part, Refusal, places};
use edit_rules::path_of;
use sql_tree::Object;

/// Whether a routine has this name.
fn is_routine(c: &Catalogue, routine: &Object) -> bool
    ensures { IsTrue result ↔ Has c.now.items (IsRoutine (path_of routine.now)) }
{
    !places(c, Part::Routine(routine.into())).is_empty()
}

/// Refuses a name that a routine has (SQL:2003 part 2, 11.50): `NameExists` of its schema and its name. `Memory` is want of memory.
pub fn test_new_routine(c: &Catalogue, routine: &Object) -> Result<(), EditError>
    ensures { HasPassed (spec.routine_exists c.now.items routine.now ∷ []) result }
{
    if !is_routine(c, routine) {
        return Ok(());
    }
    let path = path_of(routine)?;
    Err(EditError::Refused(Refusal::NameExists { path }))
}
