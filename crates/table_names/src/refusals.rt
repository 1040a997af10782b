//! Refusals by names that come twice or are taken.

ghost use Rattle.std.specs.Prelude.{◌≡◌, ◌∷◌, [], IfOk, OnOk, map};
ghost use Rattle.edit_rules.specs.First.{HasPassed};
ghost use Rattle.table_parts.specs.Marks.{MarksDiffer, marks_in};
ghost use Rattle.table_names.specs.Refusals as spec;

use cat_items::{Catalogue, EditError, Refusal};
use edit_rules::{path_of, test_new_constraint};
use sql_tree::{Items, Name, Object, Path};
use std::alloc::{AllocError, Global};
use table_parts::{Mark, Part, first_repeated, marks_of};

/// What is told of something that comes twice.
fn told(made: &Object, mark: &Mark) -> Result<Path, AllocError>
    ensures { IfOk result (λ path. path ≡ spec.told made.now mark.now) }
{
    match mark {
        Mark::Column(name) | Mark::Constraint(name) => Ok(Path::one(name.copy()?)),
        Mark::Primary => path_of(made),
        Mark::Own { name, .. } | Mark::Target { name, .. } => Ok(Path::one(name.copy()?)),
    }
}

/// Refuses what comes twice in a statement (SQL:2003 part 2, 11.3 and 11.6): `Repeated` of its name, the first by its second place, and
/// of a second PRIMARY KEY the path of the table. `Memory` is want of memory.
pub fn test_repeated(alloc: Global, made: &Object, parts: &Items<Part>) -> Result<(), EditError>
    ensures tested { HasPassed (spec.repeated_name made.now parts.now ∷ []) result }
    ensures differ { OnOk result (MarksDiffer (marks_in parts.now)) }
{
    let marks = marks_of(alloc, parts)?;
    match first_repeated(&marks) {
        None => Ok(()),
        Some(mark) => {
            let path = told(made, mark)?;
            Err(EditError::Refused(Refusal::Repeated { path }))
        }
    }
}

/// Refuses a name that a constraint of the schema has.
fn test_constraint(c: &Catalogue, schema: &Name, name: &Name) -> Result<(), EditError>
    ensures { HasPassed (spec.exists_in c.now.items schema.now name.now ∷ []) result }
{
    let name = Object {
        schema: schema.copy()?,
        name: name.copy()?,
    };
    test_new_constraint(c, &name)
}

/// Refuses the first of these names that a constraint of the schema has (SQL:2003 part 2, 10.8): `NameExists` of the schema and the name.
/// `Memory` is want of memory.
pub fn test_new_constraints(
    c: &Catalogue,
    schema: &Name,
    names: &Items<Name>,
) -> Result<(), EditError>
    ensures { HasPassed (map (spec.exists_in c.now.items schema.now) names.now) result }
{
    for name in names.as_slice() {
        test_constraint(c, schema, name)?;
    }
    Ok(())
}
