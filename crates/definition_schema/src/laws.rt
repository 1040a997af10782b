//! The law stands in the contract of a function that does nothing.

ghost use Rattle.std.specs.Prelude.{List};
ghost use Rattle.cat_items.specs.declared.item.Item.{Item};
ghost use Rattle.cat_items.specs.Good.{IsGood};
ghost use Rattle.schema_tables.specs.Cells.{Row};
ghost use Rattle.schema_tables.specs.declared.names.SchemaTable.{SchemaTable};
ghost use Rattle.definition_schema.specs.Constraints.{AllHold};
ghost use Rattle.definition_schema.specs.Definition.{AreDefinitionRows};

/// Of each good catalogue all constraints of the Definition Schema hold: its keys and references, the positions of columns and parameters, and that no
/// role leads back to itself (SQL:2003 part 11, chapter 6).
pub fn all_constraints_hold()
    ensures { (c : List Item) (d : SchemaTable → List Row) → IsGood c → AreDefinitionRows c d → AllHold d }
{}
