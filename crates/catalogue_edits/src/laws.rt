//! Laws of what statements make of catalogues, over the definitions alone.

ghost use Rattle.std.specs.Prelude.{◌≡◌, List, Option};
ghost use Rattle.sql_tree.specs.declared.statement.Statement.{Statement};
ghost use Rattle.cat_items.specs.declared.edit.Edit.{Edit};
ghost use Rattle.cat_items.specs.declared.edit.Refusal.{Refusal};
ghost use Rattle.cat_items.specs.declared.edit.Who.{Who};
ghost use Rattle.cat_items.specs.declared.item.Item.{Item};
ghost use Rattle.cat_items.specs.declared.limits.Limits.{Limits};
ghost use Rattle.cat_items.specs.Good.{IsGood};
ghost use Rattle.statement_forms.specs.Written.{IsWritten};
ghost use Rattle.edit_laws.specs.Sound.{IsSound};
ghost use Rattle.edit_laws.specs.Users.{LeavesUsers};
ghost use Rattle.edit_rules.specs.First.{First, Passes};
ghost use Rattle.catalogue_edits.specs.declared.warning.Warning.{Warning};
ghost use Rattle.catalogue_edits.specs.Revisions.{IsRevised, revision_refusals};
ghost use Rattle.catalogue_edits.specs.Statements.{IsEditOf, edit_refusals};

/// A statement makes at most one catalogue of another, and warns of one thing or of none.
pub fn a_revision_is_settled()
    ensures { (c : List Item) (who : Who) (statement : Statement) (warning other : Option Warning) (new next : List Item)
        → IsRevised c who statement warning new → IsRevised c who statement other next → (warning ≡ other) × (new ≡ next) }
{}

/// There is at most one refusal of a statement.
pub fn a_refusal_is_settled()
    ensures { (limits : Limits) (c : List Item) (who : Who) (statement : Statement) (refusal other : Refusal)
        → First (revision_refusals limits c who statement) refusal → First (revision_refusals limits c who statement) other → refusal ≡ other }
{}

/// The edit of a statement that isn't refused fits a good catalogue, and what it makes of it is of a proper shape.
pub fn edits_are_sound()
    ensures { (c : List Item) (who : Who) (statement : Statement) (edit : Edit) → IsGood c → IsWritten statement → Passes (First (edit_refusals c who statement))
        → IsEditOf c who statement edit → IsSound c edit }
{}

/// No statement makes, changes or destroys a user.
pub fn edits_leave_users()
    ensures { (c : List Item) (who : Who) (statement : Statement) (edit : Edit) → IsEditOf c who statement edit → LeavesUsers edit }
{}
