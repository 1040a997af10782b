//! Each law stands in the contract of a function that does nothing.

ghost use Rattle.std.specs.Prelude.{List};
ghost use Rattle.sql_tree.specs.declared.statement.CreateView.{CreateView};
ghost use Rattle.sql_tree.specs.declared.statement.Statement.TheVariants as statements;
ghost use Rattle.cat_items.specs.declared.edit.Edit.{Edit};
ghost use Rattle.cat_items.specs.declared.edit.Who.{Who};
ghost use Rattle.cat_items.specs.declared.item.Item.{Item};
ghost use Rattle.cat_items.specs.Good.{IsGood};
ghost use Rattle.statement_forms.specs.Written.{IsWritten};
ghost use Rattle.edit_rules.specs.First.{First, Passes};
ghost use Rattle.edit_laws.specs.Sound.{IsSound};
ghost use Rattle.object_edits.specs.CreatedViews.{IsViewCreation, create_view_refusals};

/// By its definition alone, CREATE VIEW that nothing refuses leaves a good catalogue good.
pub fn created_views_are_sound()
    ensures { (c : List Item) (who : Who) (s : CreateView) (edit : Edit) → IsGood c → IsWritten (statements.CreateView s) → Passes (First (create_view_refusals c who s)) → IsViewCreation c who s edit → IsSound c edit }
{}
