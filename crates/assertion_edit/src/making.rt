//! What is made of an assertion.

ghost use Rattle.std.specs.Prelude.{◌≡◌, ◌∷◌, [], IfOk};
ghost use Rattle.edit_conditions.specs.Conditions.{IsFound};
ghost use Rattle.edit_rules.specs.First.{IsTested};
ghost use Rattle.statement_steps.specs.Resolving.{unresolved_name};
ghost use Rattle.assertion_edit.specs.CreatedAssertions as spec;
ghost use Rattle.assertion_edit.specs.Making as making;

use cat_items::{Assertion, Catalogue, Edit, EditError, Item, Need, Refusal, Shared, Who};
use edit_conditions::condition_of;
use edit_rules::{test_new_constraint, test_schema};
use name_scopes::Scope;
use sql_tree::{Expr, Items, Name, Object};
use statement_steps::Making;
use std::alloc::{AllocError, Global};
use view_deps::ResolvedExpr;

/// An assertion that is to be made, with its condition as it is written.
#[derive(Drop)]
pub struct NewAssertion<'a> {
    pub name: Object,
    pub condition: &'a Expr,
}

fn assertion_scope(alloc: Global, schema: &Name) -> Result<Scope, AllocError>
    ensures { IfOk result (λ scope. scope ≡ spec.assertion_scope schema.now) }
{
    Ok(Scope {
        schema: schema.copy()?,
        own: None,
        params: Items::new(alloc),
        value: None,
        itself: None,
        views: false,
    })
}

/// What its condition comes to.
fn found_of(
    alloc: Global,
    c: &Catalogue,
    who: &Who,
    condition: &Expr,
) -> Result<Option<ResolvedExpr>, EditError>
    ensures { IsTested (unresolved_name (spec.outcome_of c.now.items who.now condition.now) ∷ []) (IsFound (spec.outcome_of c.now.items who.now condition.now)) result }
{
    let scope = assertion_scope(alloc, &who.schema)?;
    condition_of(alloc, c, &scope, condition)
}

/// The edit that adds this assertion and does nothing else.
fn adding(alloc: Global, assertion: Assertion) -> Result<Edit, AllocError>
    ensures { IfOk result (λ edit. edit ≡ making.adding_assertion assertion) }
{
    let mut added = Items::new(alloc);
    added.push(Item::Assertion(Shared::new(alloc, assertion)?))?;
    Ok(Edit {
        target: Items::new(alloc),
        changed: Items::new(alloc),
        added,
    })
}

impl<'a> Making for NewAssertion<'a> {
    ghost use Rattle.edit_conditions.specs.Conditions.{IsFound};
    ghost use Rattle.assertion_edit.specs.CreatedAssertions.{assertion_steps, outcome_of};
    ghost use Rattle.assertion_edit.specs.Making.{IsConditionOf};

    type Named = Option<ResolvedExpr>;

    type Made = ResolvedExpr;

    ghost steps = { λ s c who. assertion_steps c who s.name s.condition.now };

    ghost naming = { λ s c who named. IsFound (outcome_of c who s.condition.now) named };

    ghost making = { λ s c who made. IsConditionOf (outcome_of c who s.condition.now) made };

    fn test_tree(&self, _alloc: Global, _c: &Catalogue, _who: &Who) -> Result<(), EditError> {
        Ok(())
    }

    fn names(
        &self,
        alloc: Global,
        c: &Catalogue,
        who: &Who,
    ) -> Result<Option<ResolvedExpr>, EditError> {
        test_schema(c, &self.name.schema)?;
        found_of(alloc, c, who, self.condition)
    }

    fn schema(&self, _c: &Catalogue, _who: &Who) -> &Name {
        &self.name.schema
    }

    fn test_taken(&self, _alloc: Global, c: &Catalogue, _who: &Who) -> Result<(), EditError> {
        test_new_constraint(c, &self.name)
    }

    fn rules(
        &self,
        _alloc: Global,
        _c: &Catalogue,
        _who: &Who,
        named: Option<ResolvedExpr>,
    ) -> Result<ResolvedExpr, EditError> {
        match named {
            None => Err(EditError::Refused(Refusal::TypeMismatch)),
            Some(resolved) => Ok(resolved),
        }
    }

    fn needs<'b>(&self, _c: &Catalogue, _who: &Who, made: &'b ResolvedExpr) -> &'b Items<Need> {
        &made.needs
    }

    fn edit(
        &self,
        alloc: Global,
        _c: &Catalogue,
        _who: &Who,
        made: ResolvedExpr,
    ) -> Result<Edit, AllocError> {
        let assertion = Assertion {
            name: self.name.copy()?,
            cond: made.expr,
            needs: made.needs,
        };
        adding(alloc, assertion)
    }
}
