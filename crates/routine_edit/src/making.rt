//! What is made of a routine.

ghost use Rattle.std.specs.Prelude.{◌≡◌, ◌∷◌, [], IfOk};
ghost use Rattle.cat_items.specs.SystemRights as system;
ghost use Rattle.edit_rules.specs.First.{IsTested};
ghost use Rattle.statement_steps.specs.Resolving.{unresolved_name};
ghost use Rattle.routine_edit.specs.CreatedRoutines as spec;
ghost use Rattle.routine_edit.specs.Making as making;
ghost use Rattle.routine_edit.specs.Making.{IsNamedBody};

use crate::names::test_new_routine;
use crate::repeated::test_repeated;
use cat_items::{Catalogue, Edit, EditError, Item, Need, Refusal, Routine, Shared, Who};
use edit_rules::test_schema;
use name_scopes::Signature;
use routine_deps::{ResolvedBody, body_scope, copy_signature, resolve_body};
use sql_tree::{Body, Items, Name, Security};
use statement_steps::{Making, by_names};
use std::alloc::{AllocError, Global};

/// A routine that is to be made, as it is written.
#[derive(Drop)]
pub struct NewRoutine<'a> {
    pub signature: Signature,
    pub body: &'a Body,
}

/// Its resolved body, and no needs.
#[derive(Drop)]
pub struct MadeBody {
    pub resolved: ResolvedBody,
    pub none: Items<Need>,
}

fn security_of(body: &Body) -> Security
    ensures { result ≡ system.security_of body.now }
{
    match body {
        Body::Return { security, .. } => *security,
        Body::Atomic { security, .. } => *security,
    }
}

/// The body by its names.
fn named_body(
    alloc: Global,
    c: &Catalogue,
    who: &Who,
    signature: &Signature,
    body: &Body,
) -> Result<Option<ResolvedBody>, EditError>
    ensures { IsTested (unresolved_name (spec.body_in c.now.items who.now signature.now body.now) ∷ []) (IsNamedBody signature.now (spec.body_in c.now.items who.now signature.now body.now)) result }
{
    let scope = body_scope(alloc, &who.schema, signature)?;
    by_names(resolve_body(alloc, c, &scope, body))
}

/// The edit that adds this routine and does nothing else.
fn adding(alloc: Global, routine: Routine) -> Result<Edit, AllocError>
    ensures { IfOk result (λ edit. edit ≡ making.adding_routine routine) }
{
    let mut added = Items::new(alloc);
    added.push(Item::Routine(Shared::new(alloc, routine)?))?;
    Ok(Edit {
        target: Items::new(alloc),
        changed: Items::new(alloc),
        added,
    })
}

fn routine_of(
    alloc: Global,
    signature: &Signature,
    resolved: ResolvedBody,
) -> Result<Routine, AllocError>
    ensures { IfOk result (λ routine. routine ≡ making.routine_of signature.now resolved) }
{
    let copy = copy_signature(alloc, signature)?;
    Ok(Routine {
        routine: copy.routine,
        params: copy.params,
        returns: copy.returns,
        body: resolved.body,
        needs: resolved.needs,
    })
}

impl<'a> Making for NewRoutine<'a> {
    ghost use Rattle.std.specs.Prelude.{List};
    ghost use Rattle.cat_items.specs.declared.edit.Who.{Who};
    ghost use Rattle.cat_items.specs.declared.item.Item.{Item};
    ghost use Rattle.routine_edit.specs.CreatedRoutines.{body_in, routine_steps};
    ghost use Rattle.routine_edit.specs.Making.{IsMadeBody, IsNamedBody};

    type Named = Option<ResolvedBody>;

    type Made = MadeBody;

    ghost steps = { λ s c who. routine_steps c who s.signature s.body.now };

    ghost naming = { λ s c who named. IsNamedBody s.signature (body_in c who s.signature s.body.now) named };

    ghost making = { λ s c who made. IsMadeBody s.signature (body_in c who s.signature s.body.now) made };

    fn test_tree(&self, alloc: Global, _c: &Catalogue, _who: &Who) -> Result<(), EditError> {
        test_repeated(alloc, &self.signature, self.body)
    }

    fn names(
        &self,
        alloc: Global,
        c: &Catalogue,
        who: &Who,
    ) -> Result<Option<ResolvedBody>, EditError> {
        test_schema(c, &self.signature.routine.schema)?;
        named_body(alloc, c, who, &self.signature, self.body)
    }

    fn schema(&self, _c: &Catalogue, _who: &Who) -> &Name {
        &self.signature.routine.schema
    }

    fn test_taken(&self, _alloc: Global, c: &Catalogue, _who: &Who) -> Result<(), EditError> {
        test_new_routine(c, &self.signature.routine)
    }

    fn rules(
        &self,
        alloc: Global,
        _c: &Catalogue,
        _who: &Who,
        named: Option<ResolvedBody>,
    ) -> Result<MadeBody, EditError> {
        match named {
            None => Err(EditError::Refused(Refusal::TypeMismatch)),
            Some(resolved) => Ok(MadeBody {
                resolved,
                none: Items::new(alloc),
            }),
        }
    }

    fn needs<'b>(&self, _c: &Catalogue, _who: &Who, made: &'b MadeBody) -> &'b Items<Need> {
        match security_of(&made.resolved.body) {
            Security::Definer => &made.resolved.needs,
            Security::Invoker => &made.none,
        }
    }

    fn edit(
        &self,
        alloc: Global,
        _c: &Catalogue,
        _who: &Who,
        made: MadeBody,
    ) -> Result<Edit, AllocError> {
        let routine = routine_of(alloc, &self.signature, made.resolved)?;
        adding(alloc, routine)
    }
}
