//! Rows of tables, views, domains and routines.

ghost use Rattle.std.specs.Prelude.{◌≡◌, OnOk};
ghost use Rattle.cat_items.specs.declared.item.Item.TheVariants as item;
ghost use Rattle.shown_items.specs.Faces.{Adds, IsFace};

use crate::looks::{domain_look, routine_look, view_look};
use crate::putting::{alone, put_where};
use crate::reads::{reads_domains, reads_routines, reads_tables, reads_views};
use crate::rights::{sees_domain, sees_routine, sees_table, sees_view};
use crate::session::owns;
use crate::sight::Sight;
use cat_items::{Domain, Routine, Row, View};
use schema_tables::{Seen, SeenNeeds};
use sql_tree::Object;
use std::alloc::{AllocError, Global};

pub fn put_table(
    alloc: Global,
    out: &mut Vec<Row>,
    sight: Sight<'_>,
    x: &Object,
) -> Result<(), AllocError>
    ensures { OnOk result (Adds sight.entry (λ c v s. IsFace c v (item.Table x.now) s) out.old.items out.new.items) }
{
    if !reads_tables(sight.table) {
        return Ok(());
    }
    let may = sees_table(sight.c, sight.viewer, x);
    put_where(alloc, out, sight, may, Seen::Table(x), alone())
}

pub fn put_view(
    alloc: Global,
    out: &mut Vec<Row>,
    sight: Sight<'_>,
    x: &View,
) -> Result<(), AllocError>
    ensures { OnOk result (Adds sight.entry (λ c v s. IsFace c v (item.View x.now) s) out.old.items out.new.items) }
{
    if !reads_views(sight.table) {
        return Ok(());
    }
    let owned = owns(sight.c, sight.viewer, &x.view.schema);
    let may = sees_view(sight.c, sight.viewer, x);
    let look = view_look(x, owned);
    put_where(alloc, out, sight, may, Seen::View(look), alone())?;
    let needs = SeenNeeds {
        object: &x.view,
        needs: &x.needs,
    };
    put_where(alloc, out, sight, owned, Seen::ViewNeeds(needs), alone())
}

pub fn put_domain(
    alloc: Global,
    out: &mut Vec<Row>,
    sight: Sight<'_>,
    x: &Domain,
) -> Result<(), AllocError>
    ensures { OnOk result (Adds sight.entry (λ c v s. IsFace c v (item.Domain x.now) s) out.old.items out.new.items) }
{
    if !reads_domains(sight.table) {
        return Ok(());
    }
    let owned = owns(sight.c, sight.viewer, &x.domain.schema);
    let may = sees_domain(sight.c, sight.viewer, x);
    let look = domain_look(x, owned);
    put_where(alloc, out, sight, may, Seen::Domain(look), alone())
}

pub fn put_routine(
    alloc: Global,
    out: &mut Vec<Row>,
    sight: Sight<'_>,
    x: &Routine,
) -> Result<(), AllocError>
    ensures { OnOk result (Adds sight.entry (λ c v s. IsFace c v (item.Routine x.now) s) out.old.items out.new.items) }
{
    if !reads_routines(sight.table) {
        return Ok(());
    }
    let owned = owns(sight.c, sight.viewer, &x.routine.schema);
    let may = sees_routine(sight.c, sight.viewer, x);
    let look = routine_look(x, owned);
    put_where(alloc, out, sight, may, Seen::Routine(look), alone())?;
    let needs = SeenNeeds {
        object: &x.routine,
        needs: &x.needs,
    };
    put_where(alloc, out, sight, owned, Seen::RoutineNeeds(needs), alone())
}
