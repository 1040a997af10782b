//! Descriptors as they are shown.

ghost use Rattle.std.specs.Prelude.{◌≡◌};
ghost use Rattle.schema_tables.specs.Seen as lent;
ghost use Rattle.shown_items.specs.Looks as spec;

use cat_items::{Column, Domain, Routine, View};
use schema_tables::{SeenColumn, SeenDomain, SeenRoutine, SeenView};

pub fn view_look<'a>(x: &'a View, owned: bool) -> SeenView<'a>
    ensures { lent.view_of result ≡ spec.view_look x.now owned }
{
    SeenView {
        view: &x.view,
        query: if owned { Some(&x.query) } else { None },
        plain: x.base.is_some(),
    }
}

pub fn column_look<'a>(x: &'a Column, position: u64, owned: bool) -> SeenColumn<'a>
    ensures { lent.column_of result ≡ spec.column_look x.now position owned }
{
    SeenColumn {
        table: &x.table,
        name: &x.name,
        position,
        default: if owned { x.default.as_ref() } else { None },
        not_null: x.not_null,
        sort: x.sort,
        domain: x.domain.as_ref(),
    }
}

pub fn domain_look<'a>(x: &'a Domain, owned: bool) -> SeenDomain<'a>
    ensures { lent.domain_of result ≡ spec.domain_look x.now owned }
{
    SeenDomain {
        domain: &x.domain,
        sort: x.sort,
        default: if owned { x.default.as_ref() } else { None },
    }
}

pub fn routine_look<'a>(x: &'a Routine, owned: bool) -> SeenRoutine<'a>
    ensures { lent.routine_of result ≡ spec.routine_look x.now owned }
{
    SeenRoutine {
        routine: &x.routine,
        params: &x.params,
        returns: x.returns,
        body: if owned { Some(&x.body) } else { None },
    }
}
