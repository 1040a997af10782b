//! Columns that are made of definitions.

ghost use Rattle.std.specs.Prelude.{◌≡◌, ◌≤◌, ◌+◌, ◌↔◌, ◌++◌, flat_map, length, IfOk, IsTrue, OnOk};
ghost use Rattle.cat_items.specs.Ranges.{IsDomainOf};
ghost use Rattle.cat_items.specs.Reach.{Has};
ghost use Rattle.table_parts.specs.Columns as columns;
ghost use Rattle.table_parts.specs.Parts.{columns_of};
ghost use Rattle.table_work.specs.Columns as spec;

use cat_items::{Catalogue, Column, Item, Part as Stretch, Shared, Who, places};
use edit_rules::object_in;
use name_scopes::same_object;
use sql_tree::{
    ColumnDefinition, ColumnOption, ColumnType, Default, Items, Object, Param, SqlType,
};
use std::alloc::{AllocError, Global};
use table_parts::{Part, default_in, is_not_null};

/// Whether a domain has this name. It takes no memory.
pub fn is_domain(c: &Catalogue, domain: &Object) -> bool
    ensures { IsTrue result ↔ Has c.now.items (IsDomainOf domain.now) }
{
    !places(c, Stretch::Domain(domain.into())).is_empty()
}

/// The descriptors of the domain of this name: one, or none.
fn descriptors<'a>(c: &'a Catalogue, domain: &Object) -> &'a [Item]
    ensures { flat_map (spec.sort_here domain.now) c.now.items ≡ flat_map (spec.sort_here domain.now) result.now }
{
    &c.items()[places(c, Stretch::Domain(domain.into()))]
}

/// The type of the first domain of this name among descriptors, else INTEGER.
fn sort_among(domain: &Object, items: &[Item]) -> SqlType
    ensures { result ≡ spec.first_sort (flat_map (spec.sort_here domain.now) items.now) }
{
    for x in items {
        if let Item::Domain(found) = x {
            if same_object(&found.get().domain, domain) {
                return found.get().sort;
            }
        }
    }
    SqlType::Integer
}

/// The type of a column: its data type, or that of its domain. Where no domain has the name it is INTEGER, which no statement comes to
/// show, since names are told before types. `Err` is want of memory.
pub fn sort_of(c: &Catalogue, who: &Who, base: &ColumnType) -> Result<SqlType, AllocError>
    ensures { IfOk result (λ sort. sort ≡ spec.sort_of c.now.items who.now base.now) }
{
    match base {
        ColumnType::Type(sort) => Ok(*sort),
        ColumnType::Domain(name) => {
            let domain = object_in(&who.schema, name)?;
            Ok(sort_among(&domain, descriptors(c, &domain)))
        }
    }
}

/// The domain that a column is based on. `Err` is want of memory.
pub fn domain_of(who: &Who, base: &ColumnType) -> Result<Option<Object>, AllocError>
    ensures { IfOk result (λ domain. domain ≡ spec.domain_of who.now base.now) }
{
    match base {
        ColumnType::Type(_) => Ok(None),
        ColumnType::Domain(name) => Ok(Some(object_in(&who.schema, name)?)),
    }
}

fn push_described(
    c: &Catalogue,
    who: &Who,
    out: &mut Items<Param>,
    part: &Part,
) -> Result<(), AllocError>
    ensures { OnOk result (out.new ≡ out.old ++ spec.column_described c.now.items who.now part.now) }
{
    match part {
        Part::Column(definition) => {
            let sort = sort_of(c, who, &definition.sort)?;
            out.push(Param {
                name: definition.column.copy()?,
                sort,
            })
        }
        Part::Constraint(_) => Ok(()),
    }
}

/// The columns that a statement defines, each with its type, in reading order. `Err` is want of memory.
pub fn columns_described(
    alloc: Global,
    c: &Catalogue,
    who: &Who,
    parts: &Items<Part>,
) -> Result<Items<Param>, AllocError>
    ensures { IfOk result (λ columns. columns ≡ spec.columns_described c.now.items who.now parts.now) }
{
    let mut columns = Items::new(alloc);
    for part in parts.as_slice() {
        push_described(c, who, &mut columns, part)?;
    }
    Ok(columns)
}

/// The default of a column.
fn default_of(options: &Items<ColumnOption>) -> Result<Option<Default>, AllocError>
    ensures { IfOk result (λ default. default ≡ columns.default_in options.now) }
{
    match default_in(options) {
        None => Ok(None),
        Some(default) => Ok(Some(default.copy()?)),
    }
}

/// Whether a column can't be null.
fn is_without_null(parts: &Items<Part>, definition: &ColumnDefinition) -> bool
    ensures { result ≡ spec.is_not_null parts.now definition.now }
{
    is_not_null(parts, definition)
}

/// The column that is made at a place.
fn column_made(
    c: &Catalogue,
    who: &Who,
    table: &Object,
    parts: &Items<Part>,
    place: u32,
    definition: &ColumnDefinition,
) -> Result<Column, AllocError>
    ensures { IfOk result (λ column. column ≡ spec.column_made c.now.items who.now table.now parts.now place definition.now) }
{
    Ok(Column {
        table: table.copy()?,
        place,
        name: definition.column.copy()?,
        sort: sort_of(c, who, &definition.sort)?,
        domain: domain_of(who, &definition.sort)?,
        default: default_of(&definition.options)?,
        not_null: is_without_null(parts, definition),
    })
}

/// The columns that a statement makes of a table, with the places behind this one in reading order. `Err` is want of memory.
pub fn columns_made(
    alloc: Global,
    c: &Catalogue,
    who: &Who,
    table: &Object,
    parts: &Items<Part>,
    last: u32,
) -> Result<Items<Shared<Column>>, AllocError>
    requires { last + length (columns_of parts.now) ≤ 4294967295 }
    ensures { IfOk result (λ made. made ≡ spec.columns_from c.now.items who.now table.now parts.now (last + 1) (columns_of parts.now)) }
{
    let mut made = Items::new(alloc);
    let mut place = last;
    for part in parts.as_slice() {
        if let Part::Column(definition) = part {
            place += 1;
            let column = column_made(c, who, table, parts, place, definition)?;
            made.push(Shared::new(alloc, column)?)?;
        }
    }
    Ok(made)
}
