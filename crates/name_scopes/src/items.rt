//! Items of select lists: stars, and names of items.

ghost use Rattle.std.specs.Prelude.{◌≡◌, ◌+◌, [], ◌∷◌, ◌++◌, length, Some, IfOk, OnOk, MatchResult};
ghost use Rattle.std.specs.Option.{option_copied};
ghost use Rattle.name_scopes.specs.Known as known;
ghost use Rattle.name_scopes.specs.Outcomes.{Answers};
ghost use Rattle.name_scopes.specs.Single as spec;

use crate::dictionary::Dictionary;
use crate::error::ResolveError;
use crate::frames::{Frames, Tab};
use crate::look::{By, Fitting, fit_in};
use sql_tree::{
    Conjunction, Expr, Factor, Items, Name, Negation, Operand, Path, Predicate, Reference,
    SelectItem, Shared, Sum, Term,
};
use std::alloc::{AllocError, Global};

/// The expression that is this reference and no more.
fn only_reference(alloc: Global, reference: Reference) -> Result<Expr, AllocError>
    ensures { IfOk result (λ e. e ≡ spec.only_reference reference) }
{
    let first = Factor {
        minus: false,
        operand: Operand::Reference(reference),
    };
    let first = Term {
        first,
        others: Items::new(alloc),
    };
    let tested = Sum {
        first,
        others: Items::new(alloc),
    };
    let predicate = Predicate { tested, tail: None };
    let mut every = Items::new(alloc);
    every.push(Negation {
        negated: false,
        predicate,
    })?;
    let mut any = Items::new(alloc);
    any.push(Conjunction { every })?;
    Ok(Expr {
        any: Shared::new(alloc, any)?,
    })
}

/// The item that is a column of the nearest FROM, under its own name.
fn cell_item(
    alloc: Global,
    at: usize,
    known: &Name,
    column: &Name,
) -> Result<SelectItem, AllocError>
    ensures { IfOk result (λ item. item ≡ SelectItem.Expr (spec.only_reference (Reference.Cell 0 at known.now column.now)) (Some column.now)) }
{
    let cell = Reference::Cell {
        up: 0,
        at,
        qualifier: known.copy()?,
        name: column.copy()?,
    };
    let expr = only_reference(alloc, cell)?;
    Ok(SelectItem::Expr {
        expr,
        name: Some(column.copy()?),
    })
}

fn put_cells(
    alloc: Global,
    out: &mut Items<SelectItem>,
    at: usize,
    known: &Name,
    columns: &[Name],
) -> Result<(), AllocError>
    ensures { OnOk result (out.new ≡ out.old ++ spec.cells at known.now columns.now) }
{
    for column in columns {
        out.push(cell_item(alloc, at, known, column)?)?;
    }
    Ok(())
}

fn put_table<D: Dictionary>(
    alloc: Global,
    dictionary: &D,
    out: &mut Items<SelectItem>,
    at: usize,
    tab: &Tab,
) -> Result<(), AllocError>
    ensures { OnOk result (out.new ≡ out.old ++ spec.cells at tab.now.known (known.column_names (D.known dictionary.now) tab.now.table)) }
{
    let columns = dictionary.column_names(alloc, &tab.table)?;
    put_cells(alloc, out, at, &tab.known, columns.as_slice())
}

fn put_tables<D: Dictionary>(
    alloc: Global,
    dictionary: &D,
    out: &mut Items<SelectItem>,
    tabs: &[Tab],
) -> Result<(), AllocError>
    ensures { OnOk result (out.new ≡ out.old ++ spec.all_cells (D.known dictionary.now) 0 tabs.now) }
{
    for at in 0..tabs.len() {
        put_table(alloc, dictionary, out, at, &tabs[at])?;
    }
    Ok(())
}

/// `*`: all columns of all tables of the nearest FROM.
#[tactic(auto, unfolding(crate::specs::Single::star))]
pub fn resolve_star<D: Dictionary>(
    alloc: Global,
    dictionary: &D,
    frames: &Frames,
) -> Result<Items<SelectItem>, ResolveError>
    ensures { Answers (spec.star (D.known dictionary.now) frames.now) result }
{
    let mut out = Items::new(alloc);
    if frames.len() > 0 {
        put_tables(alloc, dictionary, &mut out, frames.at(0).tables.as_slice())?;
    }
    Ok(out)
}

fn table_columns<D: Dictionary>(
    alloc: Global,
    dictionary: &D,
    at: usize,
    tab: &Tab,
) -> Result<Items<SelectItem>, AllocError>
    ensures { IfOk result (λ out. out ≡ spec.cells at tab.now.known (known.column_names (D.known dictionary.now) tab.now.table)) }
{
    let mut out = Items::new(alloc);
    put_table(alloc, dictionary, &mut out, at, tab)?;
    Ok(out)
}

/// `qualifier.*`: all columns of the table of the nearest FROM that is known so.
#[tactic(auto, unfolding(crate::specs::Single::table_star))]
pub fn resolve_table_star<D: Dictionary>(
    alloc: Global,
    dictionary: &D,
    frames: &Frames,
    qualifier: &Name,
) -> Result<Items<SelectItem>, ResolveError>
    ensures { Answers (spec.table_star (D.known dictionary.now) qualifier.now frames.now) result }
{
    if frames.len() == 0 {
        return Err(ResolveError::UnknownName(Path::one(qualifier.copy()?)));
    }
    let frame = frames.at(0);
    match fit_in(dictionary, By::Known, qualifier, frame) {
        Fitting::Nowhere => Err(ResolveError::UnknownName(Path::one(qualifier.copy()?))),
        Fitting::Several => Err(ResolveError::Ambiguous(qualifier.copy()?)),
        Fitting::One(at) => match frame.tables.get(at) {
            None => Err(ResolveError::UnknownName(Path::one(qualifier.copy()?))),
            Some(tab) => Ok(table_columns(alloc, dictionary, at, tab)?),
        },
    }
}

/// COL1, COL2 and so on.
fn position_name(alloc: Global, position: usize) -> Result<Name, AllocError>
    ensures { IfOk result (λ name. name ≡ spec.position_name position) }
{
    let text = format!(in alloc; "COL{position}")?;
    match Name::of(alloc, text.as_bytes())? {
        Some(name) => Ok(name),
        None => unreachable!(),
    }
}

fn column_of_operand(operand: &Operand) -> Option<&Name>
    ensures { option_copied result ≡ spec.column_of_operand operand.now }
{
    match operand {
        Operand::Reference(reference) => match reference {
            Reference::Cell { name, .. } => Some(name),
            Reference::Own { name, .. } => Some(name),
            _ => None,
        },
        _ => None,
    }
}

fn column_of_factor(factor: &Factor) -> Option<&Name>
    ensures { option_copied result ≡ spec.column_of_factor factor.now }
{
    if factor.minus {
        None
    } else {
        column_of_operand(&factor.operand)
    }
}

fn column_of_sum(sum: &Sum) -> Option<&Name>
    ensures { option_copied result ≡ spec.column_of_sum sum.now }
{
    match sum.others.as_slice() {
        [_, ..] => None,
        [] => match sum.first.others.as_slice() {
            [_, ..] => None,
            [] => column_of_factor(&sum.first.first),
        },
    }
}

fn column_of_predicate(predicate: &Predicate) -> Option<&Name>
    ensures { option_copied result ≡ spec.column_of_predicate predicate.now }
{
    match &predicate.tail {
        Some(_) => None,
        None => column_of_sum(&predicate.tested),
    }
}

fn column_of_negation(negation: &Negation) -> Option<&Name>
    ensures { option_copied result ≡ spec.column_of_negation negation.now }
{
    if negation.negated {
        None
    } else {
        column_of_predicate(&negation.predicate)
    }
}

/// The name of the column that an expression is a reference to, and no more.
#[tactic(auto, unfolding(crate::specs::Single::column_of))]
pub fn column_of(expr: &Expr) -> Option<&Name>
    ensures { option_copied result ≡ spec.column_of expr.now }
{
    match expr.any.get().as_slice() {
        [conjunction] => match conjunction.every.as_slice() {
            [negation] => column_of_negation(negation),
            _ => None,
        },
        _ => None,
    }
}

#[tactic(auto, unfolding(crate::specs::Single::item_name))]
fn item_name(
    alloc: Global,
    given: &Option<Name>,
    expr: &Expr,
    position: usize,
) -> Result<Name, AllocError>
    ensures { IfOk result (λ name. name ≡ spec.item_name given.now expr.now position) }
{
    match given {
        Some(name) => name.copy(),
        None => match column_of(expr) {
            Some(name) => name.copy(),
            None => position_name(alloc, position),
        },
    }
}

/// The position of an item behind these.
pub fn next_position(items: &[SelectItem]) -> usize
    ensures { result ≡ length items.now + 1 }
{
    items.len() + 1
}

/// An item at this position, with its name.
pub fn make_item(
    alloc: Global,
    position: usize,
    given: &Option<Name>,
    expr: Expr,
) -> Result<Items<SelectItem>, ResolveError>
    ensures { MatchResult result (λ items. items ≡ spec.item given.now expr position ∷ []) (λ why. why ≡ ResolveError.Memory) }
{
    let name = item_name(alloc, given, &expr, position)?;
    let mut items = Items::new(alloc);
    items.push(SelectItem::Expr {
        expr,
        name: Some(name),
    })?;
    Ok(items)
}
