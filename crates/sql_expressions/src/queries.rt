//! Queries.

ghost use Rattle.std.specs.Prelude.{◌≡◌, Some};
ghost use Rattle.sql_spelling.specs.declared.kind.Kind.TheVariants as k;
ghost use Rattle.sql_expressions.specs.ExpressionParsers.{expr_within};
ghost use Rattle.sql_expressions.specs.Nests.{Nests};
ghost use Rattle.sql_expressions.specs.QueryParsers as spec;
ghost use Rattle.sql_phrases.specs.Parsers.{Reads, separated, repeated, optional};

use crate::grammar::Grammar;
use sql_phrases::{GrammarError, Reader, identifier, object_name, sees_name};
use sql_tree::{
    Chain, Expr, Further, Items, Join, Name, Object, ObjectName, Query, Reference, Select,
    SelectItem, SelectList, SetOperator, Shared, TableReference,
};
use sql_words::{Kind, same_kind};
use std::alloc::Global;

/// The column or parameter that a name refers to where no call follows it.
pub fn reference_of(name: ObjectName) -> Reference
    ensures { result ≡ spec.reference_of name }
{
    match name {
        ObjectName::Unqualified(name) => Reference::Unqualified(name),
        ObjectName::Qualified(Object { schema, name }) => Reference::Qualified {
            qualifier: schema,
            name,
        },
    }
}

#[tactic(auto, unfolding(crate::specs::QueryParsers::reference))]
fn reference(alloc: Global, words: &mut Reader<'_>) -> Result<Reference, GrammarError>
    ensures { Reads (spec.reference words.old) result words.new }
{
    Ok(reference_of(object_name(alloc, words)?))
}

#[tactic(auto, unfolding(sql_phrases::specs::Parsers::separated), using(sql_phrases::proofs::Turns::separated_step, sql_phrases::proofs::Turns::separated_done))]
fn references(alloc: Global, words: &mut Reader<'_>) -> Result<Items<Reference>, GrammarError>
    ensures { Reads (separated k.Comma spec.reference words.old) result words.new }
{
    let mut found = Items::new(alloc);
    for _turn in 0..words.len() {
        found.push(reference(alloc, words)?)?;
        if !words.eat(Kind::Comma) {
            return Ok(found);
        }
    }
    Err(GrammarError::Syntax)
}

#[tactic(auto, unfolding(crate::specs::QueryParsers::grouping))]
fn grouping(alloc: Global, words: &mut Reader<'_>) -> Result<Items<Reference>, GrammarError>
    ensures { Reads (spec.grouping words.old) result words.new }
{
    if words.eat(Kind::Group) {
        words.expect(Kind::By)?;
        references(alloc, words)
    } else {
        Ok(Items::new(alloc))
    }
}

#[tactic(auto, unfolding(crate::specs::QueryParsers::alias))]
fn alias(alloc: Global, words: &mut Reader<'_>) -> Result<Option<Name>, GrammarError>
    ensures { Reads (spec.alias words.old) result words.new }
{
    if words.eat(Kind::As) || sees_name(words) {
        Ok(Some(identifier(alloc, words)?))
    } else {
        Ok(None)
    }
}

#[tactic(auto, unfolding(crate::specs::QueryParsers::table_reference))]
fn table_reference(alloc: Global, words: &mut Reader<'_>) -> Result<TableReference, GrammarError>
    ensures { Reads (spec.table_reference words.old) result words.new }
{
    let table = object_name(alloc, words)?;
    let correlation = alias(alloc, words)?;
    Ok(TableReference { table, correlation })
}

// `[DISTINCT | ALL]`, and whether it is DISTINCT.
#[tactic(auto, unfolding(crate::specs::QueryParsers::quantifier))]
fn quantifier(words: &mut Reader<'_>) -> bool
    ensures { spec.quantifier words.old ≡ Some (result, words.new) }
{
    if words.eat(Kind::Distinct) {
        return true;
    }
    words.eat(Kind::All);
    false
}

// Whether `name.*` comes next, with which no expression begins.
#[tactic(auto, unfolding(crate::specs::QueryParsers::sees_qualified_star, sql_phrases::specs::Reading::sees))]
fn sees_qualified_star(words: &Reader<'_>) -> bool
    ensures { result ≡ spec.sees_qualified_star words.now }
{
    sees_name(words)
        && same_kind(words.peek_after(), Kind::Period)
        && same_kind(words.peek_third(), Kind::Asterisk)
}

#[tactic(auto, unfolding(crate::specs::QueryParsers::qualified_star))]
fn qualified_star(alloc: Global, words: &mut Reader<'_>) -> Result<SelectItem, GrammarError>
    ensures { Reads (spec.qualified_star words.old) result words.new }
{
    let qualifier = identifier(alloc, words)?;
    words.expect(Kind::Period)?;
    words.expect(Kind::Asterisk)?;
    Ok(SelectItem::QualifiedStar(qualifier))
}

fn set_operator_of(kind: Kind) -> Option<SetOperator>
    ensures { result ≡ spec.set_operator_of kind }
{
    match kind {
        Kind::Union => Some(SetOperator::Union),
        Kind::Except => Some(SetOperator::Except),
        _ => None,
    }
}

fn begins_further(kind: Kind) -> bool
    ensures { result ≡ spec.begins_further kind }
{
    matches!(kind, Kind::Union | Kind::Except)
}

fn begins_join(kind: Kind) -> bool
    ensures { result ≡ spec.begins_join kind }
{
    matches!(kind, Kind::Join | Kind::Inner | Kind::Cross)
}

impl<F: Fn(Global, &mut Reader<'_>, usize, bool) -> Result<Expr, GrammarError>> Grammar<F> {
    #[tactic(auto, unfolding(crate::specs::QueryParsers::expr_item))]
    fn expr_item(&self, words: &mut Reader<'_>) -> Result<SelectItem, GrammarError>
        requires { Nests self.now.value self.now.depth (F.pre self.now.expr) (F.post self.now.expr) }
        ensures { Reads (spec.expr_item (expr_within self.now.value self.now.depth) words.old) result words.new }
    {
        let expr = self.whole(words)?;
        let name = alias(self.alloc, words)?;
        Ok(SelectItem::Expr { expr, name })
    }

    #[tactic(auto, unfolding(crate::specs::QueryParsers::select_item))]
    fn select_item(&self, words: &mut Reader<'_>) -> Result<SelectItem, GrammarError>
        requires { Nests self.now.value self.now.depth (F.pre self.now.expr) (F.post self.now.expr) }
        ensures { Reads (spec.select_item (expr_within self.now.value self.now.depth) words.old) result words.new }
    {
        if sees_qualified_star(words) {
            qualified_star(self.alloc, words)
        } else {
            self.expr_item(words)
        }
    }

    #[tactic(auto, unfolding(sql_phrases::specs::Parsers::separated), using(sql_phrases::proofs::Turns::separated_step, sql_phrases::proofs::Turns::separated_done))]
    fn select_items(&self, words: &mut Reader<'_>) -> Result<Items<SelectItem>, GrammarError>
        requires { Nests self.now.value self.now.depth (F.pre self.now.expr) (F.post self.now.expr) }
        ensures { Reads (separated k.Comma (spec.select_item (expr_within self.now.value self.now.depth)) words.old) result words.new }
    {
        let mut found = Items::new(self.alloc);
        for _turn in 0..words.len() {
            found.push(self.select_item(words)?)?;
            if !words.eat(Kind::Comma) {
                return Ok(found);
            }
        }
        Err(GrammarError::Syntax)
    }

    #[tactic(auto, unfolding(crate::specs::QueryParsers::select_list))]
    fn select_list(&self, words: &mut Reader<'_>) -> Result<SelectList, GrammarError>
        requires { Nests self.now.value self.now.depth (F.pre self.now.expr) (F.post self.now.expr) }
        ensures { Reads (spec.select_list (expr_within self.now.value self.now.depth) words.old) result words.new }
    {
        if words.eat(Kind::Asterisk) {
            Ok(SelectList::Star)
        } else {
            Ok(SelectList::Listed(self.select_items(words)?))
        }
    }

    // After JOIN.
    #[tactic(auto, unfolding(crate::specs::QueryParsers::inner_join))]
    fn inner_join(&self, words: &mut Reader<'_>) -> Result<Join, GrammarError>
        requires { Nests self.now.value self.now.depth (F.pre self.now.expr) (F.post self.now.expr) }
        ensures { Reads (spec.inner_join (expr_within self.now.value self.now.depth) words.old) result words.new }
    {
        let table = table_reference(self.alloc, words)?;
        words.expect(Kind::On)?;
        let on = self.whole(words)?;
        Ok(Join::Inner { table, on })
    }

    #[tactic(auto, unfolding(crate::specs::QueryParsers::join))]
    fn join(&self, words: &mut Reader<'_>) -> Result<Join, GrammarError>
        requires { Nests self.now.value self.now.depth (F.pre self.now.expr) (F.post self.now.expr) }
        ensures { Reads (spec.join (expr_within self.now.value self.now.depth) words.old) result words.new }
    {
        match words.peek() {
            Kind::Join => {
                words.take();
                self.inner_join(words)
            }
            Kind::Inner => {
                words.take();
                words.expect(Kind::Join)?;
                self.inner_join(words)
            }
            Kind::Cross => {
                words.take();
                words.expect(Kind::Join)?;
                Ok(Join::Cross(table_reference(self.alloc, words)?))
            }
            _ => Err(GrammarError::Syntax),
        }
    }

    #[tactic(auto, unfolding(sql_phrases::specs::Parsers::repeated), using(sql_phrases::proofs::Turns::repeated_step, sql_phrases::proofs::Turns::repeated_done))]
    fn joins(&self, words: &mut Reader<'_>) -> Result<Items<Join>, GrammarError>
        requires { Nests self.now.value self.now.depth (F.pre self.now.expr) (F.post self.now.expr) }
        ensures { Reads (repeated spec.begins_join (spec.join (expr_within self.now.value self.now.depth)) words.old) result words.new }
    {
        let mut found = Items::new(self.alloc);
        for _turn in 0..words.len() {
            if !begins_join(words.peek()) {
                return Ok(found);
            }
            found.push(self.join(words)?)?;
        }
        Ok(found)
    }

    #[tactic(auto, unfolding(crate::specs::QueryParsers::chain))]
    fn chain(&self, words: &mut Reader<'_>) -> Result<Chain, GrammarError>
        requires { Nests self.now.value self.now.depth (F.pre self.now.expr) (F.post self.now.expr) }
        ensures { Reads (spec.chain (expr_within self.now.value self.now.depth) words.old) result words.new }
    {
        let first = table_reference(self.alloc, words)?;
        let joins = self.joins(words)?;
        Ok(Chain { first, joins })
    }

    #[tactic(auto, unfolding(sql_phrases::specs::Parsers::separated), using(sql_phrases::proofs::Turns::separated_step, sql_phrases::proofs::Turns::separated_done))]
    fn chains(&self, words: &mut Reader<'_>) -> Result<Items<Chain>, GrammarError>
        requires { Nests self.now.value self.now.depth (F.pre self.now.expr) (F.post self.now.expr) }
        ensures { Reads (separated k.Comma (spec.chain (expr_within self.now.value self.now.depth)) words.old) result words.new }
    {
        let mut found = Items::new(self.alloc);
        for _turn in 0..words.len() {
            found.push(self.chain(words)?)?;
            if !words.eat(Kind::Comma) {
                return Ok(found);
            }
        }
        Err(GrammarError::Syntax)
    }

    // An expression after a word, if that word comes next.
    #[tactic(auto, unfolding(sql_phrases::specs::Parsers::optional))]
    pub fn after_word(
        &self,
        words: &mut Reader<'_>,
        word: Kind,
    ) -> Result<Option<Expr>, GrammarError>
        requires { Nests self.now.value self.now.depth (F.pre self.now.expr) (F.post self.now.expr) }
        ensures { Reads (optional word (expr_within self.now.value self.now.depth) words.old) result words.new }
    {
        if words.eat(word) {
            Ok(Some(self.whole(words)?))
        } else {
            Ok(None)
        }
    }

    #[tactic(auto, unfolding(crate::specs::QueryParsers::select))]
    fn select(&self, words: &mut Reader<'_>) -> Result<Select, GrammarError>
        requires { Nests self.now.value self.now.depth (F.pre self.now.expr) (F.post self.now.expr) }
        ensures { Reads (spec.select (expr_within self.now.value self.now.depth) words.old) result words.new }
    {
        words.expect(Kind::Select)?;
        let distinct = quantifier(words);
        let list = self.select_list(words)?;
        words.expect(Kind::From)?;
        let from = self.chains(words)?;
        let filter = self.after_word(words, Kind::Where)?;
        let group_by = grouping(self.alloc, words)?;
        Ok(Select {
            distinct,
            list,
            from,
            filter,
            group_by,
        })
    }

    #[tactic(auto, unfolding(crate::specs::QueryParsers::further))]
    fn further(&self, words: &mut Reader<'_>) -> Result<Further, GrammarError>
        requires { Nests self.now.value self.now.depth (F.pre self.now.expr) (F.post self.now.expr) }
        ensures { Reads (spec.further (expr_within self.now.value self.now.depth) words.old) result words.new }
    {
        let Some(by) = set_operator_of(words.peek()) else {
            return Err(GrammarError::Syntax);
        };
        words.take();
        let all = words.eat(Kind::All);
        let select = self.select(words)?;
        Ok(Further { by, all, select })
    }

    #[tactic(auto, unfolding(sql_phrases::specs::Parsers::repeated), using(sql_phrases::proofs::Turns::repeated_step, sql_phrases::proofs::Turns::repeated_done))]
    fn furthers(&self, words: &mut Reader<'_>) -> Result<Items<Further>, GrammarError>
        requires { Nests self.now.value self.now.depth (F.pre self.now.expr) (F.post self.now.expr) }
        ensures { Reads (repeated spec.begins_further (spec.further (expr_within self.now.value self.now.depth)) words.old) result words.new }
    {
        let mut found = Items::new(self.alloc);
        for _turn in 0..words.len() {
            if !begins_further(words.peek()) {
                return Ok(found);
            }
            found.push(self.further(words)?)?;
        }
        Ok(found)
    }

    #[tactic(auto, unfolding(crate::specs::QueryParsers::query))]
    pub fn query(&self, words: &mut Reader<'_>) -> Result<Query, GrammarError>
        requires { Nests self.now.value self.now.depth (F.pre self.now.expr) (F.post self.now.expr) }
        ensures { Reads (spec.query (expr_within self.now.value self.now.depth) words.old) result words.new }
    {
        let first = self.select(words)?;
        let others = self.furthers(words)?;
        Ok(Query {
            first: Shared::new(self.alloc, first)?,
            others: Shared::new(self.alloc, others)?,
        })
    }
}
