//! Laws of the definitions that the other contracts cite. Each stands in the contract of a function that does nothing.

ghost use Rattle.std.specs.Prelude.{Bool, ℕ};
ghost use Rattle.sql_expressions.specs.ExpressionRules.{SpellsExprWithin, SpellsQueryWithin};
ghost use Rattle.sql_expressions.specs.ExpressionParsers.{expr_within, query_within};
ghost use Rattle.sql_expressions.specs.Laws.{ReadsOnlySpelled, ReadsAllSpelled, IsUnambiguous, CountsBrackets, HasNoOtherLimit};

/// The words that `expr` takes spell the expression that it gives; where words spell one to their end, it gives that one; and
/// they spell at most one.
pub fn expressions_are_read_exactly()
    ensures only { (value : Bool) (n : ℕ) → ReadsOnlySpelled (expr_within value n) (SpellsExprWithin value n) }
    ensures all { (value : Bool) (n : ℕ) → ReadsAllSpelled (expr_within value n) (SpellsExprWithin value n) }
    ensures unambiguous { (value : Bool) (n : ℕ) → IsUnambiguous (SpellsExprWithin value n) }
{}

/// The same of `query`.
pub fn queries_are_read_exactly()
    ensures only { (value : Bool) (n : ℕ) → ReadsOnlySpelled (query_within value n) (SpellsQueryWithin value n) }
    ensures all { (value : Bool) (n : ℕ) → ReadsAllSpelled (query_within value n) (SpellsQueryWithin value n) }
    ensures unambiguous { (value : Bool) (n : ℕ) → IsUnambiguous (SpellsQueryWithin value n) }
{}

/// The limit of brackets is a count over the words: an expression or a query is one within a number exactly where it is one
/// within some number and fewer brackets than that are open behind each of its words.
pub fn brackets_are_counted()
    ensures expressions { (value : Bool) → CountsBrackets (SpellsExprWithin value) }
    ensures queries { (value : Bool) → CountsBrackets (SpellsQueryWithin value) }
    ensures no_other_limit_of_expressions { (value : Bool) → HasNoOtherLimit (SpellsExprWithin value) }
    ensures no_other_limit_of_queries { (value : Bool) → HasNoOtherLimit (SpellsQueryWithin value) }
{}
