//! Laws of the definitions that the other contracts cite. Each stands in the contract of a function that does nothing.

ghost use Rattle.sql_grammar.specs.Laws.{CountsBrackets, HasNoOtherLimit};

/// The limit of brackets is a count over the words: a statement within a number of at least 2 has at most that many open behind
/// each front part of its words, and where at most that many are open, what is a statement within any number is one within it.
///
/// Below 2 the first is not so: the brackets that the rules themselves have, as those round a list of names inside a table's, are up
/// to two deep whatever the number.
pub fn brackets_are_counted()
    ensures counted { CountsBrackets }
    ensures no_other_limit { HasNoOtherLimit }
{}
