//! Each law stands in the contract of a function that does nothing.

ghost use Rattle.statement_forms.specs.Laws.{ExpressionsAreFormed, QueriesAreFormed, TablesHaveTheirForms};

/// Where words spell an expression, its literals are UTF-8, its numbers are of the language's form, the numbers of its data
/// types are in their ranges, and no list that has a member is empty.
pub fn expressions_are_formed()
    ensures { ExpressionsAreFormed }
{}

/// So it is where words spell a query.
pub fn queries_are_formed()
    ensures { QueriesAreFormed }
{}

/// Where words spell CREATE TABLE, the numbers of its data types are in their ranges, its defaults are of their
/// form, and no list of columns is empty.
pub fn tables_have_their_forms()
    ensures { TablesHaveTheirForms }
{}
