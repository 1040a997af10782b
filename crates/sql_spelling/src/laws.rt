//! A law of the definitions that the other contracts cite. It stands in the contract of a function that does nothing.

ghost use Rattle.sql_spelling.specs.KeywordLaws as keywords;

/// A plain word has the kind of a reserved word exactly where it is one of SQL:2003's in this profile, and stands for a name
/// exactly where it isn't.
pub fn reserved_words_are_no_names()
    ensures { keywords.ReservedWordsAreNoNames }
{}
