//! Laws of the definitions that the other contracts cite. Each stands in the contract of a function that does nothing.

ghost use Rattle.sql_words.specs.StreamLaws as law;
ghost use Rattle.sql_words.specs.WordForms as words;

/// A stream has a division into parts, and no other, and the parts are the stream.
///
/// The parts are the lexical elements of SQL:2003 as far as the ends of statements need them: literals, quoted names, simple
/// and bracketed comments, runs of letters, digits and underscores, and other bytes.
pub fn each_stream_has_one_division()
    ensures division { law.EachStreamHasOneDivision }
    ensures parts { law.PartsJoinToTheStream }
{}

/// The texts of a stream and its rest are those of its parts, and it is blank where each of them is.
pub fn texts_are_those_of_the_parts()
    ensures texts { law.TextsAreThoseOfTheParts }
    ensures blank { law.BlankByParts }
{}

/// Where a stream goes on, its texts and its rest go on from its rest so far.
pub fn pieces_compose()
    ensures { law.PiecesCompose }
{}

/// The bytes of a token spell its word, and each word of a text is one that its form allows: a plain word has 1 to 128
/// letters in upper case, digits and underscores, a quoted name 1 to 128 bytes of UTF-8, a literal UTF-8, a number at most 38 digits.
pub fn tokens_spell_their_words()
    ensures tokens { words.TokensSpellTheirWords }
    ensures texts { words.TextsHaveWords }
{}

/// Words that are spelled out, each with a space behind it, are the words of that text.
pub fn spelled_words_are_read()
    ensures { words.SpelledWordsAreRead }
{}
