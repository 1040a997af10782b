//! Keywords, and kinds of words.

ghost use Rattle.std.specs.Prelude.{◌≡◌, ◌<◌, [], length, map, slice_index_or};
ghost use Rattle.sql_spelling.specs.Keywords as keywords;
ghost use Rattle.sql_spelling.specs.Kinds as spec;
ghost use Rattle.sql_spelling.specs.Sections as table;

use crate::keywords::KEYWORDS;

/// What the grammar sees of a word: a kind for each keyword, each symbol and each class of words.
#[derive(Clone, Copy, Debug, PartialEq, Eq)]
pub enum Kind {
    /// No word: the place behind the last one.
    EndOfText,
    /// A quoted name, or a plain word that is no keyword.
    Name,
    Literal,
    Number,
    // The symbols.
    LeftParen,
    RightParen,
    Comma,
    Period,
    Semicolon,
    Equals,
    NotEquals,
    LessThan,
    LessThanOrEquals,
    GreaterThan,
    GreaterThanOrEquals,
    PlusSign,
    MinusSign,
    Asterisk,
    Solidus,
    Concatenation,
    // The reserved words: none of them stands for a name where it is plain.
    All,
    Alter,
    And,
    As,
    Atomic,
    Authorization,
    Avg,
    Begin,
    Between,
    Bigint,
    Boolean,
    By,
    Call,
    Case,
    Cast,
    Char,
    Character,
    Check,
    Column,
    Connect,
    Constraint,
    Count,
    Create,
    Cross,
    CurrentDate,
    CurrentRole,
    CurrentTime,
    CurrentTimestamp,
    CurrentUser,
    Date,
    Dec,
    Decimal,
    Default,
    Delete,
    Disconnect,
    Distinct,
    Drop,
    Else,
    End,
    Except,
    Exists,
    False,
    Foreign,
    From,
    Function,
    Grant,
    Group,
    In,
    Inner,
    Insert,
    Int,
    Integer,
    Into,
    Is,
    Join,
    Like,
    Max,
    Min,
    None,
    Not,
    Null,
    Numeric,
    On,
    Or,
    Primary,
    Procedure,
    Public,
    References,
    Return,
    Returns,
    Revoke,
    Select,
    Set,
    Smallint,
    Sum,
    Table,
    Then,
    Time,
    Timestamp,
    To,
    True,
    Union,
    Unique,
    Update,
    User,
    Value,
    Values,
    Varchar,
    Varying,
    When,
    Where,
    With,
    // The other words of the grammar, which also stand for names.
    Action,
    Add,
    Admin,
    Assertion,
    Cascade,
    Connection,
    Definer,
    Domain,
    Execute,
    For,
    Full,
    Granted,
    InformationSchema,
    Invoker,
    Key,
    Language,
    Match,
    No,
    Option,
    Partial,
    Privileges,
    Restrict,
    Role,
    Routine,
    Schema,
    Security,
    Simple,
    Sql,
    Usage,
    View,
    // Words of statements that this grammar lacks, which also stand for names.
    Catalog,
    Collation,
    Commit,
    Constraints,
    Declare,
    Global,
    Local,
    Merge,
    Method,
    Names,
    Ordering,
    Path,
    Recursive,
    Release,
    Rollback,
    Savepoint,
    Sequence,
    Session,
    Start,
    Transaction,
    Transform,
    Translation,
    Trigger,
    Type_,
}

// One of these tables of keywords.
fn section(
    sections: &[&'static [(&'static [u8], Kind)]],
    index: usize,
) -> &'static [(&'static [u8], Kind)]
    requires { index < length sections.now }
    ensures { map (λ entry. (entry.0.now, entry.1)) result.now ≡ slice_index_or (table.sections_of sections.now) index [] }
{
    sections[index]
}

// The keywords that begin with a letter.
#[tactic(auto, unfolding(crate::specs::Sections::keywords_of, crate::specs::Sections::sections))]
fn keywords_of(letter: u8) -> &'static [(&'static [u8], Kind)]
    ensures { map (λ entry. (entry.0.now, entry.1)) result.now ≡ table.keywords_of letter }
{
    if letter.is_ascii_uppercase() {
        section(&KEYWORDS, (letter - b'A') as usize)
    } else {
        &[]
    }
}

// The kind that a table of keywords has for a text.
fn lookup(mut table: &[(&[u8], Kind)], text: &[u8]) -> Kind
    ensures { result ≡ spec.lookup (map (λ entry. (entry.0.now, entry.1)) table.entry.now) text.now }
{
    while let [entry, rest @ ..] = table {
        if entry.0 == text {
            return entry.1;
        }
        table = rest;
    }
    Kind::Name
}

/// The kind of a plain word, in upper case: that of the keyword that it is, or `Name`.
pub fn keyword(text: &[u8]) -> Kind
    ensures { result ≡ spec.keyword text.now }
{
    match text {
        [letter, ..] => lookup(keywords_of(*letter), text),
        [] => Kind::Name,
    }
}

/// `==` on kinds.
#[tactic(auto, unfolding(crate::specs::Kinds::same_kind))]
pub fn same_kind(a: Kind, b: Kind) -> bool
    ensures { result ≡ spec.same_kind a b }
{
    a == b
}

/// Whether a kind is that of a reserved word.
#[tactic(auto, unfolding(crate::specs::Kinds::is_reserved))]
pub fn is_reserved(kind: Kind) -> bool
    ensures { result ≡ spec.is_reserved kind }
{
    let number = kind as u8;
    (Kind::All as u8) <= number && number <= (Kind::With as u8)
}

/// Whether a text in upper case is a reserved word, which names nothing unless it is quoted.
pub fn is_reserved_word(text: &[u8]) -> bool
    ensures { result ≡ keywords.is_reserved_word text.now }
{
    is_reserved(keyword(text))
}

/// Whether a word of this kind stands for a name: a quoted name, and each plain word that isn't reserved.
#[tactic(auto, unfolding(crate::specs::Kinds::is_name))]
pub fn is_name(kind: Kind) -> bool
    ensures { result ≡ spec.is_name kind }
{
    same_kind(kind, Kind::Name) || (Kind::With as u8) < (kind as u8)
}
