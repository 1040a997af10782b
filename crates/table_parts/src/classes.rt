//! Classes of types (comparability and assignability of data types, SQL:2003 part 2, 4.1).

ghost use Rattle.std.specs.Prelude.{◌≡◌, ◌↔◌, IsTrue};
ghost use Rattle.std.specs.Option.{option_copied};
ghost use Rattle.table_parts.specs.Classes as spec;

use sql_tree::{Default, Special, SqlType};

/// A class of types: values of one class can be compared and assigned.
#[derive(Clone, Copy, Debug, PartialEq, Eq)]
pub enum Class {
    Number,
    Text,
    Boolean,
    Date,
    Time,
    Timestamp,
}

/// The class of a type.
pub fn class_of(sort: SqlType) -> Class
    ensures { result ≡ spec.class_of sort }
{
    match sort {
        SqlType::Character { .. } | SqlType::CharacterVarying { .. } => Class::Text,
        SqlType::Numeric { .. } | SqlType::Decimal { .. } => Class::Number,
        SqlType::Smallint | SqlType::Integer | SqlType::Bigint => Class::Number,
        SqlType::Boolean => Class::Boolean,
        SqlType::Date => Class::Date,
        SqlType::Time { .. } => Class::Time,
        SqlType::Timestamp { .. } => Class::Timestamp,
    }
}

/// The class of a default; NULL has none.
pub fn default_class(default: &Default) -> Option<Class>
    ensures { result ≡ spec.default_class default.now }
{
    match default {
        Default::Literal(_) => Some(Class::Text),
        Default::Number { .. } => Some(Class::Number),
        Default::True | Default::False => Some(Class::Boolean),
        Default::Null => None,
        Default::Special(special) => Some(special_class(*special)),
    }
}

/// The class of a value of the session or the clock.
fn special_class(special: Special) -> Class
    ensures { result ≡ spec.special_class special }
{
    match special {
        Special::CurrentUser => Class::Text,
        Special::CurrentDate => Class::Date,
        Special::CurrentTime => Class::Time,
        Special::CurrentTimestamp => Class::Timestamp,
    }
}

/// Whether a default has another class than a type (SQL:2003 part 2, 11.5). It takes no memory.
pub fn is_misfit(default: Option<&Default>, sort: SqlType) -> bool
    ensures { IsTrue result ↔ spec.IsMisfit (option_copied default.entry) sort }
{
    match default {
        None => false,
        Some(default) => match default_class(default) {
            None => false,
            Some(class) => class != class_of(sort),
        },
    }
}
