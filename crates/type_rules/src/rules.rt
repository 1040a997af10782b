//! Data types of values and operations.

ghost use Rattle.std.specs.Prelude.{◌≡◌, ◌+◌, ◌-◌, ◌*◌, None, Some, MatchOption, min};
ghost use Rattle.type_rules.specs.Rules as spec;

use sql_tree::{Additive, Aggregate, Special, SqlType};
/// Exact numeric types.

pub fn is_number(sort: SqlType) -> bool
    ensures { result ≡ spec.is_number sort }
{
    matches!(
        sort,
        SqlType::Smallint
            | SqlType::Integer
            | SqlType::Bigint
            | SqlType::Numeric { .. }
            | SqlType::Decimal { .. }
    )
}
/// CHARACTER and CHARACTER VARYING.

pub fn is_text(sort: SqlType) -> bool
    ensures { result ≡ spec.is_text sort }
{
    matches!(
        sort,
        SqlType::Character { .. } | SqlType::CharacterVarying { .. }
    )
}
/// BOOLEAN

pub fn is_boolean(sort: SqlType) -> bool
    ensures { result ≡ spec.is_boolean sort }
{
    matches!(sort, SqlType::Boolean)
}

fn is_date(sort: SqlType) -> bool
    ensures { result ≡ spec.is_date sort }
{
    matches!(sort, SqlType::Date)
}

fn is_time(sort: SqlType) -> bool
    ensures { result ≡ spec.is_time sort }
{
    matches!(sort, SqlType::Time { .. })
}

fn is_timestamp(sort: SqlType) -> bool
    ensures { result ≡ spec.is_timestamp sort }
{
    matches!(sort, SqlType::Timestamp { .. })
}

/// Whether both are numbers, texts, booleans, dates, times or timestamps.
pub fn one_class(a: SqlType, b: SqlType) -> bool
    ensures { result ≡ spec.one_class a b }
{
    is_number(a) && is_number(b)
        || is_text(a) && is_text(b)
        || is_boolean(a) && is_boolean(b)
        || is_date(a) && is_date(b)
        || is_time(a) && is_time(b)
        || is_timestamp(a) && is_timestamp(b)
}

fn is_integer(sort: SqlType) -> bool
    ensures { result ≡ spec.is_integer sort }
{
    matches!(sort, SqlType::Smallint | SqlType::Integer | SqlType::Bigint)
}

fn wider(a: SqlType, b: SqlType) -> SqlType
    ensures { result ≡ spec.wider a b }
{
    match (a, b) {
        (SqlType::Bigint, _) => SqlType::Bigint,
        (SqlType::Integer, SqlType::Bigint) => SqlType::Bigint,
        (SqlType::Integer, _) => SqlType::Integer,
        _ => b,
    }
}

fn scale_of(sort: SqlType) -> u32
    ensures { result ≡ spec.scale_of sort }
{
    match sort {
        SqlType::Numeric { scale, .. } | SqlType::Decimal { scale, .. } => scale,
        _ => 0,
    }
}
/// The type of `+`, `-`, `*` and `/`: of two integer types the wider, of other numbers NUMERIC(38, the greater scale).

pub fn arithmetic(a: SqlType, b: SqlType) -> Option<SqlType>
    ensures { result ≡ spec.arithmetic a b }
{
    if is_integer(a) && is_integer(b) {
        Some(wider(a, b))
    } else if is_number(a) && is_number(b) {
        Some(SqlType::Numeric {
            precision: 38,
            scale: scale_of(a).max(scale_of(b)),
        })
    } else {
        None
    }
}

fn length_of(sort: SqlType) -> u32
    ensures { result ≡ spec.length_of sort }
{
    match sort {
        SqlType::Character { length } | SqlType::CharacterVarying { length } => length,
        _ => 0,
    }
}

fn concatenation(a: SqlType, b: SqlType) -> Option<SqlType>
    ensures { result ≡ spec.concatenation a b }
{
    if is_text(a) && is_text(b) {
        let length = length_of(a).saturating_add(length_of(b)).min(1_000_000);
        Some(SqlType::CharacterVarying { length })
    } else {
        None
    }
}
/// The type of `+`, `-` and `||`. A concatenation has at most 1,000,000 bytes.

pub fn additive(by: Additive, a: SqlType, b: SqlType) -> Option<SqlType>
    ensures { result ≡ spec.additive by a b }
{
    match by {
        Additive::Concatenation => concatenation(a, b),
        Additive::Plus | Additive::Minus => arithmetic(a, b),
    }
}
/// The type with or without a minus in front.

pub fn negative(minus: bool, a: SqlType) -> Option<SqlType>
    ensures { result ≡ spec.negative minus a }
{
    if !minus || is_number(a) {
        Some(a)
    } else {
        None
    }
}

fn fraction(text: &[u8]) -> Option<&[u8]>
    ensures { MatchOption result (spec.fraction text.now ≡ None) (λ r. spec.fraction text.now ≡ Some r.now) }
{
    for at in 0..text.len() {
        if text[at] == b'.' {
            return Some(&text[at + 1..]);
        }
    }
    None
}

/// The number with one more digit, or another one above BIGINT where it is above BIGINT.
fn with_digit(value: u64, byte: u8) -> u64
    ensures { spec.up_to_bigint result ≡ spec.up_to_bigint (value * 10 + (byte - 48)) }
{
    if value < 922_337_203_685_477_581 {
        value * 10 + u64::from(byte.saturating_sub(b'0'))
    } else {
        9_223_372_036_854_775_808
    }
}

/// The number that these digits spell, or another one above BIGINT where it is above BIGINT.
#[tactic(auto, using(crate::proofs::Values::value_more))]
fn value_of(text: &[u8]) -> u64
    ensures { spec.up_to_bigint result ≡ spec.up_to_bigint (spec.value_from 0 text.now) }
{
    let mut value: u64 = 0;
    for byte in text {
        value = with_digit(value, *byte);
    }
    value
}

fn whole_type(value: u64) -> SqlType
    ensures { result ≡ spec.whole_type value }
{
    if value <= 2_147_483_647 {
        SqlType::Integer
    } else if value <= 9_223_372_036_854_775_807 {
        SqlType::Bigint
    } else {
        SqlType::Numeric {
            precision: 38,
            scale: 0,
        }
    }
}

/// At most 38 digits.
fn digits(count: usize) -> u32
    ensures { result ≡ min 38 count }
{
    if count < 38 { count as u32 } else { 38 }
}

/// The type of a number as it is written: INTEGER or BIGINT where it fits, else NUMERIC.
#[tactic(auto, using(crate::proofs::Values::same_whole_type), unfolding(crate::specs::Rules::number_type))]
pub fn number_type(text: &[u8]) -> SqlType
    ensures { result ≡ spec.number_type text.now }
{
    match fraction(text) {
        None => whole_type(value_of(text)),
        Some(behind) => SqlType::Numeric {
            precision: digits(text.len() - 1),
            scale: digits(behind.len()),
        },
    }
}
/// The type of a literal: CHARACTER of its bytes, which are at least 1 and at most 1,000,000.

pub fn literal_type(text: &[u8]) -> SqlType
    ensures { result ≡ spec.literal_type text.now }
{
    let length = if text.len() < 1_000_000 {
        text.len() as u32
    } else {
        1_000_000
    };
    SqlType::Character {
        length: length.max(1),
    }
}
/// The type of CURRENT_USER and the like.

pub fn special_type(special: Special) -> SqlType
    ensures { result ≡ spec.special_type special }
{
    match special {
        Special::CurrentUser => SqlType::CharacterVarying { length: 128 },
        Special::CurrentDate => SqlType::Date,
        Special::CurrentTime => SqlType::Time { precision: 0 },
        Special::CurrentTimestamp => SqlType::Timestamp { precision: 6 },
    }
}

/// The type that values of both have together.
pub fn joined(a: SqlType, b: SqlType) -> Option<SqlType>
    ensures { result ≡ spec.joined a b }
{
    match (a, b) {
        (SqlType::Character { length: m }, SqlType::Character { length: n }) => {
            if m == n {
                Some(SqlType::Character { length: m })
            } else {
                Some(SqlType::CharacterVarying { length: m.max(n) })
            }
        }
        (
            SqlType::Numeric {
                precision: p,
                scale: s,
            },
            SqlType::Numeric {
                precision: q,
                scale: t,
            },
        ) => {
            if p == q && s == t {
                Some(SqlType::Numeric {
                    precision: p,
                    scale: s,
                })
            } else {
                Some(SqlType::Numeric {
                    precision: 38,
                    scale: s.max(t),
                })
            }
        }
        (
            SqlType::Decimal {
                precision: p,
                scale: s,
            },
            SqlType::Decimal {
                precision: q,
                scale: t,
            },
        ) => {
            if p == q && s == t {
                Some(SqlType::Decimal {
                    precision: p,
                    scale: s,
                })
            } else {
                Some(SqlType::Numeric {
                    precision: 38,
                    scale: s.max(t),
                })
            }
        }
        (SqlType::Boolean, SqlType::Boolean) => Some(SqlType::Boolean),
        (SqlType::Date, SqlType::Date) => Some(SqlType::Date),
        (SqlType::Time { precision: m }, SqlType::Time { precision: n }) => {
            Some(SqlType::Time {
                precision: m.max(n),
            })
        }
        (SqlType::Timestamp { precision: m }, SqlType::Timestamp { precision: n }) => {
            Some(SqlType::Timestamp {
                precision: m.max(n),
            })
        }
        _ => joined_others(a, b),
    }
}

fn joined_others(a: SqlType, b: SqlType) -> Option<SqlType>
    ensures { result ≡ spec.joined_others a b }
{
    if is_text(a) && is_text(b) {
        Some(SqlType::CharacterVarying {
            length: length_of(a).max(length_of(b)),
        })
    } else {
        arithmetic(a, b)
    }
}
/// The type of CAST, where a value of the first type can be cast to the second: within a class, and from and to text.

pub fn cast(a: SqlType, sort: SqlType) -> Option<SqlType>
    ensures { result ≡ spec.cast a sort }
{
    if one_class(a, sort) || is_text(a) || is_text(sort) {
        Some(sort)
    } else {
        None
    }
}

fn total(a: SqlType) -> Option<SqlType>
    ensures { result ≡ spec.total a }
{
    if is_integer(a) {
        Some(SqlType::Bigint)
    } else if is_number(a) {
        Some(SqlType::Numeric {
            precision: 38,
            scale: scale_of(a),
        })
    } else {
        None
    }
}
/// The type of a set function of values of this type.

pub fn aggregate(by: Aggregate, a: SqlType) -> Option<SqlType>
    ensures { result ≡ spec.aggregate by a }
{
    match by {
        Aggregate::Count => Some(SqlType::Bigint),
        Aggregate::Min | Aggregate::Max => Some(a),
        Aggregate::Sum | Aggregate::Avg => total(a),
    }
}
