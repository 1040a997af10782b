//! Numbers as they are written.

ghost use Rattle.std.specs.Prelude.{◌≡◌, ◌≤◌, ◌+◌, ◌-◌, ◌*◌, ◌^◌, nat_eq, IfSome, IfNone};
ghost use Rattle.std.specs.List.{list_all};
ghost use Rattle.information_schema.specs.Queries as spec;

/// The number with a digit behind it, if there is such a number.
fn with_digit(so_far: u64, byte: u8) -> Option<u64>
    ensures some { IfSome result (λ n. n ≡ 10 * so_far + (byte - 48)) }
    ensures none { IfNone result (2 ^ 64 ≤ 10 * so_far + (byte - 48)) }
{
    so_far
        .checked_mul(10)?
        .checked_add(byte.saturating_sub(48) as u64)
}

/// Whether the whole part is this number, behind the digits of `so_far`.
fn whole_is(text: &[u8], so_far: u64, n: u64) -> bool
    ensures { result ≡ nat_eq (spec.worth so_far text.now) n }
{
    match text {
        [] => so_far == n,
        [byte, rest @ ..] => {
            if *byte == 46 {
                return so_far == n;
            }
            match with_digit(so_far, *byte) {
                Some(more) => whole_is(rest, more, n),
                None => false,
            }
        }
    }
}

fn are_zeros(text: &[u8]) -> bool
    ensures { result ≡ list_all (λ b. nat_eq b 48) text.now }
{
    match text {
        [] => true,
        [byte, rest @ ..] => *byte == 48 && are_zeros(rest),
    }
}

fn has_zero_fraction(text: &[u8]) -> bool
    ensures { result ≡ list_all (λ b. nat_eq b 48) (spec.fraction text.now) }
{
    match text {
        [] => true,
        [byte, rest @ ..] => {
            if *byte == 46 {
                are_zeros(rest)
            } else {
                has_zero_fraction(rest)
            }
        }
    }
}

/// Whether a number, as it is written, is this one.
pub fn is_worth(text: &[u8], n: u64) -> bool
    ensures { result ≡ spec.is_worth text.now n }
{
    whole_is(text, 0, n) && has_zero_fraction(text)
}
