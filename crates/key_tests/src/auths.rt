//! Who grants, or is granted to.

ghost use Rattle.std.specs.Prelude.{◌≡◌};
ghost use Rattle.key_tests.specs.Tests as spec;

use cat_items::Auth;

pub fn is_public(auth: &Auth) -> bool
    ensures { result ≡ spec.is_public auth.now }
{
    match auth {
        Auth::Public => true,
        Auth::System | Auth::Named(_) => false,
    }
}

pub fn is_system(auth: &Auth) -> bool
    ensures { result ≡ spec.is_system auth.now }
{
    match auth {
        Auth::System => true,
        Auth::Public | Auth::Named(_) => false,
    }
}

/// Whether it is a user or a role.
pub fn is_named(auth: &Auth) -> bool
    ensures { result ≡ spec.is_named auth.now }
{
    match auth {
        Auth::Named(_) => true,
        Auth::System | Auth::Public => false,
    }
}
