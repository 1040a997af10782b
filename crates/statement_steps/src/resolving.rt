//! What the names and types of a tree tell.

ghost use Rattle.std.specs.Prelude.{◌≡◌};
ghost use Rattle.statement_steps.specs.Resolving as spec;

use cat_items::{EditError, Refusal};
use name_scopes::ResolveError;

/// The refusal by names: `UnknownName` or `Ambiguous`. Where all names stand, what they come to, or none where there is no type: that is
/// told later, behind owners and names that are taken.
pub fn by_names<T>(resolved: Result<T, ResolveError>) -> Result<Option<T>, EditError>
    ensures { result ≡ spec.by_names resolved }
{
    match resolved {
        Ok(value) => Ok(Some(value)),
        Err(ResolveError::UnknownName(path)) => Err(EditError::Refused(Refusal::UnknownName {
            path,
        })),
        Err(ResolveError::Ambiguous(name)) => Err(EditError::Refused(Refusal::Ambiguous { name })),
        Err(ResolveError::TypeMismatch) => Ok(None),
        Err(ResolveError::Memory) => Err(EditError::Memory),
    }
}
