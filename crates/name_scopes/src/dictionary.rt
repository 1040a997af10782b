//! What names of tables and routines stand for.

ghost use Rattle.std.specs.Prelude.{◌≡◌, IfOk, MatchOption, Some, None, option_map};
ghost use Rattle.name_scopes.specs.Known as spec;
ghost use Rattle.name_scopes.specs.Known.{Known};
ghost use Rattle.name_scopes.specs.declared.scope.Signature.{Signature};

use sql_tree::{Items, Name, Object, Param, SqlType};
use std::alloc::{AllocError, Global};

/// What names of tables and routines stand for, as a catalogue tells it.
pub trait Dictionary {
    ghost known: { Self → Known };

    /// Whether this is a base table, or a view where views may be named.
    fn is_table(&self, views: bool, table: &Object) -> bool
        ensures { result ≡ spec.is_table (known self.now) views table.now };

    /// The names of the columns of a base table or a view, in order.
    fn column_names(&self, alloc: Global, table: &Object) -> Result<Items<Name>, AllocError>
        ensures { IfOk result (λ names. names ≡ spec.column_names (known self.now) table.now) };

    /// The type of a column of a base table or a view.
    fn sort_of(&self, table: &Object, column: &Name) -> Option<SqlType>
        ensures { result ≡ spec.sort_of (known self.now) table.now column.now };

    /// The parameters of a routine.
    fn params<'a>(&'a self, routine: &Object) -> Option<&'a [Param]>
        ensures { MatchOption result ((known self.now).routine routine.now ≡ None) (λ r. option_map (λ (s : Signature). s.params) ((known self.now).routine routine.now) ≡ Some r.now) };

    /// The type that a routine returns, where it is a function.
    fn returns(&self, routine: &Object) -> Option<Option<SqlType>>
        ensures { result ≡ option_map (λ (s : Signature). s.returns) ((known self.now).routine routine.now) };
}
