//! Each law stands in the contract of a function that does nothing.

ghost use Rattle.routine_forms.specs.Laws.{FunctionsHaveTheirForms, ProceduresHaveTheirForms};

/// Where words spell CREATE FUNCTION, the numbers of the data types of its parameters and of its result are in their ranges, and its body is
/// formed.
pub fn functions_have_their_forms()
    ensures { FunctionsHaveTheirForms }
{}

/// The same of CREATE PROCEDURE.
pub fn procedures_have_their_forms()
    ensures { ProceduresHaveTheirForms }
{}
