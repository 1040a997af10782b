//! The law stands in the contract of a function that does nothing.

ghost use Rattle.resolved_bodies.specs.Laws.{BodiesAreResolved};

/// Where each table has a column, what comes of a body that the grammar gave is resolved: each reference, object and item has its name in
/// full, each INSERT its column list, no star is left, each GROUP BY refers to its own FROM, and texts, numbers, types and lists are of their
/// form still.
pub fn bodies_are_resolved()
    ensures { BodiesAreResolved }
{}
