//! The laws of decisions. Each function does nothing, and its contract is the law: only what a contract names is proved.

ghost use Rattle.zn_ops.specs.Laws.{PlannedSinglesAreUpdates, PlannedWhereNotRefused};

/// On a view of a sound state with valid paths in which the session is attached to this connection, a request that its form does
/// not decide is planned exactly where the tree does not answer it. Of the single requests only a create, a delete or a setData
/// is ever planned.
pub fn planned_where_not_refused()
    ensures planned { PlannedWhereNotRefused }
    ensures update { PlannedSinglesAreUpdates }
{}
