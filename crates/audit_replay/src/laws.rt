//! What holds of auditors. There is no code here.
ghost use Rattle.audit_replay.specs.Laws.{AuditIsFullThroughout, FreshIsFull, FreshShowsForged, SupplyIsOfLevel};

/// An auditor says of a list of events what the node says that holds every output, up to the first forged one, at which it ends.
pub fn audit_is_full_throughout()
    ensures { AuditIsFullThroughout }
{}

/// From the start of both on.
pub fn fresh_is_full()
    ensures { FreshIsFull }
{}

/// At the first forged event of a list an auditor from its start shows two different texts with one digest.
pub fn fresh_shows_forged()
    ensures { FreshShowsForged }
{}

/// The history of an auditor is that of the newest level for which it stands, so its supply is that level's.
pub fn supply_is_of_level()
    ensures { SupplyIsOfLevel }
{}
