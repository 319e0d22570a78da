//! What holds of bridges. There is no code here.
ghost use Rattle.bridge_prover.specs.Laws.{BridgeIsOwn, FreshIsBridge, FreshStands, KnownIsOwn, NextIsBridge, VerdictsTellLevels};
ghost use Rattle.bridge_prover.specs.Throughout.{BridgeProvesThroughout, FreshProvesThroughout};

/// Where a bridge stands for the levels of the proving node, both say the same of each event, rollbacks included, the bridge
/// passes on the message of that node, in full or for its watch list, and what it keeps then stands for what that node holds then, on
/// every level.
pub fn bridge_is_own()
    ensures { BridgeIsOwn }
{}

/// What a bridge knows is what is known, by the outputs that the proving node holds, to one who watches its list.
pub fn known_is_own()
    ensures { KnownIsOwn }
{}

/// A bridge with no block stands for no output.
pub fn fresh_stands()
    ensures { FreshStands }
{}

/// What a bridge keeps at the start is what a bridge keeps (`fresh`), and so is what it keeps after an event (`next`).
pub fn next_is_bridge()
    ensures fresh { FreshIsBridge }
    ensures next { NextIsBridge }
{}

/// A verdict tells which levels the bridge can go back to behind it.
pub fn verdicts_tell_levels()
    ensures { VerdictsTellLevels }
{}

/// So over any list of events the bridge says what the proving node says, and passes on what that one passes on.
pub fn bridge_proves_throughout()
    ensures { BridgeProvesThroughout }
{}

/// From the start of both on.
pub fn fresh_proves_throughout()
    ensures { FreshProvesThroughout }
{}
