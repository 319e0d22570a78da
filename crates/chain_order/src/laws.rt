//! Laws of paths. Each is the contract of a call that does nothing.
ghost use Rattle.chain_order.specs.Laws.{OnePath, PathIsTold};

/// Of arrivals with different hashes there is a path to a tip, or a fault with its cause, and only one of these.
pub fn path_is_told()
    ensures { PathIsTold }
{}

/// There is at most one path to a tip.
pub fn one_path()
    ensures { OnePath }
{}
