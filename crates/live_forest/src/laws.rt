//! Laws on the forest. There is no code here.
ghost use Rattle.live_forest.specs.Blocks.{UndoingGivesBack};
ghost use Rattle.live_forest.specs.Nodes.{LookUpsTellNodes};

/// What `digest_at` and `number_at` answer are the digest and the number of the node that stands at the place when the whole
/// list of entries is laid out from the roots downwards and hashed from nothing; and None where no node does.
pub fn look_ups_tell_nodes()
    ensures { LookUpsTellNodes }
{}

/// A block that spent entries and added some is undone by a cut and by making live again what it spent, in any order, each
/// with the digest that it had: then the entries are those before the block.
pub fn undoing_gives_back()
    ensures { UndoingGivesBack }
{}
