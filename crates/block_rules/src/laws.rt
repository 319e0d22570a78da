//! What holds of every block.
ghost use Rattle.block_rules.specs.Laws.{InternalIsLatest, NewIsUnspent, NewIsPaid};

/// Where no outpoint is spent twice in a block, an internal input spends the latest of the outputs that the transactions
/// before it made under its name.
pub fn internal_is_latest()
    ensures { InternalIsLatest }
{}

/// Where no outpoint is spent twice in a block, it adds the outputs that none of its inputs spends.
pub fn new_is_unspent()
    ensures { NewIsUnspent }
{}

/// Where the rules on money pass, a block adds no more value than the subsidy and what it spends from outside.
pub fn new_is_paid()
    ensures { NewIsPaid }
{}
