//! The law, as the contract of a call that does nothing.
ghost use Rattle.order_laws.specs.Links.{OrderedLinksUp};

/// Over the frames of a path, `follow` from the start and `prove` refuse no block for its link before they have refused another.
pub fn linked_up()
    ensures { OrderedLinksUp }
{}
