//! What holds of tickets. There is no code here: each law is the contract of a function that does nothing.
ghost use Rattle.ticket_check.specs.Laws.{CheckedIsAccepted, KeptTicketsAreRight, LiveIsAccepted, LiveIsRight, RecheckedIsRight, RightIsLive};
ghost use Rattle.ticket_check.specs.Laws.{RightIsTested};

/// A ticket is said to be live exactly where the roots accept it.
pub fn live_is_accepted()
    ensures { LiveIsAccepted }
{}

/// The test of a right ticket over a whole history says what right is.
pub fn right_is_tested()
    ensures { RightIsTested }
{}

/// What is right is accepted by the roots of the history.
pub fn right_is_live()
    ensures { RightIsLive }
{}

/// Where a node stands for what a node holds that holds every output, the ticket of each kept entry is right.
pub fn kept_tickets_are_right()
    ensures { KeptTicketsAreRight }
{}

/// A node says that a ticket is live exactly where its roots accept it.
pub fn checked_is_accepted()
    ensures { CheckedIsAccepted }
{}

/// Where the node stands for what a node holds that holds every output, and its roots accept the ticket where it is right alone, it
/// says so exactly where the ticket is right.
pub fn live_is_right()
    ensures { LiveIsRight }
{}

/// An auditor says that a ticket is live exactly where it is right, and shows two texts with one digest exactly where the roots
/// accept it and it is not right.
pub fn rechecked_is_right()
    ensures { RecheckedIsRight }
{}
