//! What holds of upgraded feeds. There is no code here.
ghost use Rattle.feed_upgrade.specs.Laws.{UpgradedIsTakenAlike, UpgradedIsFollowedAlike};

/// Of a block with a message and with that message upgraded a node says the same, with the details, and keeps the same then.
pub fn upgraded_is_taken_alike()
    ensures { UpgradedIsTakenAlike }
{}

/// So the text of the events of a feed with the messages upgraded is followed as the feed is. It is read as these events, and is no longer.
pub fn upgraded_is_followed_alike()
    ensures { UpgradedIsFollowedAlike }
{}
