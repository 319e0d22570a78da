//! What holds of worlds. There is no code here.
ghost use Rattle.relay_core.specs.Branches.{ActsAreFollowed, FollowersAreOnBranches, NoReplyIsLost, OneSerialOneChain, RepliesAreNeverRefused};
ghost use Rattle.relay_core.specs.Changes.{OutcomesTellChanges};
ghost use Rattle.relay_core.specs.Levels.{SerialsAreOfLevels};

/// A world that `new` gives stands for no act, and behind each step for one act more.
pub fn acts_are_followed()
    ensures { ActsAreFollowed }
{}

/// Each follower is on the branch of its newest serial, and stands for what the proving node holds behind that branch.
pub fn followers_are_on_branches()
    ensures { FollowersAreOnBranches }
{}

/// Two followers with one newest serial have the same chain and roots.
pub fn one_serial_one_chain()
    ensures { OneSerialOneChain }
{}

/// A reply that applies is never refused by the node that it goes to.
pub fn replies_are_never_refused()
    ensures { RepliesAreNeverRefused }
{}

/// No reply says `Lost`. The oldest level of a follower is never above the oldest one that the bridge can go back to, so its serial is on the chain.
pub fn no_reply_is_lost()
    ensures { NoReplyIsLost }
{}

/// A follower has a serial for each level of its node, which stands for what the proving node holds behind the branch of that serial.
pub fn serials_are_of_levels()
    ensures { SerialsAreOfLevels }
{}

/// An outcome tells whether the bridge changes, and whether a follower does.
pub fn outcomes_tell_changes()
    ensures { OutcomesTellChanges }
{}
