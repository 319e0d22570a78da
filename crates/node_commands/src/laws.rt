//! What holds of the answers of all commands, of each run of `follow`, of runs that are stopped and go on, of states and feeds that are written anew,
//! and of hashes among the words. There is no code here.
ghost use Rattle.node_commands.specs.Fronts.{AnswersBeginWithEvents};
ghost use Rattle.node_commands.specs.Ordering.{PrintedIsNamed};
ghost use Rattle.node_commands.specs.Plainly.{FollowedIsValid, ResumedIsValid};
ghost use Rattle.node_commands.specs.Stopping.{FreshBegins, PiecesAreParted, ResumedIsWhole};
ghost use Rattle.node_commands.specs.Upgrading.{StatesAreUpgraded};
ghost use Rattle.node_commands.specs.UpgradingFeed.{UpgradedFeedsAreFollowed};

/// What a command prints and stores of the events of a feed stands at the front of its answer to the feed, whatever it began with.
pub fn answers_begin_with_events()
    ensures { AnswersBeginWithEvents }
{}

/// Whatever the feed, what `follow` says of its events could be said by a node that holds every output and reads no proof; or `audit` over the same
/// bytes ends with two different texts with one digest.
pub fn followed_is_valid()
    ensures { FollowedIsValid }
{}

/// So it is of what a first run says and then of what a run says that goes on from the state that it stored; or an auditor that is told the events
/// of both shows two such texts.
pub fn resumed_is_valid()
    ensures { ResumedIsValid }
{}

/// A run of `follow` that ends between two events, and a second one from the state that it stored, print the lines and store the bytes
/// of one run over both, however often a run is stopped, where no proof is forged before. The last lines differ: that of an end, since each
/// tells the events of its own run, and that of a bad frame, since each counts the offset from the first byte of its own feed.
pub fn resumed_is_whole()
    ensures { ResumedIsWhole }
{}

/// A feed that is read to its end, and that does not end with a proof, is such a first piece, whatever comes behind it within the limit of bytes.
pub fn pieces_are_parted()
    ensures { PiecesAreParted }
{}

/// The first of these runs may begin with a node that has no block.
pub fn fresh_begins()
    ensures { FreshBegins }
{}

/// Of each state, in either version, `upgrade state` stores the text of version 2, and tells how many levels it has.
pub fn states_are_upgraded()
    ensures { StatesAreUpgraded }
{}

/// What `upgrade feed` stores of a feed is followed as the feed is: with the same answer where the feed is read to its end, and in any case with the
/// same lines of the events, also where proofs are forged.
pub fn upgraded_feeds_are_followed()
    ensures { UpgradedFeedsAreFollowed }
{}

/// A block hash is named by the word that is printed of it.
pub fn printed_is_named()
    ensures { PrintedIsNamed }
{}
