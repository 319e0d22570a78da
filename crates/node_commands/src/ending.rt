//! What a run says at the end of a feed.
ghost use Rattle.std.specs.Prelude.{◌≡◌};
ghost use Rattle.feed_run.specs.Status.{status_of};
ghost use Rattle.node_commands.specs.Machine.{end_line, is_refused, tip_of};

use block_rules::{Chain, Verdict};
use feed_run::Status;
use report_lines::Line;
use uo_digest::Digest;

/// The last line: how many events there were, and the chain.
pub fn end_line(events: u64, chain: &Chain) -> Line
    ensures { result ≡ end_line events chain.now }
{
    Line::End {
        events,
        tip: tip_of(chain),
        leaves: chain.leaves,
    }
}

/// The height and the hash of the newest block.
pub fn tip_of(chain: &Chain) -> Option<(u32, Digest)>
    ensures { result ≡ tip_of chain.now }
{
    if chain.blocks == 0 {
        None
    } else {
        Some((chain.blocks - 1, chain.tip))
    }
}

/// The status of a run that has read its feed to the end, by whether anything was refused.
pub fn status_of(refused: bool) -> Status
    ensures { result ≡ status_of refused }
{
    if refused {
        Status::SomeRefused
    } else {
        Status::AllAccepted
    }
}

/// What was asked for was not done.
pub fn is_refused(verdict: &Verdict) -> bool
    ensures { result ≡ is_refused verdict.now }
{
    match verdict {
        Verdict::Refused { .. } | Verdict::TooDeep { .. } | Verdict::Stray => true,
        Verdict::Accepted { .. } | Verdict::RolledBack { .. } => false,
    }
}
