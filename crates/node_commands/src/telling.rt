//! How it is told what is said of a ticket.
ghost use Rattle.std.specs.Prelude.{◌≡◌, ◌++◌, IfOk, OnOk};
ghost use Rattle.node_commands.specs.Tickets.{not_live, told_as};

use feed_run::Status;
use report_lines::{CheckFault, Line, push_line, push_ticket_clash};
use std::alloc::Global;
use ticket_check::Checked;
use uo_base::NoMemory;

/// Appends the line of what is said of a ticket, or the lines of a clash, and answers the status.
pub fn push_checked(
    alloc: Global,
    checked: &Checked,
    said: &mut Vec<u8>,
) -> Result<Status, NoMemory>
    ensures status { IfOk result (λ status. status ≡ (told_as checked.now).status) }
    ensures said { OnOk result (said.new.items ≡ said.old.items ++ (told_as checked.now).report) }
{
    match checked {
        Checked::Form => push_fault(alloc, CheckFault::Form, said),
        Checked::Version(version) => push_fault(alloc, CheckFault::Version(*version), said),
        Checked::Tip => push_fault(alloc, CheckFault::Tip, said),
        Checked::Refused(why) => push_fault(alloc, CheckFault::Proof(*why), said),
        Checked::Live {
            txid,
            index,
            amount,
        } => {
            let line = Line::CheckLive {
                txid: *txid,
                index: *index,
                amount: *amount,
            };
            push_line(alloc, line, said)?;
            Ok(Status::AllAccepted)
        }
        Checked::Clash(clash) => {
            push_ticket_clash(alloc, &clash.first, &clash.second, &clash.digest, said)?;
            Ok(Status::Clash)
        }
    }
}

// That of a ticket that is not live.
fn push_fault(alloc: Global, why: CheckFault, said: &mut Vec<u8>) -> Result<Status, NoMemory>
    ensures status { IfOk result (λ status. status ≡ (not_live why).status) }
    ensures said { OnOk result (said.new.items ≡ said.old.items ++ (not_live why).report) }
{
    push_line(alloc, Line::CheckFails(why), said)?;
    Ok(Status::SomeRefused)
}
