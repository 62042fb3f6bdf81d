//! The replies to accepted commands.

ghost use Rattle.std.specs.Prelude.{◌≡◌, ◌+◌, ◌++◌, IfOk, codes, decimal};
ghost use Rattle.review_rules.specs.declared.requests.JudgeAnswer.{JudgeAnswer};
ghost use Rattle.review_rules.specs.Rules.{certified_text, missing_of, reply_of};

use crate::{Command, Desk};
use net_types::{List, NoMemory};
use std::alloc::Global;

fn policy_reply(alloc: Global, version: u64) -> Result<List<u8>, NoMemory>
    ensures { IfOk result (λ reply. reply ≡ codes "{\"policy\":" ++ (decimal version ++ codes "}")) }
{
    Ok(List::from_vec(format!(in alloc; "{{\"policy\":{version}}}")?.into_bytes()))
}

fn submit_reply(alloc: Global, id: u64) -> Result<List<u8>, NoMemory>
    ensures { IfOk result (λ reply. reply ≡ codes "{\"review\":" ++ (decimal id ++ codes "}")) }
{
    Ok(List::from_vec(format!(in alloc; "{{\"review\":{id}}}")?.into_bytes()))
}

fn certify_reply(alloc: Global, missing: Option<u8>, id: u64) -> Result<List<u8>, NoMemory>
    ensures { IfOk result (λ reply. reply ≡ codes "{\"certified\":" ++ (certified_text missing ++ (codes ",\"review\":" ++ (decimal id ++ codes "}")))) }
{
    let text = match missing {
        None => format!(in alloc; "{{\"certified\":true,\"review\":{id}}}")?,
        Some(_) => format!(in alloc; "{{\"certified\":false,\"review\":{id}}}")?,
    };
    Ok(List::from_vec(text.into_bytes()))
}

fn approve_reply(alloc: Global, approvals: u64, id: u64) -> Result<List<u8>, NoMemory>
    ensures { IfOk result (λ reply. reply ≡ codes "{\"approvals\":" ++ (decimal approvals ++ (codes ",\"review\":" ++ (decimal id ++ codes "}")))) }
{
    Ok(List::from_vec(format!(in alloc;
        "{{\"approvals\":{approvals},\"review\":{id}}}"
    )?.into_bytes()))
}

fn merge_reply(alloc: Global, head: u64, id: u64) -> Result<List<u8>, NoMemory>
    ensures { IfOk result (λ reply. reply ≡ codes "{\"head\":" ++ (decimal head ++ (codes ",\"review\":" ++ (decimal id ++ codes "}")))) }
{
    Ok(List::from_vec(format!(in alloc; "{{\"head\":{head},\"review\":{id}}}")?.into_bytes()))
}

fn withdraw_reply(alloc: Global, id: u64) -> Result<List<u8>, NoMemory>
    ensures { IfOk result (λ reply. reply ≡ codes "{\"review\":" ++ (decimal id ++ codes ",\"state\":\"withdrawn\"}")) }
{
    Ok(List::from_vec(format!(in alloc;
        "{{\"review\":{id},\"state\":\"withdrawn\"}}"
    )?.into_bytes()))
}

// The reply to the command, where the judge found this property missing.
pub(crate) fn reply_to(
    alloc: Global,
    desk: &Desk,
    command: &Command,
    missing: Option<u8>,
) -> Result<List<u8>, NoMemory>
    ensures { (a : JudgeAnswer) → missing ≡ missing_of a → IfOk result (λ reply. reply ≡ reply_of desk.now.state.tables a command.now) }
{
    match command {
        Command::SetPolicy { .. } => policy_reply(alloc, desk.next_version()),
        Command::Submit { .. } => submit_reply(alloc, desk.next_review()),
        Command::Certify(id) => certify_reply(alloc, missing, *id),
        Command::Approve(id) => approve_reply(alloc, desk.approvals_after(*id), *id),
        Command::Merge(id) => merge_reply(alloc, desk.next_head(), *id),
        Command::Withdraw(id) => withdraw_reply(alloc, *id),
    }
}
