// The replies: what is asked of a sheet, judged in the paper's order, and the answer or the first refusal.
ghost use Rattle.std.specs.Prelude.{◌≡◌, ◌≤◌, IfOk};
ghost use Rattle.meaning.specs.Packed.{packed};
ghost use Rattle.meaning.specs.Replies.{asked_verdict, DeadReply, IsolatedReply, CoversReply, BranchesReply};
ghost use Rattle.verdicts.specs.Questions.{number_of, Puts};

use crate::Asking;
use meaning::{Cover, Isolation, Life};
use refusals::Refusal;
use sheet::Accepted;

// 13, "N over 256 (dead and isolated only)"
const MOST: u64 = 256;

// What a table and command ask of a sheet, where N is not too much; else 12 or 13.
fn judged<'a>(sheet: &'a Accepted<'a>, table: u32, command: u32) -> Result<Asking<'a>, Refusal>
    ensures puts { Puts sheet.now table command (asked_verdict (packed sheet.now) table command) result }
    ensures few { IfOk result (λ q. number_of q ≤ 256) }
{
    let q = Asking::of(sheet, table, command)?;
    if MOST < q.number() {
        return Err(Refusal::TooManyBranches);
    }
    Ok(q)
}

// "Dead: no row and session is admitted."
pub fn dead(sheet: &Accepted, table: u32, command: u32) -> Result<Life, Refusal>
    ensures { DeadReply (packed sheet.now) table command result }
{
    let q = judged(sheet, table, command)?;
    Ok(if q.is_live() { Life::Live } else { Life::Dead })
}

// "isolated for a command exactly when no row is admitted for two sessions of different tenants", or the first leaking pair.
pub fn isolated(sheet: &Accepted, table: u32, command: u32) -> Result<Isolation, Refusal>
    ensures { IsolatedReply (packed sheet.now) table command result }
{
    Ok(judged(sheet, table, command)?.first_leak())
}

// N, at any size.
pub fn branch_count(sheet: &Accepted, table: u32, command: u32) -> Result<u64, Refusal>
    ensures { BranchesReply (packed sheet.now) table command result }
{
    Ok(Asking::of(sheet, table, command)?.number())
}

// "Policy A covers policy B when each clause of B that some row and session meets is covered by a single clause of A."
pub fn covers(sheet: &Accepted, a: u32, b: u32) -> Result<Cover, Refusal>
    ensures { CoversReply (packed sheet.now) a b result }
{
    let policies = sheet.policies();
    if policies <= a as usize || policies <= b as usize {
        return Err(Refusal::NotAsked);
    }
    Ok(if covering::policy_covers(sheet, a as usize, b as usize) {
        Cover::Covers
    } else {
        Cover::Misses
    })
}
