// The verdicts of a sheet's bytes: the bytes and what is asked of them come in, and out goes the answer or the first refusal, as document 01
// has them. Each reads the sheet and hands what was accepted to the crate that answers. Stands on sheet and verdicts.
#![tactic(auto)]

ghost use Rattle.meaning.specs.Replies.{DeadReply, IsolatedReply, CoversReply, BranchesReply};

use meaning::{Cover, Isolation, Life};
use refusals::Refusal;
use sheet::Accepted;

// "Dead: no row and session is admitted."
pub fn dead(s: &[u8], table: u32, command: u32) -> Result<Life, Refusal>
    ensures { DeadReply s.now table command result }
{
    let mut book = [0u32; 240];
    let sheet = Accepted::open(s, &mut book)?;
    verdicts::dead(&sheet, table, command)
}

// "no row is admitted for two sessions of different tenants", or the first pair that leaks
pub fn isolated(s: &[u8], table: u32, command: u32) -> Result<Isolation, Refusal>
    ensures { IsolatedReply s.now table command result }
{
    let mut book = [0u32; 240];
    let sheet = Accepted::open(s, &mut book)?;
    verdicts::isolated(&sheet, table, command)
}

// Does policy a cover policy b?
pub fn covers(s: &[u8], a: u32, b: u32) -> Result<Cover, Refusal>
    ensures { CoversReply s.now a b result }
{
    let mut book = [0u32; 240];
    let sheet = Accepted::open(s, &mut book)?;
    verdicts::covers(&sheet, a, b)
}

// N, at any size
pub fn branches(s: &[u8], table: u32, command: u32) -> Result<u64, Refusal>
    ensures { BranchesReply s.now table command result }
{
    let mut book = [0u32; 240];
    let sheet = Accepted::open(s, &mut book)?;
    verdicts::branch_count(&sheet, table, command)
}
