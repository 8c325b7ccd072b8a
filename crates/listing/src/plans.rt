// The policies that count for a table and a command, laid out as a plan: the permissive ones' clauses from slot 0 up, each restrictive one at
// eight slots of its own from the last down.
ghost use Rattle.std.specs.Prelude.{◌+◌, ◌*◌, ◌≤◌, ◌<◌, length};
ghost use Rattle.meaning.specs.Sheets.{kind_of, policy_at};
ghost use Rattle.meaning.specs.Packed.{packed};
ghost use Rattle.admission.specs.Plan.{ClausesLaid, Outside};
ghost use Rattle.listing.specs.Ready.{PlanOf};

use admission::{Plan, lay_clause};
use sheet::Accepted;

// Lays the clauses of policy p from a slot on; how many there are.
fn lay_policy(
    a: &Accepted,
    p: usize,
    words: &mut [u16; 1024],
    heads: &mut [u64; 128],
    slot: usize,
) -> usize
    requires { slot + 8 ≤ 128 }
    ensures few { result ≤ 8 }
    ensures words { Outside (slot * 8) (slot * 8 + 64) words.old words.new }
    ensures heads { Outside slot (slot + 8) heads.old heads.new }
    ensures laid { ClausesLaid (kind_of a.now) (packed a.now) words.new heads.new slot (slot + result) (policy_at a.now p).clauses }
{
    let n = a.clause_count(p);
    for k in 0..n {
        heads[slot + k] = lay_clause(a.bytes(), a.clause_start(p, k), words, slot + k);
    }
    n
}

// Lays the policies that count for a table and a command. The plan is lent, so that its 3 KB stand on the stack once.
pub fn lay_policies(a: &Accepted, t: usize, command: u64, plan: &mut Plan)
    ensures { t < length a.now.tables → PlanOf a.now t command plan.new }
{
    let mut some = 0;
    let mut all = 0;
    for p in 0..a.policies() {
        if !a.applies(t, command, p) {
            continue;
        }
        if a.is_restrictive(p) {
            let slot = 120 - 8 * all;
            plan.counts[all] = lay_policy(a, p, &mut plan.words, &mut plan.heads, slot) as u8;
            all += 1;
        } else {
            some += lay_policy(a, p, &mut plan.words, &mut plan.heads, some);
        }
    }
    plan.some = some;
    plan.all = all;
}
