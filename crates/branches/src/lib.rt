// The branches of a table and command. In come, for each of 16 policies' places, its role (0 not counted, 1 permissive, 2 restrictive) and its
// clause count; out go N, and the clauses that a branch number picks: a clause number in each policy's slot, or none. Makes true of 01, "Values
// and meaning": "N is the sum of the permissive policies' clause counts times the product of the restrictive ones' counts", and "Branches are
// numbered from 0 in sheet order, the permissive clause varying slowest and the last restrictive policy fastest." Stands on meaning and sheet,
// which say what roles and counts a sheet's policies have.
#![tactic(auto)]

ghost use Rattle.std.specs.Prelude.{◌≡◌, ℕ, ◌+◌, ◌*◌, ◌/◌, ◌%◌, ◌<◌, ◌≤◌, min, cond, List, length};
ghost use Rattle.branches.specs.Parts.{term, factor, sum_to, product_to, Splits, FindsIfThere, Picks, RolesAre, CountsAre};

use sheet::Accepted;

// No clause has this number.
const NONE: u64 = 8;

// A branch: the policy that its permissive clause is of, and for each policy the number of the clause picked, or NONE.
#[derive(Clone, Copy)]
pub struct Branch {
    pub policy: usize,
    pub slots: [u64; 16],
}

// The restrictive clauses of a branch, and the number of its permissive clause.
#[derive(Clone, Copy)]
pub struct Digits {
    pub rest: u64,
    pub slots: [u64; 16],
}

// A permissive clause: its policy and its number there.
#[derive(Clone, Copy)]
pub struct Permitted {
    pub policy: usize,
    pub clause: u64,
}

// How many permissive clauses a policy brings.
fn term_of(role: u64, count: u64) -> u64
    ensures { (result ≡ term role count) × (result ≤ 8) }
{
    if role == 1 { count.min(8) } else { 0 }
}

// How many choices a policy leaves beside the permissive clause.
fn factor_of(role: u64, count: u64) -> u64
    ensures { (result ≡ factor role count) × (result ≤ 8) }
{
    if role == 2 { count.min(8) } else { 1 }
}

// N: "the sum of the permissive policies' clause counts times the product of the restrictive ones' counts". At most 128 * 8^16 < 2^56.
pub fn count(roles: [u64; 16], counts: [u64; 16]) -> u64
    ensures { result ≡ sum_to roles counts 16 * product_to roles counts 16 }
{
    let mut sum: u64 = 0;
    let mut product: u64 = 1;
    for p in 0..16 {
        sum += term_of(roles[p], counts[p]);
        product *= factor_of(roles[p], counts[p]);
    }
    sum * product
}

// What is left of n by a divisor, and how often that goes into n. Division is slow and most divisors are 1, where there is nothing to divide.
fn left_by(n: u64, b: u64) -> u64
    requires { 0 < b }
    ensures { result ≡ n % b }
{
    if b == 1 { 0 } else { n % b }
}

fn over(n: u64, b: u64) -> u64
    requires { 0 < b }
    ensures { result ≡ n / b }
{
    if b == 1 { n } else { n / b }
}

// The slot of a policy at digit d: a clause number of a restrictive one, else none.
fn slot(role: u64, d: u64) -> u64
    ensures { (role ≡ 2 → result ≡ d) × ((role ≡ 2 → ⊥) → result ≡ 8) }
{
    if role == 2 { d } else { NONE }
}

// The branch's number written in the restrictive policies' own factors, from the last to the first; what is left is the permissive clause's number.
fn digits_of(roles: [u64; 16], counts: [u64; 16], k: u64) -> Digits
    ensures { Splits roles counts k result }
{
    let mut slots = [NONE; 16];
    let mut rest = k;
    for p in (0..16).rev() {
        let role = roles[p];
        let b = factor_of(role, counts[p]).max(1);
        slots[p] = slot(role, left_by(rest, b));
        rest = over(rest, b);
    }
    Digits { rest, slots }
}

// Where permissive clause number k stands.
fn permitted_at(roles: [u64; 16], counts: [u64; 16], k: u64) -> Option<Permitted>
    ensures { FindsIfThere roles counts k result }
{
    let mut rest = k;
    for p in 0..16 {
        let n = term_of(roles[p], counts[p]);
        if rest < n {
            return Some(Permitted {
                policy: p,
                clause: rest,
            });
        }
        rest -= n;
    }
    None
}

// The clauses of branch number k.
pub fn pick(roles: [u64; 16], counts: [u64; 16], k: u64) -> Branch
    ensures { Picks roles counts k result }
{
    let Digits { rest, mut slots } = digits_of(roles, counts, k);
    let Some(Permitted { policy, clause }) = permitted_at(roles, counts, rest) else {
        return Branch { policy: 0, slots };
    };
    slots[policy] = clause;
    Branch { policy, slots }
}

// A policy's role.
fn role_of(applies: bool, restrictive: bool) -> u64
    ensures { result ≡ cond applies (cond restrictive 2 1) 0 }
{
    match (applies, restrictive) {
        (false, _) => 0,
        (true, false) => 1,
        (true, true) => 2,
    }
}

// The roles of a sheet's policies for a table and command.
pub fn roles(sheet: &Accepted, t: usize, command: u64) -> [u64; 16]
    ensures { t < length sheet.now.tables → RolesAre sheet.now t command result }
{
    let mut roles = [0u64; 16];
    for p in 0..sheet.policies() {
        roles[p] = role_of(sheet.applies(t, command, p), sheet.is_restrictive(p));
    }
    roles
}

// The clause counts of a sheet's policies.
pub fn counts(sheet: &Accepted) -> [u64; 16]
    ensures { CountsAre sheet.now result }
{
    let mut counts = [0u64; 16];
    for p in 0..sheet.policies() {
        counts[p] = sheet.clause_count(p) as u64;
    }
    counts
}
