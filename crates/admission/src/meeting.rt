// What the variables hold, put to a plan.
ghost use Rattle.std.specs.Prelude.{◌≡◌, true, ◌&&◌, List, ℕ, ◌+◌, ◌*◌, ◌/◌, ◌%◌, ◌^◌, ◌≤◌, ◌<◌, get_or};
ghost use Rattle.lists.specs.Lists.{every};
ghost use Rattle.meaning.specs.declared.Content.TheVariants as content;
ghost use Rattle.meaning.specs.Values.{Kind, kind_number, Contents};
ghost use Rattle.meaning.specs.Atoms.{Clause, among, passes, met, clause_met, policy_met};
ghost use Rattle.meaning.specs.Views.{operator_of};
ghost use Rattle.rows.specs.Held.{held};
ghost use Rattle.admission.specs.Plan.{value_at, values_at, operator_number_of, variable_of, operator_of_word, atom_of_word, guard_of, guard_met};
ghost use Rattle.admission.specs.Plan.{sieve_of, sieve_met, Kinds, Closed, ClauseLaid, ClausesLaid, PoliciesLaid, PlanLaid};

use crate::{Plan, size_of};
use bits::{peek64, spells};
use meaning::{Content, is_value};
use rows::Held;
use values::raw_of;

// Is x among the n values of a kind at bit number `from`? Its bits are looked for among theirs.
fn is_listed(s: &[u8], from: usize, n: u16, kind: u8, x: u64) -> bool
    requires { (from ≤ 2 ^ 33) × (n ≤ 32) }
    ensures { (k : Kind) → kind_number k ≡ kind → result ≡ among x (values_at k s.now from n) }
{
    spells(s, from, usize::from(n), raw_of(kind, x))
}

// The value of a kind at bit number p.
fn value_of(s: &[u8], p: usize, kind: u8) -> u64
    ensures { (k : Kind) → kind_number k ≡ kind → result ≡ value_at k s.now p }
{
    raw_of(kind, peek64(s, p))
}

// "3 at most, 4 at least, 5 below, 6 above": does x stand so to y?
fn is_in_order(op: u16, x: u64, y: u64) -> bool
    ensures { (e : Contents) (u : ℕ) (ns : List ℕ) → 3 ≤ op → op < 7 → result ≡ passes e (operator_of op u y ns) (content.Value x) }
{
    match op {
        3 => x <= y,
        4 => y <= x,
        5 => x < y,
        _ => y < x,
    }
}

// Does the value x, of the kind of the word's variable, pass the word's operator, which is no equality?
fn passes_word(s: &[u8], w: u16, p: usize, kind: u8, x: u64) -> bool
    requires { p ≤ 2 ^ 32 }
    ensures { (kinds : ℕ → Kind) (e : Contents) → kind_number (kinds (variable_of w)) ≡ kind → (operator_number_of w ≡ 0 → ⊥) → result ≡ passes e (operator_of_word kinds s.now w p) (content.Value x) }
{
    let op = w % 16;
    if op < 3 {
        if is_listed(s, p + 13, w / 512 % 32, kind, x) {
            return op == 1;
        }
        return op == 2;
    }
    if op < 7 {
        return is_in_order(op, x, value_of(s, p + 9, kind));
    }
    7 < op
}

// Is the word's atom, which stands packed at bit number p, met by what the variables hold?
fn is_word_met(s: &[u8], w: u16, p: usize, kinds: &[u8; 24], vars: &Held) -> bool
    requires { p ≤ 2 ^ 32 }
    ensures { (kind : ℕ → Kind) → Kinds kind kinds.now → result ≡ met (held vars.now) (atom_of_word kind s.now w p) }
{
    let op = w % 16;
    let v = usize::from(w / 16 % 32);
    let Content::Value(n) = vars.get(v) else {
        return op == 7;
    };
    if op == 0 {
        return is_value(n, vars.get(usize::from(w / 512 % 32)));
    }
    passes_word(s, w, p, kinds[v], n)
}

// Is a guard met?
fn is_guard_met(guard: u64, vars: &Held) -> bool
    ensures { result ≡ guard_met (held vars.now) guard }
{
    let v = (guard % 32) as usize;
    if 24 <= v {
        return true;
    }
    vars.is_same(v, (guard / 32 % 32) as usize)
}

// Is a head's sieve met? It needs no bit of the sheet.
fn is_sieve_met(head: u64, vars: &Held) -> bool
    ensures { result ≡ sieve_met (held vars.now) (sieve_of head) }
{
    let sieve = head / 4294967296;
    let v = (sieve % 32) as usize;
    if 24 <= v {
        return true;
    }
    match vars.get(v) {
        Content::Null => false,
        Content::Value(n) => ((sieve / 32) >> (n % 16)) % 2 == 1,
    }
}

impl Plan {
    // Is the clause at a slot met? It is not, from the first atom on that is not.
    fn is_clause_met(&self, s: &[u8], slot: usize, kinds: &[u8; 24], vars: &Held) -> bool
        requires { slot < 128 }
        ensures { (kind : ℕ → Kind) (c : Clause) → Kinds kind kinds.now → ClauseLaid kind s.now self.now.words slot (get_or self.now.heads slot 0) c → result ≡ clause_met (held vars.now) c }
    {
        let head = self.heads[slot];
        let n = (head % 16) as usize;
        if 8 < n {
            return false;
        }
        let mut p = (head / 16 % 262144) as usize;
        for k in 0..n {
            let w = self.words[slot * 8 + k];
            if !is_word_met(s, w, p, kinds, vars) {
                return false;
            }
            p += size_of(w);
        }
        true
    }

    // The first slot from `from` on with another guard, or `end`.
    fn past_guard(&self, from: usize, end: usize, guard: u64) -> usize
        requires { (from ≤ end) × (end ≤ 128) }
        ensures { (from ≤ result) × (result ≤ end) × ((k : ℕ) → from ≤ k → k < result → guard_of (get_or self.now.heads k 0) ≡ guard) }
    {
        for k in from..end {
            if self.heads[k] / 4194304 % 1024 != guard {
                return k;
            }
        }
        end
    }

    // The first slot from `from` on whose head is open, or `end`: no clause before it is met. Most clauses ask for the same tenant: where a guard
    // is not met, those behind it with the same guard are passed over.
    fn next_open(&self, from: usize, end: usize, vars: &Held) -> usize
        requires { (from ≤ end) × (end ≤ 128) }
        ensures { (from ≤ result) × (result ≤ end) × Closed (held vars.now) self.now.heads from result }
    {
        let mut k = from;
        // no `for`: many slots may be passed over at once
        while k < end {
            let head = self.heads[k];
            let guard = head / 4194304 % 1024;
            if is_guard_met(guard, vars) {
                if is_sieve_met(head, vars) {
                    return k;
                }
                k += 1;
                continue;
            }
            k = self.past_guard(k + 1, end, guard);
        }
        k
    }

    // Is one of the clauses at the slots up to `end` met? None before slot `first` is, for none has an open head.
    fn is_one_met(&self, s: &[u8], first: usize, end: usize, kinds: &[u8; 24], vars: &Held) -> bool
        requires { (first ≤ end) × (end ≤ 128) }
        ensures { (from : ℕ) → from ≤ first → Closed (held vars.now) self.now.heads from first → (kind : ℕ → Kind) (cs : List Clause) → Kinds kind kinds.now →
            ClausesLaid kind s.now self.now.words self.now.heads from end cs → result ≡ policy_met (held vars.now) cs }
    {
        let mut k = first;
        // no `for`: slots that are not open are passed over
        while k < end {
            if self.is_clause_met(s, k, kinds, vars) {
                return true;
            }
            k = self.next_open(k + 1, end, vars);
        }
        false
    }

    // Is each of the restrictive policies met?
    fn are_all_met(&self, s: &[u8], kinds: &[u8; 24], vars: &Held) -> bool
        ensures { (kind : ℕ → Kind) (ps : List (List Clause)) → Kinds kind kinds.now → PoliciesLaid kind s.now self.now.words self.now.heads self.now.counts self.now.all ps →
            result ≡ every (policy_met (held vars.now)) ps }
    {
        for i in 0..self.all {
            let from = 120 - 8 * i;
            let count = usize::from(self.counts[i]);
            if 8 < count {
                return false;
            }
            let end = from + count;
            let first = self.next_open(from, end, vars);
            if !self.is_one_met(s, first, end, kinds, vars) {
                return false;
            }
        }
        true
    }

    // Does the plan admit what the variables hold? Most rows have no open clause, and nothing more is asked of them.
    pub fn is_admitted(&self, s: &[u8], kinds: &[u8; 24], vars: &Held) -> bool
        ensures { (kind : ℕ → Kind) (cs : List Clause) (ps : List (List Clause)) → Kinds kind kinds.now → PlanLaid kind s.now self.now cs ps →
            result ≡ (policy_met (held vars.now) cs && every (policy_met (held vars.now)) ps) }
    {
        let first = self.next_open(0, self.some, vars);
        if self.some <= first {
            return false;
        }
        self.is_one_met(s, first, self.some, kinds, vars) && self.are_all_met(s, kinds, vars)
    }
}
