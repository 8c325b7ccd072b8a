// The verdicts: how many branches a table and command have, whether they are dead, whether isolated, and whether a policy covers another. An
// accepted sheet and the numbers asked come in, judged in full 32 bits; out goes a verdict, or the first refusal (12, 13). Makes true of
// 01, "Values and meaning": "Dead: no row and session is admitted", "A leak is named by the first pair (a, b), a before b in importance", and
// "Policy A covers policy B when each clause of B that some row and session meets is covered by a single clause of A". Stands on sheet (an
// accepted sheet), branches (the clauses that a branch picks), asked (what a conjunction can be met by) and covering (which clauses cover which).
#![tactic(auto)]

ghost use Rattle.std.specs.Prelude.{◌≡◌, ◌++◌, map, ◌+◌, ◌*◌, ◌<◌, ◌≤◌, false, [], length, get_or};
ghost use Rattle.lists.specs.Decides.{Decides};
ghost use Rattle.meaning.specs.Packed.{packed};
ghost use Rattle.meaning.specs.Questions.{IsLive, Leak};
ghost use Rattle.meaning.specs.Replies.{asked_table, IsolationOf};
ghost use Rattle.branches.specs.Parts.{clauses_of, conjunction};
ghost use Rattle.asked.specs.Words.{word_atoms, seen};
ghost use Rattle.verdicts.specs.Questions.{number_of, branch_at, Met, Puts, Marks, TellsMark, TellsPair};

pub mod replies;

use branches::Branch;
use meaning::Isolation;
use refusals::Refusal;
pub use replies::{branch_count, covers, dead, isolated};
use sheet::Accepted;
use std::marker::Model;

// What a table and command ask of a sheet: the policies' roles and clause counts, N, and the last values of the variables' kinds.
#[derive(Clone, Copy)]
pub struct Question {
    pub roles: [u64; 16],
    pub counts: [u64; 16],
    pub number: u64,
    pub top: [u64; 32],
}

// A table and a command of an accepted sheet, with the question that they ask of it.
#[derive(Drop)]
struct Asking<'a> {
    sheet: &'a Accepted<'a>,
    table: usize,
    command: u64,
    question: Question,
}

impl<'a> Model for Asking<'a> {
    ghost use Rattle.verdicts.specs.Questions.{Posed, posed_code};

    ghost Value = { Posed };

    ghost coded = { posed_code };

    ghost use Rattle.verdicts.specs.Posing.{what_is_posed, IsPosed};

    ghost view = { what_is_posed };

    ghost invariant = { IsPosed };
}

// Clause number k of policy p, which is there, is laid behind n atoms of the words. (Apart, since a function clears its clause as it is
// entered, and most policies' slots have none.)
#[inline(never)]
fn lay_picked(
    sheet: &Accepted,
    p: usize,
    k: usize,
    words: &mut [u64],
    n: usize,
    second: bool,
) -> usize
    requires { n * 11 + 88 ≤ length words.old }
    ensures count { result ≤ n + 8 }
    ensures atoms { k < length (clauses_of sheet.now p) → word_atoms words.new result ≡ word_atoms words.old n ++ map (seen second) (get_or (clauses_of sheet.now p) k []) }
{
    asked::lay(words, n, sheet.clause(p, k), second)
}

// Clause number k of policy p is laid behind n atoms of the words, where there is one; the answer is how many atoms there are then.
fn lay_clause(
    sheet: &Accepted,
    p: usize,
    k: u64,
    words: &mut [u64],
    n: usize,
    second: bool,
) -> usize
    requires { n * 11 + 88 ≤ length words.old }
    ensures count { result ≤ n + 8 }
    ensures atoms { word_atoms words.new result ≡ word_atoms words.old n ++ map (seen second) (get_or (clauses_of sheet.now p) k []) }
{
    if sheet.clause_count(p) as u64 <= k {
        return n;
    }
    lay_picked(sheet, p, k as usize, words, n, second)
}

// The clauses of a branch are laid behind n atoms of the words, for the first session or the second.
fn lay_branch(sheet: &Accepted, b: Branch, words: &mut [u64], n: usize, second: bool) -> usize
    requires { (b.policy < 16) × (n * 11 + 1408 ≤ length words.old) }
    ensures count { result ≤ n + 128 }
    ensures atoms { word_atoms words.new result ≡ word_atoms words.old n ++ map (seen second) (conjunction (clauses_of sheet.now) b) }
{
    let q = b.policy;
    let mut m = lay_clause(sheet, q, b.slots[q], words, n, second);
    for p in 0..16 {
        if p != q {
            m = lay_clause(sheet, p, b.slots[p], words, m, second);
        }
    }
    m
}

impl<'a> Asking<'a> {
    // What a table and command ask of a sheet; else 12.
    fn of(sheet: &'a Accepted<'a>, table: u32, command: u32) -> Result<Asking<'a>, Refusal>
        ensures { Puts sheet.now table command (asked_table (packed sheet.now) table command) result }
    {
        if sheet.tables() <= table as usize || 3 < command {
            return Err(Refusal::NotAsked);
        }
        let roles = branches::roles(sheet, table as usize, command as u64);
        let counts = branches::counts(sheet);
        Ok(Asking {
            sheet,
            table: table as usize,
            command: command as u64,
            question: Question {
                roles,
                counts,
                number: branches::count(roles, counts),
                top: asked::tops(sheet.kinds()),
            },
        })
    }

    // N.
    fn number(&self) -> u64
        ensures { result ≡ number_of self.now }
    {
        self.question.number
    }

    // Branch k is laid for the first session.
    fn lay_at(&self, k: u64, words: &mut [u64]) -> usize
        requires { 1408 ≤ length words.old }
        ensures count { result ≤ 128 }
        ensures atoms { k < number_of self.now → word_atoms words.new result ≡ map (seen false) (branch_at self.now k) }
    {
        let b = branches::pick(self.question.roles, self.question.counts, k);
        lay_branch(self.sheet, b, words, 0, false)
    }

    // Does some row of the table and session meet branch k?
    fn branch_met(&self, k: u64) -> bool
        ensures { k < number_of self.now → Decides (Met self.now k) result }
    {
        let mut words = [0u64; 1408];
        let n = self.lay_at(k, &mut words);
        asked::meets(&words, n, self.question.top)
    }

    // "Dead: no row and session is admitted": is the table live?
    fn is_live(&self) -> bool
        ensures { Decides (IsLive self.now.sheet self.now.table self.now.command) result }
    {
        for k in 0..self.question.number {
            if self.branch_met(k) {
                return true;
            }
        }
        false
    }

    // The mark of branch k: 0 where nobody meets it; else two more than a column that it equates with key 0, or 1.
    fn mark(&self, k: u64, words: &mut [u64]) -> u8
        requires { 1408 ≤ length words.old }
        ensures { k < number_of self.now → TellsMark self.now k result }
    {
        let n = self.lay_at(k, words);
        if asked::meets(words, n, self.question.top) {
            return asked::anchor(words, n);
        }
        0
    }

    // The marks of the first 256 branches, each laid in the words over the one before.
    fn marked(&self, words: &mut [u64]) -> [u8; 256]
        requires { 1408 ≤ length words.old }
        ensures { Marks self.now result }
    {
        let mut marks = [1u8; 256];
        for k in 0..self.question.number.min(256) {
            marks[k as usize] = self.mark(k, words);
        }
        marks
    }

    // Does some row meet the n laid atoms with one session, and branch b, which is laid behind them, with a session of another tenant?
    fn pair_leaks(&self, words: &mut [u64], n: usize, b: u64) -> bool
        requires { (n ≤ 128) × (2816 ≤ length words.old) }
        ensures told { b < number_of self.now → TellsPair self.now b (word_atoms words.old n) result }
        ensures kept { word_atoms words.new n ≡ word_atoms words.old n }
    {
        let c = branches::pick(self.question.roles, self.question.counts, b);
        let m = lay_branch(self.sheet, c, words, n, true);
        asked::leaks(words, m, self.question.top)
    }

    // Does the pair of branch a, whose n atoms are laid, and branch b leak? Branches that nobody meets are passed over, and so are two that have
    // their tenant in the same column: that is how most sheets keep tenants apart.
    fn leaks_at(&self, marks: &[u8; 256], words: &mut [u64], n: usize, a: usize, b: usize) -> bool
        requires { (n ≤ 128) × (2816 ≤ length words.old) × (a < 256) × (b < 256) }
        ensures told { Marks self.now marks.now → a < number_of self.now → b < number_of self.now
            → word_atoms words.old n ≡ map (seen false) (branch_at self.now a)
            → Decides (Leak self.now.sheet self.now.table self.now.command a b) result }
        ensures kept { word_atoms words.new n ≡ word_atoms words.old n }
    {
        if marks[a] == 0 || marks[b] == 0 {
            return false;
        }
        if 1 < marks[a] && marks[a] == marks[b] {
            return false;
        }
        self.pair_leaks(words, n, b as u64)
    }

    // "A leak is named by the first pair (a, b), a before b in importance": nested search, left from inside at the first leaking pair. Leaking is
    // symmetric, so that pairs with a at most b are enough; branch a is laid once, and each b behind it over the one before.
    fn first_pair(&self, marks: &[u8; 256], words: &mut [u64]) -> Isolation
        requires { (number_of self.now ≤ 256) × Marks self.now marks.now × (2816 ≤ length words.old) }
        ensures { IsolationOf self.now.sheet self.now.table self.now.command result }
    {
        let n = self.question.number as usize;
        let mut found = Isolation::Isolated;
        'search: for a in 0..n {
            let laid = self.lay_at(a as u64, words);
            for b in a..n {
                if self.leaks_at(marks, words, laid, a, b) {
                    found = Isolation::Leaks(a as u32, b as u32);
                    break 'search;
                }
            }
        }
        found
    }

    // The branches are marked before the pairs are laid, and both in the same words, so that only one array of them is on the stack.
    fn first_leak(&self) -> Isolation
        requires { number_of self.now ≤ 256 }
        ensures { IsolationOf self.now.sheet self.now.table self.now.command result }
    {
        let mut words = [0u64; 2816];
        let marks = self.marked(&mut words);
        self.first_pair(&marks, &mut words)
    }
}
