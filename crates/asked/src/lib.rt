// What dead, isolated, covers and the normal form ask of a conjunction. Clauses by value come in, and are laid into the words of `reach`; out
// goes yes or no, told of meaning's definitions: "Drop each clause that no row and session meets", "drop an atom that the remaining others
// imply", "Clause p covers clause q when every row and session meeting q meets p", "some row meets a with one session and b with a session of
// another tenant". Stands on meaning (atoms, clauses, questions), words (the conjunction) and reach (the least solution).
#![tactic(auto)]

ghost use Rattle.std.specs.Prelude.{◌≡◌, List, [], ◌∷◌, ◌++◌, map, ℕ, ◌+◌, ◌*◌, ◌/◌, ◌%◌, ◌≤◌, ◌<◌, length, get_or, true, IfSome};
ghost use Rattle.meaning.specs.Questions.{ClauseCovers, LiveClause};
ghost use Rattle.meaning.specs.Views.{atom_of, clause_of, KindsAre};
ghost use Rattle.asked.specs.Words.{slot_of, third_of, seen, word_atom, word_atoms};
ghost use Rattle.meaning.specs.Values.{Contents};
ghost use Rattle.meaning.specs.Atoms.{equals, is_null, met};
ghost use Rattle.meaning.specs.Steps.{on};
ghost use Rattle.asked.specs.Asked.{last_of, kind_place, Ranges, Tells, Differs, turned, turned_number, TellsMeets, TellsLeak, Anchors};
ghost use Rattle.meaning.specs.Sheets.{Sheet};

use meaning::{Atom, Clause};
use reach::Conjunction;

// The engine's number of a variable: the second session's keys are 24..31.
#[tactic(auto, unfolding(crate::specs::Words::slot_of))]
fn slot(v: u64, second: bool) -> u64
    ensures { result ≡ slot_of second v }
{
    if second && 16 <= v {
        (v % 32 + 8) % 32
    } else {
        v % 32
    }
}

// The third word: the other variable or the count.
fn third(op: u64, other: u64, count: u64, second: bool) -> u64
    ensures { result ≡ third_of op other count second }
{
    if op == 0 {
        slot(other, second)
    } else {
        count.min(8)
    }
}

// Atom a is laid as atom n of the words.
fn lay_atom(words: &mut [u64], n: usize, a: &Atom, second: bool)
    requires { n * 11 + 11 ≤ length words.old }
    ensures { word_atoms words.new (n + 1) ≡ word_atoms words.old n ++ (seen second (atom_of a.now) ∷ []) }
{
    let b = n * 11;
    words[b] = slot(a.variable, second);
    words[b + 1] = a.operator;
    words[b + 2] = third(a.operator, a.other, a.count, second);
    words[b + 3..b + 11].copy_from_slice(&a.values);
}

// The clause's atoms are laid behind n atoms of the words, for the first session or the second; the answer is how many atoms there are then.
pub fn lay(words: &mut [u64], n: usize, c: Clause, second: bool) -> usize
    requires { n * 11 + 88 ≤ length words.old }
    ensures count { result ≤ n + 8 }
    ensures atoms { word_atoms words.new result ≡ word_atoms words.old n ++ map (seen second) (clause_of c) }
{
    let k = c.count.min(8);
    for i in 0..k {
        lay_atom(words, n + i, &c.atoms[i], second);
    }
    n + k
}

// The first n laid atoms, with the ranges.
fn laid<'a>(words: &'a [u64], n: usize, top: &'a [u64; 32]) -> Conjunction<'a>
    requires { n * 11 ≤ length words.now }
    ensures atoms { word_atoms result.s.now (length result.s.now / 11) ≡ word_atoms words.now n }
    ensures ranges { result.top.now ≡ top.now }
{
    Conjunction {
        s: &words[..n * 11],
        top,
    }
}

// Does some row and session meet the clause?
pub fn satisfiable(c: Clause, top: [u64; 32]) -> bool
    ensures { Tells top (clause_of c) (λ sheet. LiveClause sheet (clause_of c)) result }
{
    let mut words = [0; 88];
    let n = lay(&mut words, 0, c, false);
    laid(&words, n, &top).satisfiable()
}

// Does some row and session meet the clause and the atom?
fn meets_both(c: &Clause, a: &Atom, top: &[u64; 32]) -> bool
    ensures { Tells top.now (clause_of c.now ++ (atom_of a.now ∷ [])) (λ sheet. LiveClause sheet (clause_of c.now ++ (atom_of a.now ∷ []))) result }
{
    let mut words = [0; 99];
    let n = lay(&mut words, 0, *c, false);
    lay_atom(&mut words, n, a, false);
    laid(&words, n + 1, top).satisfiable()
}

// Does some row and session meet the clause with different values in u and w?
fn differs(c: &Clause, u: u64, w: u64, top: &[u64; 32]) -> bool
    ensures { Tells top.now (on u (equals w) ∷ clause_of c.now) (λ sheet. Differs sheet (clause_of c.now) u w) result }
{
    let mut words = [0; 88];
    let n = lay(&mut words, 0, *c, false);
    laid(&words, n, top).apart((u % 32) as usize, (w % 32) as usize)
}

// The operator that fails this one, of a value. Operators are the numbers of `meaning::Atom` and of the words.
fn turned_operator(op: u64) -> u64
    ensures { result ≡ turned_number op }
{
    match op {
        1 => 2,
        2 => 1,
        3 => 6,
        4 => 5,
        5 => 4,
        6 => 3,
        7 => 8,
        _ => 7,
    }
}

fn turned_atom(a: Atom) -> Atom
    ensures { atom_of result ≡ turned (atom_of a) }
{
    Atom {
        operator: turned_operator(a.operator),
        ..a
    }
}

#[tactic(auto, unfolding(meaning::specs::Views::atom_of))]
fn null_of(v: u64) -> Atom
    ensures { atom_of result ≡ on v is_null }
{
    Atom {
        variable: v,
        operator: 7,
        other: 0,
        count: 0,
        values: [0; 8],
    }
}

// Do the others imply the atom? They do where none of the ways in which it can fail is left.
pub fn implies(others: Clause, a: Atom, top: [u64; 32]) -> bool
    ensures { Tells top (atom_of a ∷ clause_of others) (λ sheet. ClauseCovers sheet (atom_of a ∷ []) (clause_of others)) result }
{
    if a.operator == 7 {
        return !meets_both(&others, &turned_atom(a), &top);
    }
    if meets_both(&others, &null_of(a.variable), &top) {
        return false;
    }
    if a.operator != 0 {
        return !meets_both(&others, &turned_atom(a), &top);
    }
    !meets_both(&others, &null_of(a.other), &top) && !differs(&others, a.variable, a.other, &top)
}

// Does every row and session that meets q meet p?
pub fn clause_covers(p: Clause, q: Clause, top: [u64; 32]) -> bool
    ensures { Tells top (clause_of p ++ clause_of q) (λ sheet. ClauseCovers sheet (clause_of p) (clause_of q)) result }
{
    for i in 0..p.count.min(8) {
        if !implies(q, p.atoms[i], top) {
            return false;
        }
    }
    true
}

// Do some row and session meet the clause whose n atoms are laid? Words and count are two here, since `lay` fills a lent buffer from n on.
pub fn meets(words: &[u64], n: usize, top: [u64; 32]) -> bool
    requires { n * 11 ≤ length words.now }
    ensures { TellsMeets words.now n top result }
{
    laid(words, n, &top).satisfiable()
}

// Does some row meet the first of the laid clauses with one session and the second with a session of another tenant?
pub fn leaks(words: &[u64], n: usize, top: [u64; 32]) -> bool
    requires { n * 11 ≤ length words.now }
    ensures { TellsLeak words.now n top result }
{
    laid(words, n, &top).parted(16, 24)
}

// The column that atom i equates with key 0.
fn anchor_at(words: &[u64], i: usize) -> Option<u8>
    requires { i * 11 + 11 ≤ length words.now }
    ensures { IfSome result (λ c. (c < 16) × ((m : Contents) → met m (word_atom words.now i) ≡ true → m c ≡ m 16)) }
{
    let v = words[i * 11] % 32;
    let u = words[i * 11 + 2] % 32;
    if words[i * 11 + 1] != 0 {
        None
    } else if v == 16 && u < 16 {
        Some(u as u8)
    } else if u == 16 && v < 16 {
        Some(v as u8)
    } else {
        None
    }
}

// The mark of a column that the n laid atoms equate with key 0, two more than its number; 1 where they equate none: a byte that `verdicts`
// keeps for each branch, with 0 for one that nobody meets.
pub fn anchor(words: &[u64], n: usize) -> u8
    requires { n * 11 ≤ length words.now }
    ensures { Anchors words.now n result }
{
    for i in 0..n {
        if let Some(c) = anchor_at(words, i) {
            return c + 2;
        }
    }
    1
}

// The last value of a kind by its number.
fn last_of(kind: u8) -> u64
    ensures { result ≡ last_of kind }
{
    match kind {
        0 => u64::MAX,
        1 => u64::from(u32::MAX),
        _ => 1,
    }
}

// The kind of a variable by the words' number: the second session's keys have the first's kinds.
fn kind_at(kinds: &[u8; 24], v: usize) -> u8
    requires { v < 32 }
    ensures { result ≡ get_or kinds.now (kind_place v) 0 }
{
    if v < 24 { kinds[v] } else { kinds[v - 8] }
}

// The last values of the variables' kinds, by the words' numbers.
pub fn tops(kinds: [u8; 24]) -> [u64; 32]
    ensures { (sheet : Sheet) → KindsAre sheet kinds → Ranges sheet result }
{
    let mut top = [0; 32];
    for (v, last) in top.iter_mut().enumerate() {
        *last = last_of(kind_at(&kinds, v));
    }
    top
}
