// A conjunction of atoms in words: what its atoms are, which variables they tie to one another and which they need non-null. Words come in,
// eleven an atom, over variables 0..31: columns, the first session's keys, the second's. "Every atom but "is null" needs its variables
// non-null." Every slice is a conjunction: words that are no atom have a meaning in specs/Meaning.antt. Stands on no other crate.
#![tactic(auto)]

ghost use Rattle.std.specs.Prelude.{◌≡◌, true, ℕ, ◌/◌, ◌<◌, length, get_or};
ghost use Rattle.words.specs.Meaning.{wants, test_at, var_at};
ghost use Rattle.words.specs.Ties.{mate_at, Needs, Tied, Renames, Classes};

use std::array;

// An atom goes by its index, and its operator by a number: eleven words an atom are the layout that `atom_at` of specs/Meaning.antt names.
#[tactic(auto, unfolding(crate::specs::Meaning::test_at))]
fn wanting(s: &[u64], i: usize) -> bool
    requires { i < length s.now / 11 }
    ensures { result ≡ wants (test_at s.now i) }
{
    s[i * 11 + 1] != 7
}

pub fn var_at(s: &[u64], i: usize) -> usize
    requires { i < length s.now / 11 }
    ensures { (result ≡ var_at s.now i) × (result < 32) }
{
    (s[i * 11] % 32) as usize
}

#[tactic(auto, unfolding(crate::specs::Ties::mate_at))]
fn mate_at(s: &[u64], i: usize) -> usize
    requires { i < length s.now / 11 }
    ensures { (result ≡ mate_at s.now i) × (result < 32) }
{
    let b = i * 11;
    let other = if s[b + 1] == 0 { s[b + 2] } else { s[b] };
    (other % 32) as usize
}

// The variables that cannot be null.
pub fn needs(s: &[u64], mut need: [bool; 32]) -> [bool; 32]
    ensures { Needs s.now (length s.now / 11) need result }
{
    for i in 0..s.len() / 11 {
        if wanting(s, i) {
            need[var_at(s, i)] = true;
            need[mate_at(s, i)] = true;
        }
    }
    need
}

// Each variable is its own class.
fn own() -> [u64; 32]
    ensures { (v : ℕ) → v < 32 → get_or result v 0 ≡ v }
{
    array::from_fn(|v| v as u64)
}

// The label b is renamed to a.
fn rename(rep: &mut [u64; 32], a: u64, b: u64)
    ensures { Renames a b rep.old rep.new }
{
    for l in rep.iter_mut() {
        if *l == b {
            *l = a;
        }
    }
}

// Equated variables get one label, the lesser of their two.
pub fn classes_of(s: &[u64]) -> [u64; 32]
    ensures { Classes s.now (length s.now / 11) result }
{
    let mut rep = own();
    for i in 0..s.len() / 11 {
        let a = rep[var_at(s, i)];
        let b = rep[mate_at(s, i)];
        if a < b {
            rename(&mut rep, a, b);
        } else if b < a {
            rename(&mut rep, b, a);
        }
    }
    rep
}

// Do equalities tie u to w?
pub fn tied(s: &[u64], u: usize, w: usize) -> bool
    requires { (u < 32) × (w < 32) }
    ensures { result ≡ true → Tied s.now u w }
{
    let rep = classes_of(s);
    rep[u] == rep[w]
}
