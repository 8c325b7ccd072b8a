// A clause laid out: a word for each of its atoms, and its head.
ghost use Rattle.std.specs.Prelude.{◌≡◌, true, cond, ℕ, ◌+◌, ◌*◌, ◌/◌, ◌%◌, ◌^◌, ◌≤◌, ◌<◌, length, eqb};
ghost use Rattle.lists.specs.Lists.{any};
ghost use Rattle.bits.specs.Bits.{numbers};
ghost use Rattle.meaning.specs.Values.{Kind, Contents};
ghost use Rattle.meaning.specs.Atoms.{Clause, met};
ghost use Rattle.meaning.specs.Sheets.{Sheet, kind_of};
ghost use Rattle.meaning.specs.Reading.{found, clause};
ghost use Rattle.admission.specs.Plan.{operator_number_of, variable_of, other_of, other_at, atom_of_word, has_residue, sieve_met, ClauseLaid, Outside, LaidAt, size_of};

use crate::{Laid, size_of};
use bits::{peek, peek64};

// A word of its three parts.
fn word_of(op: u64, v: u64, other: u64) -> u16
    ensures { (operator_number_of result ≡ op % 16) × (variable_of result ≡ v % 32) × (other_of result ≡ other % 32) }
{
    (op % 16 + v % 32 * 16 + other % 32 * 512) as u16
}

// What the bits behind the operator of the atom at bit number p say: a second variable or a count.
fn other_at(s: &[u8], p: usize, op: u64) -> u64
    requires { p ≤ 2 ^ 32 }
    ensures { (result ≡ other_at s.now p op) × (result < 32) }
{
    match op {
        0 => peek(s, p + 9, 5),
        1 | 2 => peek(s, p + 9, 4),
        _ => 0,
    }
}

// The word of the atom at bit number p.
fn atom_word(s: &[u8], p: usize) -> Laid
    requires { p ≤ 2 ^ 32 }
    ensures { LaidAt s.now p result.word × (result.size ≡ size_of result.word) × (result.size ≤ 2048) }
{
    let v = peek(s, p, 5);
    let op = peek(s, p + 5, 4);
    let word = word_of(op, v, other_at(s, p, op));
    Laid {
        word,
        size: size_of(word),
    }
}

// The guard of a clause that has a word more: the word's two variables where it is an equality.
fn guard_with(guard: u64, word: u16) -> u64
    requires { guard ≤ 1023 }
    ensures { (result ≤ 1023) × (result ≡ cond (eqb (operator_number_of word) 0) (word / 16 % 1024) guard) }
{
    if word % 16 == 0 {
        return u64::from(word / 16 % 1024);
    }
    guard
}

// The residues by 16 of the n numbers of 64 bits each from bit number `from` on, a bit each.
fn residues(s: &[u8], from: usize, n: usize) -> u64
    requires { (from ≤ 2 ^ 33) × (n ≤ 32) }
    ensures { (result ≤ 65535) × ((x : ℕ) → any (eqb x) (numbers s.now from n) ≡ true → has_residue result x ≡ true) }
{
    let mut set: u64 = 0;
    for i in 0..n {
        set |= 1 << (peek64(s, from + 64 * i) % 16);
    }
    set
}

// The sieve of a clause that has a word more, at bit number p: the word's variable and its values' residues where it asks for one of a list. A
// value's residue is that of its 64 bits, whatever its kind.
fn sieve_with(sieve: u64, s: &[u8], p: usize, word: u16) -> u64
    requires { (sieve ≤ 2097151) × (p ≤ 2 ^ 32) }
    ensures { (result ≤ 2097151) × ((kind : ℕ → Kind) (e : Contents) → sieve_met e sieve ≡ true → met e (atom_of_word kind s.now word p) ≡ true → sieve_met e result ≡ true) }
{
    if word % 16 == 1 {
        let n = usize::from(word / 512 % 32);
        return u64::from(word / 16 % 32) + 32 * residues(s, p + 13, n);
    }
    sieve
}

// Lays the words of the clause at bit number p at a slot; the clause's head. An equality is a clause's guard, for it is decided by what the
// variables hold alone; a list is its sieve, which most values outside the list do not pass.
pub fn lay_clause(s: &[u8], p: usize, words: &mut [u16; 1024], slot: usize) -> u64
    requires { slot < 128 }
    ensures { Outside (slot * 8) (slot * 8 + 8) words.old words.new × ((facts : Sheet) (c : Clause) (q : ℕ) → length s.now ≤ 16384 → clause facts s.now p ≡ found c q →
        ClauseLaid (kind_of facts) s.now words.new slot result c) }
{
    if 131072 < p {
        return 0;
    }
    let n = peek(s, p, 4) as usize;
    if 8 < n {
        return 0;
    }
    let mut guard = 1023;
    let mut sieve = 31;
    let mut at = p + 4;
    for k in 0..n {
        let laid = atom_word(s, at);
        words[slot * 8 + k] = laid.word;
        guard = guard_with(guard, laid.word);
        sieve = sieve_with(sieve, s, at, laid.word);
        at += laid.size;
    }
    n as u64 + (p + 4) as u64 * 16 + guard * 4194304 + sieve * 4294967296
}
