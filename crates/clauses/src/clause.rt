// Clauses, read by value: a clause with the place after it, or its refusal.
ghost use Rattle.std.specs.Prelude.{◌≡◌, ℕ, ◌≤◌, List};
ghost use Rattle.bits.specs.Fields.{place_at};
ghost use Rattle.lists.specs.Lists.{every};
ghost use Rattle.meaning.specs.Atoms as atoms;
ghost use Rattle.meaning.specs.Sheets.{Sheet};
ghost use Rattle.meaning.specs.Reading.{found, times, atom, clause};
ghost use Rattle.meaning.specs.Allowed.{facts_of};
ghost use Rattle.meaning.specs.Views.{atom_of, clause_of};
ghost use Rattle.values.specs.Reads.{Answers};
ghost use Rattle.clauses.specs.Facts.{FactsAre, column_held, atom_held};

use crate::Facts;
use crate::atoms::atom_at;
use crate::fields::is_member;
use bits::Place;
use meaning::{Atom, Clause};
use place::count_at;
use refusals::Refusal;

// No atom: what stands past a clause's last.
const NOTHING: Atom = Atom {
    variable: 0,
    operator: 0,
    other: 0,
    count: 0,
    values: [0; 8],
};

// `count` atoms.
fn some_atoms(s: &[u8], at: Place, f: Facts, count: usize) -> Result<(Clause, Place), Refusal>
    requires { count ≤ 8 }
    ensures { (facts : Sheet) (p : ℕ) → FactsAre facts f → at ≡ place_at p → Answers (times count (atom facts) s.now p) (λ c x. clause_of c ≡ x) result }
{
    let mut atoms = [NOTHING; 8];
    let mut p = at;
    for i in 0..count {
        let (atom, next) = atom_at(s, p, f)?;
        atoms[i] = atom;
        p = next;
    }
    Ok((Clause { count, atoms }, p))
}

// A clause: its atom count and its atoms.
pub fn clause_read(s: &[u8], at: Place, f: Facts) -> Result<(Clause, Place), Refusal>
    ensures { (facts : Sheet) (p : ℕ) → FactsAre facts f → at ≡ place_at p → Answers (clause facts s.now p) (λ c x. clause_of c ≡ x) result }
{
    let (count, next) = count_at(s, at, 4, 0, 8)?;
    some_atoms(s, next, f, count as usize)
}

// The clause at a bit number of an accepted sheet. Total: it stands for some clause at any bit number of any bytes.
pub fn clause_at(s: &[u8], p: usize, f: Facts) -> Clause
    ensures { (sheet : Sheet) (c : List atoms.Atom) (q : ℕ) → FactsAre sheet f → clause (facts_of sheet) s.now p ≡ found c q → clause_of result ≡ c }
{
    let at = Place {
        byte: p / 8,
        bit: p % 8,
    };
    match clause_read(s, at, f) {
        Ok((clause, _)) => clause,
        Err(_) => Clause {
            count: 0,
            atoms: [NOTHING; 8],
        },
    }
}

// A column that the set holds, or a key.
fn is_held(columns: u64, v: u64) -> bool
    ensures { result ≡ column_held columns v }
{
    16 <= v || is_member(16, columns, v)
}

fn atom_held(a: &Atom, columns: u64) -> bool
    ensures { result ≡ atom_held columns (atom_of a.now) }
{
    let first = is_held(columns, a.variable);
    if a.operator == 0 {
        first & is_held(columns, a.other)
    } else {
        first
    }
}

// Where `count` atoms end, and whether the set holds every column that they use. None is kept.
fn atoms_held(
    s: &[u8],
    at: Place,
    f: Facts,
    count: usize,
    columns: u64,
) -> Result<(bool, Place), Refusal>
    ensures { (facts : Sheet) (p : ℕ) → FactsAre facts f → at ≡ place_at p → Answers (times count (atom facts) s.now p) (λ b c. b ≡ every (atom_held columns) c) result }
{
    let mut held = true;
    let mut p = at;
    for _ in 0..count {
        let (atom, next) = atom_at(s, p, f)?;
        held &= atom_held(&atom, columns);
        p = next;
    }
    Ok((held, p))
}

// Where a clause ends, and whether the set holds every column that its atoms use.
pub fn clause_held(s: &[u8], at: Place, f: Facts, columns: u64) -> Result<(bool, Place), Refusal>
    ensures { (facts : Sheet) (p : ℕ) → FactsAre facts f → at ≡ place_at p → Answers (clause facts s.now p) (λ b c. b ≡ every (atom_held columns) c) result }
{
    let (count, next) = count_at(s, at, 4, 0, 8)?;
    atoms_held(s, next, f, count as usize, columns)
}
