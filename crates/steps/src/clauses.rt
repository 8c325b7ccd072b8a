// The atoms of a clause by value; steps 2 and 3 of them, and their in-lists merged.
ghost use Rattle.std.specs.Prelude.{◌≡◌, ◌≤◌, ◌<◌, length, List, [], map, take, true, cond, eqb};
ghost use Rattle.std.specs.List.{list_all};
ghost use Rattle.lists.specs.Lists.{keep};
ghost use Rattle.meaning.specs.Views.{atom_of, clause_of};
ghost use Rattle.meaning.specs.Steps.{on, orient, tighten, spares, is_common, shared, merged};
ghost use Rattle.steps.specs.Lists.{elements};

use crate::Few;
use crate::atoms::{orient_atom, tighten_atom, with_list};
use crate::numbers::list_of;
use meaning::{Atom, Clause};

// What an array of atoms holds past the last.
pub const FILLER: Atom = Atom {
    variable: 0,
    operator: 0,
    other: 0,
    count: 0,
    values: [0; 8],
};

// No atom.
pub fn empty() -> Clause
    ensures { (result.count ≡ 0) × (clause_of result ≡ []) }
{
    Clause {
        count: 0,
        atoms: [FILLER; 8],
    }
}

// The atoms of a clause.
pub fn atoms_of(c: &Clause) -> &[Atom]
    ensures atoms { result.now ≡ take c.now.count c.now.atoms }
    ensures few { length result.now ≤ 8 }
{
    up_to(c.count, &c.atoms)
}

// The first n of the atoms, all of them if there are no more.
fn up_to(n: usize, atoms: &[Atom]) -> &[Atom]
    ensures { result.now ≡ take n atoms.now }
{
    &atoms[..n.min(atoms.len())]
}

// The clause of these atoms.
pub fn clause_with(atoms: &Few<Atom>) -> Clause
    ensures clause { clause_of result ≡ map atom_of (elements atoms.now) }
    ensures few { result.count ≤ 8 }
    ensures count { result.count ≡ length (elements atoms.now) }
{
    Clause {
        count: atoms.as_slice().len(),
        atoms: atoms.items(),
    }
}

// Steps 2 and 3, atom by atom.
pub fn tighten_atoms(atoms: &[Atom]) -> Few<Atom>
    requires { length atoms.now ≤ 8 }
    ensures { map atom_of (elements result) ≡ map tighten (map orient (map atom_of atoms.now)) }
{
    let mut out = Few::none(FILLER);
    for a in atoms {
        out.push(tighten_atom(orient_atom(*a)));
    }
    out
}

// Has a the value n, if it is an in-list on the variable v?
pub fn allows(a: &Atom, v: u64, n: u64) -> bool
    ensures { result ≡ cond (eqb (atom_of a.now).variable v) (spares n (atom_of a.now).operator) true }
{
    a.variable != v || a.operator != 1 || meaning::is_among(n, a.count, a.values)
}

// Has each in-list among the atoms on the variable v the value n?
pub fn is_common(atoms: &[Atom], v: u64, n: u64) -> bool
    ensures { result ≡ list_all (λ a. cond (eqb (atom_of a).variable v) (spares n (atom_of a).operator) true) atoms.now }
{
    atoms.iter().all(|a| allows(a, v, n))
}

// Those of the values that each in-list among the atoms on the variable v has.
pub fn common_values(atoms: &[Atom], v: u64, vs: &[u64]) -> Few<u64>
    requires { length vs.now ≤ 8 }
    ensures { elements result ≡ keep (is_common (map atom_of atoms.now) v) vs.now }
{
    let mut out = Few::none(0);
    for n in vs {
        if is_common(atoms, v, *n) {
            out.push(*n);
        }
    }
    out
}

// Step 3, of one atom among these: "All in-lists on one variable become one, their common values."
pub fn common_atom(atoms: &[Atom], a: Atom) -> Atom
    ensures { atom_of result ≡ on (atom_of a).variable (shared (map atom_of atoms.now) (atom_of a).variable (atom_of a).operator) }
{
    if a.operator != 1 {
        return a;
    }
    with_list(a, &common_values(atoms, a.variable, list_of(&a)))
}

// Step 3, of the in-lists.
pub fn merge_lists(atoms: &[Atom]) -> Few<Atom>
    requires { length atoms.now ≤ 8 }
    ensures { map atom_of (elements result) ≡ merged (map atom_of atoms.now) }
{
    let mut out = Few::none(FILLER);
    for a in atoms {
        out.push(common_atom(atoms, *a));
    }
    out
}
