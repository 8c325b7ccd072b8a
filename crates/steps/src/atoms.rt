// Steps 2 and 3 of one atom.
ghost use Rattle.std.specs.Prelude.{◌≡◌, take, get_or, List, []};
ghost use Rattle.meaning.specs.Views.{operator_of, atom_of};
ghost use Rattle.meaning.specs.Steps.{on, orient, tighten};
ghost use Rattle.steps.specs.Lists.{elements};

use crate::Few;
use crate::numbers::{ascend_values, list_of};
use meaning::Atom;
use std::cmp::Ordering;

// Step 2: "Equality of a variable with itself becomes "is not null". Otherwise the lower variable number stands left."
pub fn orient_atom(a: Atom) -> Atom
    ensures { atom_of result ≡ orient (atom_of a) }
{
    if a.operator != 0 {
        return a;
    }
    match a.variable.cmp(&a.other) {
        Ordering::Less => a,
        Ordering::Equal => Atom { operator: 8, ..a },
        Ordering::Greater => Atom {
            variable: a.other,
            other: a.variable,
            ..a
        },
    }
}

// The atom with another list.
pub fn with_list(a: Atom, list: &Few<u64>) -> Atom
    ensures variable { result.variable ≡ a.variable }
    ensures operator { result.operator ≡ a.operator }
    ensures other { result.other ≡ a.other }
    ensures list { take result.count result.values ≡ elements list.now }
    ensures bound { get_or result.values 0 0 ≡ get_or list.now.items 0 0 }
{
    Atom {
        count: list.as_slice().len() as u64,
        values: list.items(),
        ..a
    }
}

// An atom with a bound.
pub fn with_bound(v: u64, o: u64, n: u64) -> Atom
    ensures { atom_of result ≡ on v (operator_of o 0 n []) }
{
    Atom {
        variable: v,
        operator: o,
        other: 0,
        count: 0,
        values: [n; 8],
    }
}

// Step 3, of one atom: "Below v becomes at most v−1; above v becomes at least v+1. List values ascend, each once."
pub fn tighten_atom(a: Atom) -> Atom
    ensures { atom_of result ≡ tighten (atom_of a) }
{
    match a.operator {
        1 | 2 => with_list(a, &ascend_values(list_of(&a))),
        5 => with_bound(a.variable, 3, a.values[0].saturating_sub(1)),
        6 => with_bound(a.variable, 4, a.values[0].saturating_add(1)),
        _ => a,
    }
}
