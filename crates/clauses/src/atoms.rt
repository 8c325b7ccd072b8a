// Atoms, read by value: an atom with the place after it, or its refusal.
ghost use Rattle.std.specs.Prelude.{◌≡◌, ℕ, ◌≤◌, ◌<◌, take};
ghost use Rattle.bits.specs.Fields.{place_at};
ghost use Rattle.meaning.specs.Values.{Kind, kind_number};
ghost use Rattle.meaning.specs.Sheets.{Sheet, kind_of};
ghost use Rattle.meaning.specs.Reading.{times, value, values, operand, atom};
ghost use Rattle.meaning.specs.Views.{atom_of};
ghost use Rattle.meaning.specs.Steps.{on};
ghost use Rattle.values.specs.Reads.{Answers};
ghost use Rattle.clauses.specs.Facts.{FactsAre};

use crate::fields::mate_at;
use crate::{Facts, Values};
use bits::Place;
use meaning::Atom;
use place::{atom_head, count_at, kind_at};
use refusals::Refusal;
use values::value_at;

// `count` values of a kind.
fn some_values(s: &[u8], at: Place, kind: u8, count: usize) -> Result<(Values, Place), Refusal>
    requires { count ≤ 8 }
    ensures { (k : Kind) (p : ℕ) → kind_number k ≡ kind → at ≡ place_at p → Answers (times count (value k) s.now p) (λ vs ns. take vs.count vs.values ≡ ns) result }
{
    let mut values = [0u64; 8];
    let mut p = at;
    for i in 0..count {
        let (value, next) = value_at(s, p, kind)?;
        values[i] = value;
        p = next;
    }
    Ok((Values { count, values }, p))
}

// "count of 4 bits, 1..8, then values"
fn values_at(s: &[u8], at: Place, kind: u8) -> Result<(Values, Place), Refusal>
    ensures { (k : Kind) (p : ℕ) → kind_number k ≡ kind → at ≡ place_at p → Answers (values k s.now p) (λ vs ns. take vs.count vs.values ≡ ns) result }
{
    let (count, next) = count_at(s, at, 4, 1, 8)?;
    some_values(s, next, kind, count as usize)
}

// What follows an operator, as an atom on the variable v.
fn operand_at(
    s: &[u8],
    at: Place,
    f: Facts,
    kind: u8,
    v: u64,
    op: u64,
) -> Result<(Atom, Place), Refusal>
    ensures { (facts : Sheet) (p : ℕ) → FactsAre facts f → kind_number (kind_of facts v) ≡ kind → at ≡ place_at p → op < 9 → Answers (operand facts v op s.now p) (λ a x. atom_of a ≡ on v x) result }
{
    let bare = Atom {
        variable: v,
        operator: op,
        other: 0,
        count: 0,
        values: [0; 8],
    };
    match op {
        0 => {
            let (other, next) = mate_at(s, at, f, kind)?;
            Ok((Atom { other, ..bare }, next))
        }
        1 | 2 => {
            let (list, next) = values_at(s, at, kind)?;
            let count = list.count as u64;
            let values = list.values;
            Ok((
                Atom {
                    count,
                    values,
                    ..bare
                },
                next,
            ))
        }
        3..=6 => {
            let (bound, next) = value_at(s, at, kind)?;
            let values = [bound; 8];
            Ok((
                Atom {
                    count: 1,
                    values,
                    ..bare
                },
                next,
            ))
        }
        _ => Ok((bare, at)),
    }
}

// "each atom: variable, operator", and what follows it
pub fn atom_at(s: &[u8], at: Place, f: Facts) -> Result<(Atom, Place), Refusal>
    ensures { (facts : Sheet) (p : ℕ) → FactsAre facts f → at ≡ place_at p → Answers (atom facts s.now p) (λ a x. atom_of a ≡ x) result }
{
    let (head, next) = atom_head(s, at, f.columns, f.keys, &f.kinds)?;
    let kind = kind_at(&f.kinds, head.variable);
    operand_at(s, next, f, kind, head.variable, head.operator)
}
