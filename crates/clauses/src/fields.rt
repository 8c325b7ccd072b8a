// The fields that policies are made of. Each answers its value with the next place, or its refusal: "2 before the field's own fault", and
// 5, 6, 7 in that order. A field is taken apart by `let .. else`, the form that document 01 names for it.
ghost use Rattle.std.specs.Prelude.{◌≡◌, ℕ, ◌≤◌};
ghost use Rattle.bits.specs.Fields.{place_at};
ghost use Rattle.meaning.specs.Sheets.{Sheet, kind_of, member};
ghost use Rattle.meaning.specs.Values.{kind_number};
ghost use Rattle.meaning.specs.Reading.{number_below, variable, mate};
ghost use Rattle.values.specs.Reads.{Reads};
ghost use Rattle.clauses.specs.Facts.{FactsAre};

use crate::Facts;
use bits::{Place, field_at};
use place::{kind_at, variable_of};
use refusals::Refusal;

// A number below `most`.
pub fn number_below(s: &[u8], at: Place, width: usize, most: u64) -> Result<(u64, Place), Refusal>
    ensures { (p : ℕ) → at ≡ place_at p → 1 ≤ width → width ≤ 64 → Reads (number_below width most s.now p) result }
{
    let Ok((n, next)) = field_at(s, at, width) else {
        return Err(Refusal::CutOff);
    };
    if most <= n {
        return Err(Refusal::NumberNotThere);
    }
    Ok((n, next))
}

// A variable of the sheet.
pub fn variable_at(s: &[u8], at: Place, f: Facts) -> Result<(u64, Place), Refusal>
    ensures { (facts : Sheet) (p : ℕ) → FactsAre facts f → at ≡ place_at p → Reads (variable facts s.now p) result }
{
    let Ok((v, next)) = field_at(s, at, 5) else {
        return Err(Refusal::CutOff);
    };
    let variable = variable_of(v, f.columns, f.keys)?;
    Ok((variable, next))
}

// An equality's second variable, of the first one's kind.
pub fn mate_at(s: &[u8], at: Place, f: Facts, kind: u8) -> Result<(u64, Place), Refusal>
    ensures { (facts : Sheet) (p v : ℕ) → FactsAre facts f → kind_number (kind_of facts v) ≡ kind → at ≡ place_at p → Reads (mate facts v s.now p) result }
{
    let (mate, next) = variable_at(s, at, f)?;
    if kind_at(&f.kinds, mate) == kind {
        Ok((mate, next))
    } else {
        Err(Refusal::WrongKind)
    }
}

// Is i in a set of `width` bits? "first bit of a set stands for number 0"
pub fn is_member(width: u64, set: u64, i: u64) -> bool
    requires { width ≤ 64 }
    ensures { result ≡ member width set i }
{
    i < width && (set >> (width - 1 - i)) % 2 == 1
}
