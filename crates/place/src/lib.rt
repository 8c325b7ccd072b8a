// The reading place, lent. A sheet's bytes come in; out go the head of a sheet (its counts) and the head of an atom (variable and operator),
// each with the place after it, or a refusal. "The reading place is one byte number and one bit number, and each field read moves it on"
// (01, "The packed sheet"): `next_field` and `next_count` read by value at the lent place, and store the place that comes after; a refusal
// leaves the place unmoved. Judging is in functions by value. Stands on refusals, bits, meaning, values.
#![tactic(auto)]

ghost use Rattle.std.specs.Prelude.{◌≡◌, ℕ, length, get_or, IfOk};
ghost use Rattle.bits.specs.Fields.{place_at, field_at};
ghost use Rattle.meaning.specs.Sheets.{Sheet};
ghost use Rattle.meaning.specs.Views.{KindsAre};
ghost use Rattle.meaning.specs.Reading.{counts};
ghost use Rattle.values.specs.Reads.{Answers};
ghost use Rattle.place.specs.Lent.{Moves};
ghost use Rattle.place.specs.Heads.{count_at, CountsAre, CountsFit, is_there, fits_kind, variable_of, atom_head, HeadFits};

use bits::{Place, field_at};
use refusals::Refusal;

// The counts that a sheet begins with.
#[derive(Clone, Copy)]
pub struct Counts {
    pub columns: u64,
    pub keys: u64,
    pub tables: u64,
    pub policies: u64,
}

// What an atom begins with.
#[derive(Clone, Copy)]
pub struct AtomHead {
    pub variable: u64,
    pub operator: u64,
}

// A count of `width` bits from `low` to `high`: 4 where it is not allowed, 2 before that.
pub fn count_at(
    s: &[u8],
    at: Place,
    width: usize,
    low: u64,
    high: u64,
) -> Result<(u64, Place), Refusal>
    ensures { result ≡ count_at s.now at width low high }
{
    let (n, next) = field_at(s, at, width)?;
    if n < low || high < n {
        return Err(Refusal::WrongCount);
    }
    Ok((n, next))
}

// The field of `width` bits at the lent place, which moves on over it.
pub fn next_field(s: &[u8], at: &mut Place, width: usize) -> Result<u64, Refusal>
    ensures { Moves (field_at s.now at.old width) at.old result at.new }
{
    let (value, after) = field_at(s, *at, width)?;
    *at = after;
    Ok(value)
}

// The count at the lent place, which moves on over it.
pub fn next_count(
    s: &[u8],
    at: &mut Place,
    width: usize,
    low: u64,
    high: u64,
) -> Result<u64, Refusal>
    ensures { Moves (count_at s.now at.old width low high) at.old result at.new }
{
    let (count, next) = count_at(s, *at, width, low, high)?;
    *at = next;
    Ok(count)
}

// "3: edition other than 1"
const EDITION: u64 = 1;

// The head of a sheet: the place is made here, and lent for each field in turn.
pub fn sheet_head(s: &[u8]) -> Result<(Counts, Place), Refusal>
    ensures read { Answers (counts s.now 0) CountsAre result }
    ensures fit { IfOk result (λ r. CountsFit r.0) }
{
    let mut at = Place { byte: 0, bit: 0 };
    if next_field(s, &mut at, 4)? != EDITION {
        return Err(Refusal::OtherEdition);
    }
    let columns = next_count(s, &mut at, 5, 0, 16)?;
    let keys = next_count(s, &mut at, 4, 1, 8)?;
    let tables = next_count(s, &mut at, 5, 1, 16)?;
    let policies = next_count(s, &mut at, 5, 0, 16)?;
    let counts = Counts {
        columns,
        keys,
        tables,
        policies,
    };
    Ok((counts, at))
}

// Whether a variable's number is below its count.
fn is_there(v: u64, columns: u64, keys: u64) -> bool
    ensures { result ≡ is_there v columns keys }
{
    if v < 16 { v < columns } else { v - 16 < keys }
}

// A variable's number, judged: 5 before 6.
pub fn variable_of(v: u64, columns: u64, keys: u64) -> Result<u64, Refusal>
    ensures { result ≡ variable_of v columns keys }
{
    if 24 <= v {
        return Err(Refusal::UnknownCode);
    }
    if is_there(v, columns, keys) {
        Ok(v)
    } else {
        Err(Refusal::NumberNotThere)
    }
}

// The number of a variable's kind, 0 past the last.
pub fn kind_at(kinds: &[u8; 24], v: u64) -> u8
    ensures { result ≡ get_or kinds.now v 0 }
{
    if v < 24 { kinds[v as usize] } else { 0 }
}

// Whether an operator fits a variable's kind.
fn fits_kind(kind: u8, operator: u64) -> bool
    ensures { result ≡ fits_kind kind operator }
{
    operator < 3 || 6 < operator || kind == 0
}

// The head of an atom of a sheet with these counts and kinds: each field is judged as it is reached, 2, then 5, 6 and 7.
pub fn atom_head(
    s: &[u8],
    at: Place,
    columns: u64,
    keys: u64,
    kinds: &[u8; 24],
) -> Result<(AtomHead, Place), Refusal>
    ensures read { (facts : Sheet) (p : ℕ) → columns ≡ length facts.columns → keys ≡ length facts.keys → KindsAre facts kinds.now → at ≡ place_at p → Answers (atom_head facts s.now p) ◌≡◌ result }
    ensures fit { IfOk result (λ r. HeadFits r.0) }
{
    let mut at = at;
    let variable = variable_of(next_field(s, &mut at, 5)?, columns, keys)?;
    let operator = next_field(s, &mut at, 4)?;
    if 9 <= operator {
        return Err(Refusal::UnknownCode);
    }
    if fits_kind(kind_at(kinds, variable), operator) {
        Ok((AtomHead { variable, operator }, at))
    } else {
        Err(Refusal::WrongKind)
    }
}
