// The front of a sheet: kinds of columns and keys, table facts.
ghost use Rattle.std.specs.Prelude.{◌≡◌, ℕ, ◌+◌, ◌≤◌, length};
ghost use Rattle.bits.specs.Fields.{place_at};
ghost use Rattle.meaning.specs.Allowed.{held_below};
ghost use Rattle.meaning.specs.Values.{kind_number};
ghost use Rattle.meaning.specs.Reading.{times, kind, table, table_facts};
ghost use Rattle.meaning.specs.Reading as reading;
ghost use Rattle.values.specs.Reads.{Answers};
ghost use Rattle.place.specs.Heads.{CountsAre, CountsFit};
ghost use Rattle.sheet.specs.Directory.{table_of};
ghost use Rattle.sheet.specs.Fronts.{Ends, KindsPut, TablesIn, FrontIs};

use crate::Table;
use bits::{Place, field_at};
use clauses::{Facts, is_member};
use place::Counts;
use refusals::Refusal;

// A kind, by its number.
fn kind_at(s: &[u8], at: Place) -> Result<(u8, Place), Refusal>
    ensures { (p : ℕ) → at ≡ place_at p → Answers (kind s.now p) (λ n k. n ≡ kind_number k) result }
{
    // taken apart by `let .. else`, as 01 has it of a field with a fault of its own
    let Ok((n, next)) = field_at(s, at, 2) else {
        return Err(Refusal::CutOff);
    };
    if 2 < n {
        return Err(Refusal::UnknownCode);
    }
    Ok((n as u8, next))
}

// The kinds of `count` variables, put into `given` from number `from` on.
fn kinds_at(
    s: &[u8],
    at: Place,
    from: usize,
    count: usize,
    given: [u8; 24],
) -> Result<([u8; 24], Place), Refusal>
    requires { from + count ≤ 24 }
    ensures { (p : ℕ) → at ≡ place_at p → Answers (times count kind s.now p) (KindsPut from given) result }
{
    let mut kinds = given;
    let mut p = at;
    for i in 0..count {
        let (kind, next) = kind_at(s, p)?;
        kinds[from + i] = kind;
        p = next;
    }
    Ok((kinds, p))
}

// Is no column at or above c held?
fn held_below(c: u64, columns: u64) -> bool
    ensures { result ≡ held_below c columns }
{
    for i in 0..16 {
        if is_member(16, columns, i) && c <= i {
            return false;
        }
    }
    true
}

// "each table: schema, tags, columns held"
fn table_at(s: &[u8], at: Place, c: u64) -> Result<(Table, Place), Refusal>
    ensures { (p : ℕ) → at ≡ place_at p → Answers (table c s.now p) (λ b t. table_of b ≡ t) result }
{
    let (schema, p) = field_at(s, at, 6)?;
    let (tags, q) = field_at(s, p, 8)?;
    let (columns, next) = field_at(s, q, 16)?;
    if held_below(c, columns) {
        let table = Table {
            schema: schema as u32,
            tags: tags as u32,
            columns: columns as u32,
        };
        Ok((table, next))
    } else {
        Err(Refusal::NumberNotThere)
    }
}

// The facts of `count` tables, put into the book; the place after them.
fn tables_at(s: &[u8], at: Place, c: u64, count: usize, book: &mut [u32]) -> Result<Place, Refusal>
    requires { (count ≤ 16) × (length book.old ≡ 240) }
    ensures { (length book.new ≡ 240) × ((p : ℕ) → at ≡ place_at p → Ends (times count (table c) s.now p) (TablesIn book.new) result) }
{
    let mut p = at;
    for i in 0..count {
        let (table, next) = table_at(s, p, c)?;
        book[3 * i] = table.schema;
        book[3 * i + 1] = table.tags;
        book[3 * i + 2] = table.columns;
        p = next;
    }
    Ok(p)
}

// Kinds and table facts, after the counts.
pub fn front_at(s: &[u8], n: Counts, at: Place, book: &mut [u32]) -> Result<(Facts, Place), Refusal>
    requires { CountsFit n × (length book.old ≡ 240) }
    ensures { (length book.new ≡ 240) × ((m : reading.Counts) (p : ℕ) → CountsAre n m → at ≡ place_at p → Answers (table_facts m s.now p) (λ f. FrontIs f book.new) result) }
{
    let (columns, p) = kinds_at(s, at, 0, n.columns as usize, [0; 24])?;
    let (kinds, q) = kinds_at(s, p, 16, n.keys as usize, columns)?;
    let next = tables_at(s, q, n.columns, n.tables as usize, book)?;
    let facts = Facts {
        columns: n.columns,
        keys: n.keys,
        tables: n.tables,
        kinds,
    };
    Ok((facts, next))
}
