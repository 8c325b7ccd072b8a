// Selectors: read, and matched with a table, in one walk. "Selectors nest inside selectors to a depth of six": the walk calls itself on the
// inner selectors, the remaining depth falling at each call; a node at depth seven is refused before its bits are read.
ghost use Rattle.std.specs.Prelude.{◌≡◌, ℕ, ◌<◌, List, length};
ghost use Rattle.bits.specs.Fields.{place_at};
ghost use Rattle.meaning.specs.Sheets.{Sheet, Selector, matches};
ghost use Rattle.meaning.specs.Reading.{Read, selector, selector_node};
ghost use Rattle.values.specs.Reads.{Answers};
ghost use Rattle.sheet.specs.Directory.{table_of};

use crate::Table;
use bits::{Place, field_at};
use clauses::fields::number_below;
use clauses::is_member;
use refusals::Refusal;

// What follows a leaf's node, and whether table number t is one that it names.
fn leaf_at(
    s: &[u8],
    at: Place,
    node: u64,
    columns: u64,
    tables: u64,
    t: u64,
    table: Table,
) -> Result<(bool, Place), Refusal>
    ensures { (facts : Sheet) (inner : List ℕ → ℕ → Read Selector) (p : ℕ) → columns ≡ length facts.columns → tables ≡ length facts.tables → at ≡ place_at p → node < 5 →
        Answers (selector_node facts inner node s.now p) (λ b x. b ≡ matches t (table_of table) x) result }
{
    match node {
        0 => Ok((true, at)),
        1 => {
            let (column, next) = number_below(s, at, 4, columns)?;
            Ok((is_member(16, u64::from(table.columns), column), next))
        }
        2 => {
            let (schema, next) = field_at(s, at, 6)?;
            Ok((u64::from(table.schema) == schema, next))
        }
        3 => {
            let (number, next) = number_below(s, at, 4, tables)?;
            Ok((t == number, next))
        }
        _ => {
            let (tag, next) = field_at(s, at, 3)?;
            Ok((is_member(8, u64::from(table.tags), tag), next))
        }
    }
}

// A selector of at most `depth` nodes one within another, and whether it matches table number t.
pub fn selector_at(
    s: &[u8],
    at: Place,
    depth: usize,
    columns: u64,
    tables: u64,
    t: u64,
    table: Table,
) -> Result<(bool, Place), Refusal>
    ensures { (facts : Sheet) (p : ℕ) → columns ≡ length facts.columns → tables ≡ length facts.tables → at ≡ place_at p →
        Answers (selector depth facts s.now p) (λ b x. b ≡ matches t (table_of table) x) result }
{
    if depth < 1 {
        return Err(Refusal::TooDeep);
    }
    let (node, inside) = field_at(s, at, 3)?;
    if node < 5 {
        return leaf_at(s, inside, node, columns, tables, t, table);
    }
    let inner = depth - 1;
    let (first, between) = selector_at(s, inside, inner, columns, tables, t, table)?;
    if node == 7 {
        return Ok((!first, between));
    }
    let (second, after) = selector_at(s, between, inner, columns, tables, t, table)?;
    if node == 5 {
        Ok((first & second, after))
    } else {
        Ok((first | second, after))
    }
}
