// What is asked of a book: a table's facts, a policy's fields, and whether a policy counts for a table and a command.
ghost use Rattle.std.specs.Prelude.{◌≡◌, Bool, ℕ, ◌+◌, ◌<◌, ◌≤◌, length, get_or, eqb};
ghost use Rattle.meaning.specs.Sheets.{Sheet, policy_at};
ghost use Rattle.meaning.specs.Sheets as sheets;
ghost use Rattle.sheet.specs.Directory.{table_of, table_in, policy_cell, Described};

use crate::selectors::selector_at;
use crate::{Directory, Table};
use bits::Place;
use clauses::is_member;

// Cell i of a book, 0 past its end.
fn cell(book: &[u32], i: usize) -> u32
    ensures { result ≡ get_or book.now i 0 }
{
    book.get(i).copied().unwrap_or(0)
}

// A table's facts.
pub fn table_of(book: &[u32], t: usize) -> Table
    ensures { t < 16 → table_of result ≡ table_in book.now t }
{
    if 16 <= t {
        return Table {
            schema: 0,
            tags: 0,
            columns: 0,
        };
    }
    Table {
        schema: cell(book, 3 * t),
        tags: cell(book, 3 * t + 1),
        columns: cell(book, 3 * t + 2),
    }
}

// Cell j of policy p.
fn policy_cell(book: &[u32], p: usize, j: usize) -> u32
    requires { j < 12 }
    ensures { p < 16 → result ≡ policy_cell book.now p j }
{
    if 16 <= p {
        return 0;
    }
    cell(book, 48 + p * 12 + j)
}

// Is policy p restrictive?
pub fn restrictive_of(book: &[u32], p: usize) -> bool
    ensures { p < 16 → result ≡ eqb (policy_cell book.now p 0) 1 }
{
    policy_cell(book, p, 0) == 1
}

// The commands of policy p.
pub fn commands_of(book: &[u32], p: usize) -> u64
    ensures { p < 16 → result ≡ policy_cell book.now p 1 }
{
    u64::from(policy_cell(book, p, 1))
}

// Where the selector of policy p begins.
pub fn selector_of(book: &[u32], p: usize) -> usize
    ensures { p < 16 → result ≡ policy_cell book.now p 2 }
{
    policy_cell(book, p, 2) as usize
}

// How many clauses policy p has.
pub fn count_of(book: &[u32], p: usize) -> usize
    ensures { p < 16 → result ≡ policy_cell book.now p 3 }
{
    policy_cell(book, p, 3) as usize
}

// Where clause k of policy p begins.
pub fn start_of(book: &[u32], p: usize, k: usize) -> usize
    ensures { p < 16 → k < 8 → result ≡ policy_cell book.now p (4 + k) }
{
    if 8 <= k {
        return 0;
    }
    policy_cell(book, p, 4 + k) as usize
}

// Does the selector of policy p match table t?
pub fn matches(s: &[u8], d: Directory, book: &[u32], t: usize, p: usize) -> bool
    ensures { (sheet : Sheet) → Described s.now sheet d book.now → t < length sheet.tables → p < length sheet.policies
        → result ≡ sheets.matches t (sheets.table_at sheet t) (policy_at sheet p).selector }
{
    let start = selector_of(book, p);
    let at = Place {
        byte: start / 8,
        bit: start % 8,
    };
    let chosen = selector_at(
        s,
        at,
        6,
        d.facts.columns,
        d.facts.tables,
        t as u64,
        table_of(book, t),
    );
    matches!(chosen, Ok((true, _)))
}

// Does policy p count for table t and a command?
pub fn applies(s: &[u8], d: Directory, book: &[u32], t: usize, command: u64, p: usize) -> bool
    ensures { (sheet : Sheet) → Described s.now sheet d book.now → t < length sheet.tables → p < length sheet.policies → result ≡ sheets.applies sheet t command (policy_at sheet p) }
{
    is_member(4, commands_of(book, p), command) && matches(s, d, book, t, p)
}

// A count, at most the most that there may be.
pub fn up_to(most: usize, n: u64) -> usize
    ensures { (result ≤ most) × (n ≤ most → result ≡ n) }
{
    n.min(most as u64) as usize
}
