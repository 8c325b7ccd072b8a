// Policies: type, commands, and the places of the selector and of each clause.
ghost use Rattle.std.specs.Prelude.{◌≡◌, ℕ, ◌+◌, ◌≤◌, length};
ghost use Rattle.lists.specs.Lists.{every};
ghost use Rattle.bits.specs.Fields.{place_at};
ghost use Rattle.meaning.specs.Sheets.{Sheet};
ghost use Rattle.meaning.specs.Reading.{times, clause, policy};
ghost use Rattle.clauses.specs.Facts.{FactsAre};
ghost use Rattle.sheet.specs.Directory.{PolicyAt};
ghost use Rattle.values.specs.Reads.{Answers};
ghost use Rattle.clauses.specs.Facts.{atom_held};
ghost use Rattle.sheet.specs.Fronts.{FrontIs, KeptBelow, StartsAt, PoliciesIn, policy_serves};

use crate::Table;
use crate::selectors::selector_at;
use crate::serving::shared_columns;
use bits::{Place, field_at};
use clauses::{Facts, clause_held};
use place::count_at;
use refusals::Refusal;

// The bit number of a place in a sheet.
fn bit_of(p: Place) -> u32
    ensures { (n : ℕ) → p ≡ place_at n → n ≤ 131072 → result ≡ n }
{
    (p.byte % 65536 * 8 + p.bit % 8) as u32
}

// The places of `count` clauses, put into the book from cell `from` on, and whether the set holds every column that they use.
fn clauses_at(
    s: &[u8],
    at: Place,
    f: Facts,
    count: usize,
    columns: u64,
    book: &mut [u32],
    from: usize,
) -> Result<(bool, Place), Refusal>
    requires { (count ≤ 8) × (from + 8 ≤ length book.old) }
    ensures { KeptBelow from book.old book.new × ((facts : Sheet) (p : ℕ) → FactsAre facts f → length s.now ≤ 16384 → at ≡ place_at p →
        Answers (times count (clause facts) s.now p) (λ b cs. StartsAt s.now facts book.new from cs × (b ≡ every (every (atom_held columns)) cs)) result) }
{
    let mut held = true;
    let mut p = at;
    for i in 0..count {
        let (all, next) = clause_held(s, p, f, columns)?;
        held &= all;
        book[from + i] = bit_of(p);
        p = next;
    }
    Ok((held, p))
}

// "each policy: type, commands", selector, clauses; put into the book's twelve cells from `from` on.
fn policy_at(
    s: &[u8],
    at: Place,
    f: Facts,
    book: &mut [u32],
    from: usize,
) -> Result<(bool, Place), Refusal>
    requires { from + 12 ≤ length book.old }
    ensures { KeptBelow from book.old book.new × ((facts : Sheet) (p : ℕ) → FrontIs f book.old facts → length s.now ≤ 16384 → at ≡ place_at p →
        Answers (policy facts s.now p) (λ b x. PolicyAt s.now facts x book.new from × (b ≡ policy_serves facts x)) result) }
{
    let (kind, p) = field_at(s, at, 1)?;
    let (commands, q) = field_at(s, p, 4)?;
    if commands < 1 {
        return Err(Refusal::NoCommand);
    }
    let none = Table {
        schema: 0,
        tags: 0,
        columns: 0,
    };
    let (_, u) = selector_at(s, q, 6, f.columns, f.tables, 0, none)?;
    let (count, v) = count_at(s, u, 4, 0, 8)?;
    let columns = shared_columns(s, q, f, book);
    book[from] = kind as u32;
    book[from + 1] = commands as u32;
    book[from + 2] = bit_of(q);
    book[from + 3] = count as u32;
    clauses_at(s, v, f, count as usize, columns, book, from + 4)
}

// The fields of `count` policies, put into the book, and whether the tables serve each of them.
pub fn policies_at(
    s: &[u8],
    at: Place,
    f: Facts,
    count: usize,
    book: &mut [u32],
) -> Result<(bool, Place), Refusal>
    requires { (count ≤ 16) × (length book.old ≡ 240) }
    ensures { KeptBelow 48 book.old book.new × ((facts : Sheet) (p : ℕ) → FrontIs f book.old facts → length s.now ≤ 16384 → at ≡ place_at p →
        Answers (times count (policy facts) s.now p) (λ b ps. PoliciesIn s.now facts book.new ps × (b ≡ every (policy_serves facts) ps)) result) }
{
    let mut held = true;
    let mut p = at;
    for i in 0..count {
        let (served, next) = policy_at(s, p, f, book, 48 + i * 12)?;
        held &= served;
        p = next;
    }
    Ok((held, p))
}
