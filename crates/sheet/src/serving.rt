// Refusal 11, as the policies are read: the columns that each table holds which a policy's selector matches. They serve the policy where they
// hold every column that its atoms use, both sides of an equality.
ghost use Rattle.std.specs.Prelude.{◌≡◌, ℕ, length};
ghost use Rattle.bits.specs.Fields.{place_at};
ghost use Rattle.meaning.specs.Sheets.{Sheet, Selector};
ghost use Rattle.meaning.specs.Reading.{found, selector};
ghost use Rattle.sheet.specs.Fronts.{FrontIs, Shared};

use crate::entries::table_of;
use crate::selectors::selector_at;
use bits::Place;
use clauses::Facts;

// The columns that each table holds which the selector at a place matches; every column where it matches none.
pub fn shared_columns(s: &[u8], at: Place, f: Facts, book: &[u32]) -> u64
    ensures { (facts : Sheet) (x : Selector) (p q : ℕ) → FrontIs f book.now facts → at ≡ place_at p → selector 6 facts s.now p ≡ found x q → Shared facts x (length facts.tables) result }
{
    let mut shared: u64 = 65535;
    for t in 0..f.tables {
        let table = table_of(book, t as usize);
        let chosen = selector_at(s, at, 6, f.columns, f.tables, t, table);
        if let Ok((true, _)) = chosen {
            shared &= u64::from(table.columns);
        }
    }
    shared
}
