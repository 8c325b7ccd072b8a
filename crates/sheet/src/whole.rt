// The whole sheet: head, front, policies, the sheet's end (refusals 1 to 10), and 11.
ghost use Rattle.std.specs.Prelude.{◌≡◌, ℕ, ◌≤◌, length};
ghost use Rattle.bits.specs.Fields.{place_at};
ghost use Rattle.sheet.specs.Directory.{SheetRead};
ghost use Rattle.sheet.specs.Fronts.{Closes};

use crate::Directory;
use crate::opening::front_at;
use crate::policy_fields::policies_at;
use bits::{Place, peek};
use place::sheet_head;
use refusals::Refusal;

// "After the last field come zero bits to the end of the byte and nothing more."
fn closes(s: &[u8], at: Place) -> bool
    requires { length s.now ≤ 16384 }
    ensures { (p : ℕ) → at ≡ place_at p → Closes s.now p result }
{
    let Place { byte, bit } = at;
    if s.len() <= byte {
        return true;
    }
    if bit < 1 || 7 < bit {
        return false;
    }
    if byte + 1 < s.len() {
        return false;
    }
    peek(s, byte * 8 + bit, 8 - bit) == 0
}

// Every field of a sheet, in order, its end, and whether its tables serve its policies.
fn fields_read(s: &[u8], book: &mut [u32]) -> Result<Directory, Refusal>
    requires { (length s.now ≤ 16384) × (length book.old ≡ 240) }
    ensures { SheetRead s.now book.new result }
{
    let (counts, p) = sheet_head(s)?;
    let (facts, q) = front_at(s, counts, p, book)?;
    let (served, u) = policies_at(s, q, facts, counts.policies as usize, book)?;
    if !closes(s, u) {
        return Err(Refusal::LeftOver);
    }
    if !served {
        return Err(Refusal::ColumnNotHeld);
    }
    Ok(Directory {
        facts,
        policies: counts.policies,
    })
}

// Reads a sheet: the directory of an accepted one, whose tables and policies stand in the book then, or its refusal.
pub fn read_sheet(s: &[u8], book: &mut [u32]) -> Result<Directory, Refusal>
    requires { length book.old ≡ 240 }
    ensures { SheetRead s.now book.new result }
{
    if 16384 < s.len() {
        return Err(Refusal::TooLong);
    }
    fields_read(s, book)
}
