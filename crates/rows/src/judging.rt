// Is a row list of the form? Rows are passed over without what they hold, but for the last ones, whose contents are read.
ghost use Rattle.std.specs.Prelude.{◌≡◌, ℕ, ◌+◌, ◌*◌, ◌^◌, ◌≤◌, Bool, true, List, length};
ghost use Rattle.meaning.specs.Values.{Kind};
ghost use Rattle.meaning.specs.Sheets.{Sheet, Table, holds};
ghost use Rattle.meaning.specs.Reading.{contents, row, read_rows};
ghost use Rattle.rows.specs.Held.{within, end_of, Fields, RowEnds, is_found};

use crate::inner::{contents_end, has_room};
use crate::{Form, Held, contents_at, padded};

// Where the contents of a form end: the fast way where it goes. What `vars` holds of them is lost.
fn columns_end(s: &[u8], from: usize, form: &Form, vars: &mut Held) -> Option<usize>
    requires { (from ≤ 2 ^ 31) × (from ≤ length s.now * 8) }
    ensures { within from (from + 65 * form.now.n) (length s.now * 8) result × ((f : ℕ → Bool) (ks : List Kind) → Fields form.now f ks → result ≡ end_of (contents f 0 ks s.now from)) }
{
    if has_room(s, from, form.n) {
        return contents_end(s, from, form);
    }
    contents_at(s, from, form, vars)
}

// Where the row at bit number `from` ends.
fn row_end(s: &[u8], from: usize, form: &Form, vars: &mut Held) -> Option<usize>
    requires { (from ≤ 2 ^ 31) × (from ≤ length s.now * 8) }
    ensures { within from (from + 65 * form.now.n + 7) (length s.now * 8) result × ((sheet : Sheet) (t : Table) → Fields form.now (holds t) sheet.columns → RowEnds (row sheet t s.now from) result) }
{
    let p = columns_end(s, from, form, vars)?;
    padded(s, p)
}

// A whole row list: is it of the form?
pub fn are_rows(s: &[u8], form: &Form) -> bool
    ensures { (result ≡ true → length s.now ≤ 65536) × ((sheet : Sheet) (t : Table) → Fields form.now (holds t) sheet.columns → result ≡ is_found (read_rows sheet t s.now)) }
{
    if 65536 < s.len() {
        return false;
    }
    let mut vars = Held::new();
    let mut p = 0;
    // no `for`: a row ends where its contents do
    while p / 8 < s.len() {
        let Some(q) = row_end(s, p, form, &mut vars) else {
            return false;
        };
        if q <= p {
            return false;
        }
        p = q;
    }
    true
}
