// A session and the rows of a list, read. Bytes come in with the form of what they hold; out go the contents, null or a value, by variable
// number (columns from 0, keys from 16), with the bit number after them, or that the bytes are not of the form (refusal 15). Makes
// true: "A session is, for each key ascending, one presence bit (0 is null) and, if that is 1, a value of its kind; zero bits fill the last
// byte. A row is the same over the columns that its table holds". A list is judged whole (`judging`) before its rows are read; `inner` has both
// for rows with room behind them. Stands on bits, meaning and values; specs/Held.antt says what an answer stands for.
#![tactic(auto)]

ghost use Rattle.std.specs.Prelude.{◌≡◌, ℕ, ◌+◌, ◌*◌, ◌/◌, ◌^◌, ◌≤◌, ◌<◌, Bool, true, List, length};
ghost use Rattle.bits.specs.Bits.{number};
ghost use Rattle.meaning.specs.Values.{Kind, kind_number};
ghost use Rattle.meaning.specs.Sheets.{Sheet, Table, holds};
ghost use Rattle.meaning.specs.Reading.{content, contents, padding, row, read_session};
ghost use Rattle.rows.specs.Held.{content_found, ended_by, within, end_of, held, Fields, ContentsRead, ContentsHeld, RowRead, SessionRead};

use bits::within64;
use inner::{contents_within, has_room};
use meaning::Content;
use values::{last_of, raw_of};

pub mod form;
pub mod held;
pub mod inner;
pub mod judging;

pub use form::Form;
pub use held::Held;
pub use judging::are_rows;

// The bit at bit number p.
pub fn bit_at(s: &[u8], p: usize) -> u64
    requires { p / 8 < length s.now }
    ensures { result ≡ number s.now p 1 }
{
    (u64::from(s[p / 8]) >> (7 - p % 8)) % 2
}

// A content of a kind at bit number p, with the bit number after it.
pub fn content_at(s: &[u8], p: usize, kind: u8) -> Option<(Content, usize)>
    requires { p ≤ 2 ^ 32 }
    ensures { ended_by p (p + 65) (length s.now * 8) result × ((k : Kind) → kind_number k ≡ kind → result ≡ content_found (content k s.now p)) }
{
    if s.len() <= p / 8 {
        return None;
    }
    if bit_at(s, p) == 0 {
        return Some((Content::Null, p + 1));
    }
    if s.len() < (p + 72) / 8 {
        return None;
    }
    let v = raw_of(kind, within64(s, p + 1));
    if v <= last_of(kind) {
        return Some((Content::Value(v), p + 65));
    }
    None
}

// The contents of a form at bit number `from`: the bit number after them.
pub fn contents_at(s: &[u8], from: usize, form: &Form, vars: &mut Held) -> Option<usize>
    requires { (from ≤ 2 ^ 31) × (from ≤ length s.now * 8) }
    ensures { within from (from + 65 * form.now.n) (length s.now * 8) result × ((f : ℕ → Bool) (ks : List Kind) → Fields form.now f ks →
        ContentsRead form.now.first form.now.n (held vars.old) (held vars.new) (contents f 0 ks s.now from) result) }
{
    let mut p = from;
    for c in 0..form.n {
        let v = form.first + c;
        if !form.is_there(c) {
            vars.set(v, Content::Null);
            continue;
        }
        let (x, next) = content_at(s, p, form.kinds[v])?;
        vars.set(v, x);
        p = next;
    }
    Some(p)
}

// The bit number after the zero bits that fill the byte; a bit among them that is 1 is not of the form.
pub fn padded(s: &[u8], p: usize) -> Option<usize>
    requires { (p ≤ 2 ^ 32) × (p ≤ length s.now * 8) }
    ensures { (result ≡ end_of (padding s.now p)) × within p (p + 7) (length s.now * 8) result }
{
    let w = (8 - p % 8) % 8;
    if w == 0 || u64::from(s[p / 8]) % (1u64 << w) == 0 {
        return Some(p + w);
    }
    None
}

// The contents of a form at bit number `from`, which are there: the bit number after them.
fn columns_at(s: &[u8], from: usize, form: &Form, vars: &mut Held) -> usize
    requires { (from ≤ 2 ^ 31) × (from ≤ length s.now * 8) }
    ensures { (from ≤ result) × (result ≤ from + 65 * form.now.n) × (result ≤ length s.now * 8) × ((f : ℕ → Bool) (ks : List Kind) → Fields form.now f ks →
        ContentsHeld form.now.first form.now.n (held vars.old) (held vars.new) (contents f 0 ks s.now from) result) }
{
    if has_room(s, from, form.n) {
        return contents_within(s, from, form, vars);
    }
    contents_at(s, from, form, vars).unwrap_or(from)
}

// The row at bit number `from` in a list that is judged: the bit number after it.
pub fn row_at(s: &[u8], from: usize, form: &Form, vars: &mut Held) -> usize
    requires { (from ≤ 2 ^ 31) × (from ≤ length s.now * 8) }
    ensures { (from ≤ result) × (result ≤ from + 65 * form.now.n + 7) × (result ≤ length s.now * 8) × ((sheet : Sheet) (t : Table) → form.now.first ≡ 0 →
        Fields form.now (holds t) sheet.columns → RowRead form.now.n (held vars.old) (held vars.new) (row sheet t s.now from) result) }
{
    let p = columns_at(s, from, form, vars);
    (p + 7) / 8 * 8
}

// A whole session: is it of the form?
pub fn session_at(s: &[u8], form: &Form, vars: &mut Held) -> bool
    ensures { (sheet : Sheet) → form.now.first ≡ 16 → Fields form.now (λ k. true) sheet.keys → SessionRead (held vars.old) (held vars.new) (read_session sheet s.now) result }
{
    let Some(p) = contents_at(s, 0, form, vars) else {
        return false;
    };
    let Some(q) = padded(s, p) else {
        return false;
    };
    s.len() <= q / 8
}
