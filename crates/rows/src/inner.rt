// Contents whose longest forms are wholly there: nothing is tested for the end. They are read here without being judged, or judged without being
// held, and `contents_at` does both with a test of the end: three loops, since one for all costs a third more instructions a row
// (docs/PERFORMANCE.md, "Listing").
ghost use Rattle.std.specs.Prelude.{◌≡◌, ℕ, ◌+◌, ◌*◌, ◌/◌, ◌^◌, ◌≤◌, Bool, true, false, List, length};
ghost use Rattle.meaning.specs.declared.Content.{Content};
ghost use Rattle.meaning.specs.Values.{Kind, kind_number};
ghost use Rattle.meaning.specs.Reading.{found, content, contents};
ghost use Rattle.rows.specs.Held.{within, end_of, held, Fields, ContentsHeld};

use crate::{Form, Held, bit_at};
use bits::within64;
use meaning::Content;
use values::{last_of, raw_of};

// Are the longest contents of n columns surely there from bit number `from` on? By bytes, nine for each.
pub fn has_room(s: &[u8], from: usize, n: usize) -> bool
    requires { (from ≤ 2 ^ 31) × (n ≤ 16) }
    ensures { (result ≡ true → from + 65 * n ≤ length s.now * 8) × (result ≡ false → length s.now ≤ from / 8 + 9 * n) }
{
    from / 8 + 9 * n < s.len()
}

// A content of a kind at bit number p, which is of the form, with the bit number after it.
fn content_within(s: &[u8], p: usize, kind: u8) -> (Content, usize)
    requires { (p ≤ 2 ^ 32) × (p + 65 ≤ length s.now * 8) }
    ensures { (p ≤ result.1) × (result.1 ≤ p + 65) × ((k : Kind) (x : Content) (q : ℕ) → kind_number k ≡ kind → content k s.now p ≡ found x q → (result.0 ≡ x) × (result.1 ≡ q)) }
{
    if bit_at(s, p) == 0 {
        return (Content::Null, p + 1);
    }
    (Content::Value(raw_of(kind, within64(s, p + 1))), p + 65)
}

// The contents of a form at bit number `from`, which are there: the bit number after them.
pub fn contents_within(s: &[u8], from: usize, form: &Form, vars: &mut Held) -> usize
    requires { (from ≤ 2 ^ 31) × (from + 65 * form.now.n ≤ length s.now * 8) }
    ensures { (from ≤ result) × (result ≤ from + 65 * form.now.n) × ((f : ℕ → Bool) (ks : List Kind) → Fields form.now f ks →
        ContentsHeld form.now.first form.now.n (held vars.old) (held vars.new) (contents f 0 ks s.now from) result) }
{
    let mut p = from;
    for c in 0..form.n {
        let v = form.first + c;
        if !form.is_there(c) {
            vars.set(v, Content::Null);
            continue;
        }
        let (x, next) = content_within(s, p, form.kinds[v]);
        vars.set(v, x);
        p = next;
    }
    p
}

// Where the content of a kind at a bit number ends. Every 64 bits are an integer, so its bits are not looked at.
fn content_end(s: &[u8], at: usize, kind: u8) -> Option<usize>
    requires { (at ≤ 2 ^ 32) × (at + 65 ≤ length s.now * 8) }
    ensures { within at (at + 65) (length s.now * 8) result × ((k : Kind) → kind_number k ≡ kind → result ≡ end_of (content k s.now at)) }
{
    if bit_at(s, at) == 0 {
        return Some(at + 1);
    }
    if kind == 0 || raw_of(kind, within64(s, at + 1)) <= last_of(kind) {
        return Some(at + 65);
    }
    None
}

// Where the contents of a form end.
pub fn contents_end(s: &[u8], from: usize, form: &Form) -> Option<usize>
    requires { (from ≤ 2 ^ 31) × (from + 65 * form.now.n ≤ length s.now * 8) }
    ensures { within from (from + 65 * form.now.n) (length s.now * 8) result × ((f : ℕ → Bool) (ks : List Kind) → Fields form.now f ks → result ≡ end_of (contents f 0 ks s.now from)) }
{
    let mut p = from;
    for c in 0..form.n {
        if form.is_there(c) {
            p = content_end(s, p, form.kinds[form.first + c])?;
        }
    }
    Some(p)
}
