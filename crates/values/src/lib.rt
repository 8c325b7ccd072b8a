// A value of a kind, read at a place. Bytes, a place and a kind's number come in; out goes the value's order code with the next place, or the
// refusal: 2 where its 64 bits are not wholly there, 7 where it is not of the kind ("2 before the field's own fault"). Sheets, sessions
// and rows all read their values here. Stands on refusals, bits and meaning; specs/Reads.antt says how an answer of the code stands for what the
// definitions read.
#![tactic(auto)]

ghost use Rattle.std.specs.Prelude.{◌≡◌, ℕ};
ghost use Rattle.bits.specs.Fields.{place_at};
ghost use Rattle.meaning.specs.Values.{Kind, kind_number, last, raw};
ghost use Rattle.meaning.specs.Reading.{value};
ghost use Rattle.values.specs.Reads.{Reads};

use bits::{Place, field_at};
use refusals::Refusal;

// A value's 64 bits as its order code, and back: "two's complement".
pub fn raw_of(kind: u8, x: u64) -> u64
    ensures { (k : Kind) → kind_number k ≡ kind → result ≡ raw k x }
{
    if kind == 0 {
        if x < 9223372036854775808 {
            return x + 9223372036854775808;
        }
        return x - 9223372036854775808;
    }
    x
}

// The greatest order code of a kind.
pub fn last_of(kind: u8) -> u64
    ensures { (k : Kind) → kind_number k ≡ kind → result ≡ last k }
{
    match kind {
        0 => 18446744073709551615,
        1 => 4294967295,
        _ => 1,
    }
}

// A value of a kind at a place.
pub fn value_at(s: &[u8], at: Place, kind: u8) -> Result<(u64, Place), Refusal>
    ensures { (k : Kind) (p : ℕ) → kind_number k ≡ kind → at ≡ place_at p → Reads (value k s.now p) result }
{
    // taken apart by `let .. else`, as 01 has it of a field with a fault of its own
    let Ok((x, next)) = field_at(s, at, 64) else {
        return Err(Refusal::CutOff);
    };
    let v = raw_of(kind, x);
    if last_of(kind) < v {
        return Err(Refusal::WrongKind);
    }
    Ok((v, next))
}
