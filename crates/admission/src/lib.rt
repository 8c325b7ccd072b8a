// Whether a row is admitted. The sheet's bytes come in with a plan, laid out once for a table and a command: a word of 16 bits for each atom,
// a head of 64 for each clause, a count for each restrictive policy; out goes whether the contents at hand are admitted. No atom is decoded from
// bits again for a row, and what is decided is not looked at again: a clause is left at its guard, its sieve or its first atom that is not met,
// clauses at the first that is met, policies at the first that denies. Makes true: "A row is admitted when a permissive policy is met and every
// restrictive one is met. With no permissive policy nothing is admitted". Stands on bits, meaning, values and rows; specs/Plan.antt says what the
// numbers stand for.
#![tactic(auto)]

ghost use Rattle.std.specs.Prelude.{◌≡◌, ◌≤◌};
ghost use Rattle.admission.specs.Plan.{size_of};

pub mod laying;
pub mod meeting;
pub mod plan;

pub use laying::lay_clause;
pub use plan::Plan;

// A word with the number of bits of its atom.
#[derive(Clone, Copy)]
pub struct Laid {
    pub word: u16,
    pub size: usize,
}

// How many bits the word's atom has.
fn size_of(w: u16) -> usize
    ensures { (result ≡ size_of w) × (result ≤ 2048) }
{
    match w % 16 {
        0 => 14,
        1 | 2 => 13 + 64 * usize::from(w / 512 % 32),
        3..=6 => 73,
        _ => 9,
    }
}
