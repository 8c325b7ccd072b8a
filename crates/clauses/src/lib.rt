// Clauses, read. Bytes, a place and the facts of a sheet come in; out goes a clause by value with the place after it, or the refusal
// (2, and 4 to 7) that document 01 gives, in its fixed order; or only where a clause ends, and whether a set holds every column that it uses.
// Makes true of 01, "The packed sheet", what it says of variables, operators, lists, values and clauses. Stands on refusals, bits, meaning,
// values and place; values' specs/Reads.antt says what a reading answers.
#![tactic(auto)]

pub mod atoms;
pub mod clause;
pub mod fields;

pub use clause::{clause_at, clause_held};
pub use fields::is_member;

// How many columns, keys and tables there are, and the kinds of columns (from 0) and keys (from 16), by number.
#[derive(Clone, Copy)]
pub struct Facts {
    pub columns: u64,
    pub keys: u64,
    pub tables: u64,
    pub kinds: [u8; 24],
}

// The values of a list: the first `count`. (Fixed memory: nothing is allocated.)
#[derive(Clone, Copy)]
pub struct Values {
    pub count: usize,
    pub values: [u64; 8],
}
