// A packed sheet, read. Bytes come in; out goes a directory of an accepted sheet, or the refusal (1 to 11) that document 01 gives, in
// its fixed order. The caller's bytes stay the only copy: the directory has the counts and kinds, and a lent book the table facts and the places
// of selectors and clauses, so that no later layer parses again and nothing large is copied. Stands on refusals, bits, meaning, values, place and clauses;
// specs/Directory.antt ties a directory and its book to the sheet that the definitions read.
#![tactic(auto)]

use clauses::Facts;

pub mod accepted;
pub mod entries;
pub mod opening;
pub mod policy_fields;
pub mod selectors;
pub mod serving;
pub mod whole;

pub use accepted::Accepted;
pub use entries::applies;
pub use whole::read_sheet;

// "each table: schema, tags, columns held"
#[derive(Clone, Copy)]
pub struct Table {
    pub schema: u32,
    pub tags: u32,
    pub columns: u32,
}

// What an accepted sheet holds, beside its book of 240 cells: three for each table from cell 0 on (schema, tags, columns held), and twelve for
// each policy from cell 48 on (type, commands, where its selector begins, how many clauses it has, where each of them begins).
#[derive(Clone, Copy)]
pub struct Directory {
    pub facts: Facts,
    pub policies: u64,
}
