// What document 01 says, as definitions (specs/), and the types that its sentences name. Nothing comes in and nothing goes out here: the
// crates above cite these definitions in their promises. Read specs/ in the order of specs/Lib.antt; each definition carries its sentence of
// 01. proofs/ has the laws that show the definitions to be right, and the mathematics of the customer's demands. The code is what every crate
// above needs of one atom: is it met by what its variables hold?
#![tactic(auto)]

ghost use Rattle.std.specs.Prelude.{◌≡◌, take};
ghost use Rattle.meaning.specs.Values.{Contents};
ghost use Rattle.meaning.specs.Atoms as atoms;
ghost use Rattle.meaning.specs.Atoms.{among, is_value, passes, met};
ghost use Rattle.meaning.specs.Views.{atom_of, value_passes};

// "It holds null or a value of its kind": a value is its order code (specs/Values.antt). It stays an enum: the scope document names null and
// value as its cases.
#[derive(Clone, Copy, Debug, PartialEq, Eq)]
pub enum Content {
    Null,
    Value(u64),
}

// An atom by value. `other` is an equality's second variable; a list is the first `count` of `values`; a bound is the first of `values`.
#[derive(Clone, Copy, Debug, PartialEq, Eq)]
pub struct Atom {
    pub variable: u64,
    pub operator: u64,
    pub other: u64,
    pub count: u64,
    pub values: [u64; 8],
}

// A clause by value: the first `count` of `atoms`.
#[derive(Clone, Copy, Debug, PartialEq, Eq)]
pub struct Clause {
    pub count: usize,
    pub atoms: [Atom; 8],
}

// What the public calls answer. Each replies with a Result, whose error is a refusal of 01; a normal form's length is a usize, N a u64.

// A listing's length in bytes, and its count of rows.
#[derive(Clone, Copy, Debug, PartialEq, Eq)]
pub struct Listed {
    pub length: usize,
    pub count: usize,
}

// The verdicts stay enums of their own: the scope document names their forms.
#[derive(Clone, Copy, Debug, PartialEq, Eq)]
pub enum Life {
    Live,
    Dead,
}

#[derive(Clone, Copy, Debug, PartialEq, Eq)]
pub enum Isolation {
    Isolated,
    // the first two clause choices that leak
    Leaks(u32, u32),
}

#[derive(Clone, Copy, Debug, PartialEq, Eq)]
pub enum Cover {
    Covers,
    Misses,
}

// Is this content the value n?
pub fn is_value(n: u64, c: Content) -> bool
    ensures { result ≡ is_value n c }
{
    match c {
        Content::Null => false,
        Content::Value(m) => n == m,
    }
}

// Is n among the first `count` values?
pub fn is_among(n: u64, count: u64, values: [u64; 8]) -> bool
    ensures { result ≡ among n (take count values) }
{
    values[..count.min(8) as usize].contains(&n)
}

// Does the value n pass the atom's operator, where the second variable of an equality holds y?
#[tactic(auto, unfolding(crate::specs::Views::value_passes))]
fn value_passes(a: Atom, n: u64, y: Content) -> bool
    ensures { result ≡ value_passes a n y }
{
    let v = a.values[0];
    match a.operator {
        0 => is_value(n, y),
        1 => is_among(n, a.count, a.values),
        2 => !is_among(n, a.count, a.values),
        3 => n <= v,
        4 => v <= n,
        5 => n < v,
        6 => v < n,
        7 => false,
        _ => true,
    }
}

// Is the atom met where its variable holds x and the second variable of an equality holds y?
pub fn is_met(a: Atom, x: Content, y: Content) -> bool
    ensures { (e : Contents) → e a.variable ≡ x → e a.other ≡ y → result ≡ met e (atom_of a) }
{
    match x {
        Content::Null => a.operator == 7,
        Content::Value(n) => value_passes(a, n, y),
    }
}
