// The policies that count for a table and a command, laid out.
ghost use Rattle.std.specs.Prelude.{◌≤◌};

#[derive(Clone, Copy)]
pub struct Plan {
    // a word for each atom, eight to a clause's slot, and a head for each clause
    pub words: [u16; 1024],
    pub heads: [u64; 128],
    // how many clauses each restrictive policy has
    pub counts: [u8; 16],
    // how many clauses of permissive policies there are, one of which must be met, and how many restrictive policies, each of which must be met
    pub some: usize,
    pub all: usize,
    pub ghost fits: { (some ≤ 128) × (all ≤ 16) },
}

impl Plan {
    ghost use Rattle.std.specs.Prelude.{◌≡◌};

    // A plan of no policy.
    pub fn new() -> Self
        ensures { (result.some ≡ 0) × (result.all ≡ 0) }
    {
        Plan {
            words: [0; 1024],
            heads: [0; 128],
            counts: [0; 16],
            some: 0,
            all: 0,
        }
    }
}
