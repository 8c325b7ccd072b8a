// The variables that contents stand for: n of them from number `first` on, those that `there` names, with the kinds of all.
ghost use Rattle.std.specs.Prelude.{◌+◌, ◌≤◌};

#[derive(Clone, Copy)]
pub struct Form {
    pub there: u64,
    pub first: usize,
    pub n: usize,
    pub kinds: [u8; 24],
    pub ghost fits: { (n ≤ 16) × (first + n ≤ 24) },
}

impl Form {
    ghost use Rattle.std.specs.Prelude.{◌≡◌, ◌<◌};
    ghost use Rattle.meaning.specs.Sheets.{member};

    // Is the variable number c of the n there?
    pub fn is_there(&self, c: usize) -> bool
        requires { c < 16 }
        ensures { result ≡ member 16 self.now.there c }
    {
        (self.there >> (15 - c)) % 2 == 1
    }
}
