// A text, written byte by byte into a lent buffer. Decimal numbers are those of document 01's read-out ("all numbers are decimal"). Stands on meaning.
#![tactic(auto)]

ghost use Rattle.std.specs.Prelude.{◌≡◌, [], ◌∷◌, ◌+◌, ◌≤◌, length};
ghost use Rattle.meaning.specs.ReadOut.{decimal_in, decimal};
ghost use Rattle.text.specs.Wrote.{HasRoom, Adds};

// A lent buffer, and how many of its bytes are written. (Not a `fmt::Write`: of `write!` no clause says that it is Ok where there is room, and
// `read_out` of `report` promises the whole text.)
#[derive(Drop)]
pub struct Writer<'a> {
    out: &'a mut [u8],
    pub at: usize,
}

impl<'a> Writer<'a> {
    // At the start of the buffer.
    pub fn new(out: &'a mut [u8]) -> Self
        ensures start { result.at ≡ 0 }
        ensures buffer { result.out.now ≡ out.old }
        ensures same_reference { result.out.ghost_name ≡ out.entry.ghost_name }
    {
        Writer { out, at: 0 }
    }

    // One byte.
    pub fn byte(&mut self, b: u8)
        requires { HasRoom self.old 1 }
        ensures { Adds self.old (b ∷ []) self.new }
    {
        self.out[self.at] = b;
        self.at += 1;
    }

    // The bytes of a word.
    pub fn word(&mut self, word: &[u8])
        requires { HasRoom self.old (length word.now) }
        ensures { Adds self.old word.now self.new }
    {
        let end = self.at + word.len();
        self.out[self.at..end].copy_from_slice(word);
        self.at = end;
    }

    // A number in at most so many digits.
    #[tactic(auto, using(crate::proofs::WroteLaws::no_front, crate::proofs::WroteLaws::some_front, crate::proofs::WroteLaws::digit_fits))]
    fn digits(&mut self, n: u64, digits: usize)
        requires { HasRoom self.old digits }
        ensures { Adds self.old (decimal_in digits n) self.new }
    {
        if digits == 0 {
            return;
        }
        if n >= 10 {
            self.digits(n / 10, digits - 1);
        }
        self.byte(b'0' + (n % 10) as u8);
    }

    // A number, in decimal.
    pub fn decimal(&mut self, n: u64)
        requires { HasRoom self.old 20 }
        ensures text { Adds self.old (decimal n) self.new }
        ensures short { self.new.at ≤ self.old.at + 20 }
    {
        self.digits(n, 20);
    }
}
