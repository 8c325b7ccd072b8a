// The words of a case file (crates/cases/data/README.md): words parted by one space, lines ended by a newline, bytes in hex, numbers in decimal. A
// text gives its lines, a line its words, and a word its number or bytes. Total: a text that is not of this form gives some words too.
#![tactic(auto)]

ghost use Rattle.std.specs.Prelude.{◌≡◌, ◌+◌, ◌<◌, length, get_or, take, drop, position};
ghost use Rattle.std.specs.Counts.{IsPrefixLen};
ghost use Rattle.std.specs.Iterator.{at_most};
ghost use Rattle.script.specs.Words.{ends_word, ends_line, word_length, line_length, Cuts};
ghost use Rattle.script.specs.Spelt.{decimal_digit, hex_digit, decimal_of, hex_bytes, Filled};

// The place of the first byte that ends a word.
fn word_end(text: &[u8]) -> Option<usize>
    ensures { result ≡ position ends_word text.now }
{
    text.iter().position(|b| *b == b' ' || *b == b'\n')
}

// The place of the first byte that ends a line.
fn line_end(text: &[u8]) -> Option<usize>
    ensures { result ≡ position ends_line text.now }
{
    text.iter().position(|b| *b == b'\n')
}

// The word at the start of a text, and what stands behind it and the byte that parts it from the next.
#[tactic(auto, using(crate::proofs::WordLaws::found, crate::proofs::WordLaws::found_none, std::proofs::lemmas::Grind::common_steps))]
pub fn split_word(text: &[u8]) -> (&[u8], &[u8])
    ensures word { result.0.now ≡ take (word_length text.now) text.now }
    ensures rest { result.1.now ≡ drop (word_length text.now + 1) text.now }
{
    match word_end(text) {
        Some(n) => (&text[..n], &text[n + 1..]),
        None => (text, &[]),
    }
}

// The line at the start of a text, its newline too, and what stands behind it.
#[tactic(auto, using(crate::proofs::WordLaws::found, crate::proofs::WordLaws::found_none, std::proofs::lemmas::Grind::common_steps))]
pub fn split_line(text: &[u8]) -> (&[u8], &[u8])
    ensures line { result.0.now ≡ take (line_length text.now) text.now }
    ensures rest { result.1.now ≡ drop (line_length text.now) text.now }
{
    match line_end(text) {
        Some(n) => text.split_at(n + 1),
        None => (text, &[]),
    }
}

// The words of a line.
#[derive(Drop)]
pub struct Words<'a> {
    rest: &'a [u8],
}

impl<'a> Words<'a> {
    pub fn new(line: &'a [u8]) -> Self
        ensures { result.rest.now ≡ line.now }
    {
        Words { rest: line }
    }
}

impl<'a> Iterator for Words<'a> {
    type Item = &'a [u8];

    ghost next_gives = { λ s r t. Cuts word_length 1 s.rest.now r t.rest.now };

    ghost remaining = { λ s. at_most (length s.rest.now) };

    fn next(&mut self) -> Option<&'a [u8]> {
        if self.rest.is_empty() {
            return None;
        }
        let (word, rest) = split_word(self.rest);
        self.rest = rest;
        Some(word)
    }
}

// The lines of a text. (A twin of `Words`: one type for both would take a trait for how a part is cut and a type for each cut, which is no plainer.)
#[derive(Drop)]
pub struct Lines<'a> {
    rest: &'a [u8],
}

impl<'a> Lines<'a> {
    pub fn new(text: &'a [u8]) -> Self
        ensures { result.rest.now ≡ text.now }
    {
        Lines { rest: text }
    }
}

impl<'a> Iterator for Lines<'a> {
    type Item = &'a [u8];

    ghost next_gives = { λ s r t. Cuts line_length 0 s.rest.now r t.rest.now };

    ghost remaining = { λ s. at_most (length s.rest.now) };

    #[tactic(auto, using(crate::proofs::WordLaws::line_takes))]
    fn next(&mut self) -> Option<&'a [u8]> {
        if self.rest.is_empty() {
            return None;
        }
        let (line, rest) = split_line(self.rest);
        self.rest = rest;
        Some(line)
    }
}

// The byte where a text starts, or 0 behind it.
pub fn first(text: &[u8]) -> u8
    ensures { result ≡ get_or text.now 0 0 }
{
    text.first().copied().unwrap_or(0)
}

// The value of a decimal digit; any other byte counts as 0.
fn digit(b: u8) -> u8
    ensures { (result ≡ decimal_digit b) × (result < 10) }
{
    match b {
        b'0'..=b'9' => b - b'0',
        _ => 0,
    }
}

// The number that a word's digits spell; of more than seventeen, the last seventeen count.
#[tactic(auto, using(crate::proofs::SpeltLaws::number_ends, crate::proofs::SpeltLaws::number_adds))]
pub fn number(word: &[u8]) -> u64
    ensures { result ≡ decimal_of word.now }
{
    let mut n: u64 = 0;
    for b in word {
        n = n % 10_000_000_000_000_000 * 10 + u64::from(digit(*b));
    }
    n
}

// The value of a hex digit; any other byte counts as 0.
fn hex_digit(b: u8) -> u8
    ensures { (result ≡ hex_digit b) × (result < 16) }
{
    match b {
        b'a'..=b'f' => b - b'a' + 10,
        _ => digit(b),
    }
}

// The bytes that a word spells in hex, put at the start of `out` as far as there is room: how many there are. ("-" is none.)
#[tactic(auto, using(crate::proofs::SpeltLaws::hex_length, crate::proofs::SpeltLaws::hex_adds))]
pub fn hex(word: &[u8], out: &mut [u8]) -> usize
    ensures counts { IsPrefixLen result out.new }
    ensures bytes { Filled (hex_bytes word.now) out.old result out.new }
{
    let n = out.len().min(word.len() / 2);
    for i in 0..n {
        out[i] = hex_digit(word[2 * i]) * 16 + hex_digit(word[2 * i + 1]);
    }
    n
}
