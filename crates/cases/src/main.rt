// Runs the cases of data/ (its README has the format) through the public calls, and prints how many of each file came out as document 01 has them.
#![tactic(auto)]

ghost use Rattle.std.specs.Prelude.{◌≡◌, ◌≤◌, length};

use fiddlecomet::{
    fiddlecomet_branches, fiddlecomet_covers, fiddlecomet_dead, fiddlecomet_isolated,
    fiddlecomet_listing, fiddlecomet_normal_form,
};
use input::read_full;
use script::{Lines, Words, first, hex, number};
use std::fs::File;
use std::io;
use std::rt::Files;

// What every byte of a lent output is before a call.
const FILL: u8 = 165;

// Room for the bytes that a word of a case spells, a little more than is accepted: of a sheet, and of an output or a row list.
const SHEET: usize = 16400;

const LIST: usize = 65600;

// The files' names.
const FILES: [&str; 9] = [
    "marked.txt",
    "refusals.txt",
    "order.txt",
    "truncated.txt",
    "limits.txt",
    "large.txt",
    "verdicts.txt",
    "normals.txt",
    "listings.txt",
];

// What is left of a case: its words. Where a line has too few, those of the next lines follow, and behind the text each word is empty.
#[derive(Drop)]
struct Case<'a> {
    words: Words<'a>,
}

impl<'a> Case<'a> {
    fn word(&mut self) -> &'a [u8] {
        self.words.next().unwrap_or(&[])
    }

    fn number(&mut self) -> u64 {
        number(self.word())
    }

    // A number of 32 bits: of a larger one, its last 32.
    fn small(&mut self) -> u32 {
        (self.number() % 4294967296) as u32
    }

    // The length of the output that is lent, of which there is so much.
    fn room(&mut self, most: usize) -> usize
        ensures { result ≤ most }
    {
        (self.number() as usize).min(most)
    }

    // The bytes of a word, which stand in the buffer.
    fn bytes<'b>(&mut self, buffer: &'b mut [u8]) -> &'b [u8] {
        let n = hex(self.word(), buffer);
        &buffer[..n]
    }

    // A sheet, whose bytes stand in the buffer, and two numbers.
    fn question<'b>(&mut self, buffer: &'b mut [u8]) -> (&'b [u8], u32, u32) {
        (self.bytes(buffer), self.small(), self.small())
    }

    // Do the words behind the arrow, itself a word, spell these numbers?
    fn expects(&mut self, numbers: &[u32]) -> bool {
        self.word();
        for n in numbers {
            if self.small() != *n {
                return false;
            }
        }
        true
    }

    // Does the output begin with the bytes of the next word, and hold FILL from there on?
    fn expects_output(&mut self, out: &[u8]) -> bool {
        let mut buffer = [0; LIST];
        let bytes = self.bytes(&mut buffer);
        out.starts_with(bytes) && out[bytes.len()..].iter().all(|b| *b == FILL)
    }

    // SHEET TABLE COMMAND > REFUSAL COUNT
    fn branches_agree(&mut self) -> bool {
        let mut buffer = [0; SHEET];
        let (sheet, table, command) = self.question(&mut buffer);
        let r = fiddlecomet_branches(sheet, table, command);
        self.expects(&[r.refusal]) && self.number() == r.count
    }

    // SHEET TABLE COMMAND > REFUSAL DEAD
    fn dead_agrees(&mut self) -> bool {
        let mut buffer = [0; SHEET];
        let (sheet, table, command) = self.question(&mut buffer);
        let r = fiddlecomet_dead(sheet, table, command);
        self.expects(&[r.refusal, r.dead])
    }

    // SHEET TABLE COMMAND > REFUSAL LEAKS A B
    fn isolated_agrees(&mut self) -> bool {
        let mut buffer = [0; SHEET];
        let (sheet, table, command) = self.question(&mut buffer);
        let r = fiddlecomet_isolated(sheet, table, command);
        self.expects(&[r.refusal, r.leaks, r.a, r.b])
    }

    // SHEET A B > REFUSAL COVERS
    fn covers_agree(&mut self) -> bool {
        let mut buffer = [0; SHEET];
        let (sheet, a, b) = self.question(&mut buffer);
        let r = fiddlecomet_covers(sheet, a, b);
        self.expects(&[r.refusal, r.covers])
    }

    // SHEET ROOM > REFUSAL LENGTH OUT
    fn normal_agrees(&mut self) -> bool {
        let mut buffer = [0; SHEET];
        let mut out = [FILL; LIST];
        let sheet = self.bytes(&mut buffer);
        let room = self.room(out.len());
        let r = fiddlecomet_normal_form(sheet, &mut out[..room]);
        self.expects(&[r.refusal, r.length]) && self.expects_output(&out)
    }

    // SHEET TABLE COMMAND SESSION ROWS ROOM > REFUSAL LENGTH ROWCOUNT OUT
    fn listing_agrees(&mut self) -> bool {
        let mut buffer = [0; SHEET];
        let mut session_buffer = [0; 256];
        let mut rows_buffer = [0; LIST];
        let mut out = [FILL; LIST];
        let (sheet, table, command) = self.question(&mut buffer);
        let session = self.bytes(&mut session_buffer);
        let rows = self.bytes(&mut rows_buffer);
        let room = self.room(out.len());
        let r = fiddlecomet_listing(sheet, table, command, session, rows, &mut out[..room]);
        self.expects(&[r.refusal, r.length, r.rows]) && self.expects_output(&out)
    }

    // Does the case come out as it says? Its first word's first letter tells the call.
    fn agrees(&mut self) -> bool {
        match first(self.word()) {
            b'b' => self.branches_agree(),
            b'c' => self.covers_agree(),
            b'd' => self.dead_agrees(),
            b'i' => self.isolated_agrees(),
            b'l' => self.listing_agrees(),
            b'n' => self.normal_agrees(),
            _ => false,
        }
    }
}

// Is this line a case of a public call? (A line that starts with '#' is none, and the read-out's are run by its own program.)
fn is_case(line: &[u8]) -> bool {
    !matches!(first(line), b'#' | b'r')
}

// Runs each case of a file, and prints where one fails.
fn run_cases(rt: &impl Print, name: &str, text: &[u8]) -> io::Result<()> {
    let mut passed: u64 = 0;
    let mut failed: u64 = 0;
    let mut at: usize = 0;
    for (i, line) in Lines::new(text).enumerate() {
        let words = Words::new(text.get(at..).unwrap_or(&[]));
        at = at.saturating_add(line.len());
        if !is_case(line) {
            continue;
        }
        let mut case = Case { words };
        if case.agrees() {
            passed += 1;
        } else {
            failed += 1;
            println!(rt; "{name}: not as line {}", i + 1)?;
        }
    }
    println!(rt; "{name}: passed {passed}")?;
    println!(rt; "{name}: failed {failed}")
}

// Room for the longest file. (A function of its own, since the check writes out a repeat where it stands among other goals, and runs out of stack.)
fn space() -> [u8; 720000]
    ensures { 720000 ≡ length result }
{
    [0; 720000]
}

// Runs the cases of the file of this name.
fn run_file(rt: &(impl Files + Print + Eprint), name: &str) -> io::Result<()> {
    match File::open(rt, name) {
        Ok(mut file) => {
            let mut text = space();
            let n = read_full(&mut file, &mut text)?;
            run_cases(rt, name, &text[..n])
        }
        Err(e) => eprintln!(rt; "{name}: {e}"),
    }
}

fn main(rt: HostRuntime) -> io::Result<()> {
    for name in FILES {
        run_file(&rt, name)?;
    }
    Ok(())
}
