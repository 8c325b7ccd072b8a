// The read-out, as document 01 lays it down: a sheet's bytes come in, and the text goes out into a lent buffer: the first line with T and P,
// then a line for each table and command with N, live or dead, isolated or the leak; or one line with the refusal. Stands on text, sheet and verdicts.
#![tactic(auto)]

ghost use Rattle.std.specs.Prelude.{◌≡◌, ◌+◌, ◌*◌, ◌≤◌, length, take};
ghost use Rattle.std.specs.Counts.{IsPrefixLen};
ghost use Rattle.meaning.specs.ReadOut.{Line, ReadOut, life_text, isolation_text};
ghost use Rattle.text.specs.Wrote.{HasRoom, Adds, Extends};
ghost use Rattle.report.specs.Lines.{Writes, IsRest, Asked, FirstLines};
ghost use Rattle.report.specs.Texts.{verdicts_text, letter_of, head_text, opening_text, refusal_text};

use meaning::{Isolation, Life};
use sheet::Accepted;
use text::Writer;

// "live or dead"
fn put_life(out: &mut Writer, life: Life)
    requires { HasRoom out.old 4 }
    ensures text { Adds out.old (life_text life) out.new }
    ensures short { out.new.at ≤ out.old.at + 4 }
{
    match life {
        Life::Live => out.word(b"live"),
        Life::Dead => out.word(b"dead"),
    }
}

// "leaks a b"
fn put_leak(out: &mut Writer, a: u32, b: u32)
    requires { HasRoom out.old 47 }
    ensures text { Adds out.old (isolation_text (Isolation.Leaks a b)) out.new }
    ensures short { out.new.at ≤ out.old.at + 47 }
{
    out.word(b"leaks ");
    out.decimal(u64::from(a));
    out.byte(b' ');
    out.decimal(u64::from(b));
}

// "isolated or `leaks a b`"
fn put_isolation(out: &mut Writer, isolation: Isolation)
    requires { HasRoom out.old 47 }
    ensures text { Adds out.old (isolation_text isolation) out.new }
    ensures short { out.new.at ≤ out.old.at + 47 }
{
    match isolation {
        Isolation::Isolated => out.word(b"isolated"),
        Isolation::Leaks(a, b) => put_leak(out, a, b),
    }
}

// "N, live or dead, isolated or `leaks a b`"
fn put_verdicts(out: &mut Writer, n: u64, life: Life, isolation: Isolation)
    requires { HasRoom out.old 73 }
    ensures text { Adds out.old (verdicts_text n life isolation) out.new }
    ensures short { out.new.at ≤ out.old.at + 73 }
{
    out.decimal(n);
    out.byte(b' ');
    put_life(out, life);
    out.byte(b' ');
    put_isolation(out, isolation);
}

// "each command in the order S, I, U, D"
#[tactic(auto, unfolding(crate::specs::Texts::letter_of))]
fn letter(command: u32) -> u8
    ensures { result ≡ letter_of command }
{
    b"SIUD".get(command as usize).copied().unwrap_or(0)
}

// "Fields: table, command letter": with the spaces behind them
fn put_head(out: &mut Writer, table: u32, command: u32)
    requires { HasRoom out.old 23 }
    ensures text { Adds out.old (head_text table command) out.new }
    ensures short { out.new.at ≤ out.old.at + 23 }
{
    out.decimal(u64::from(table));
    out.byte(b' ');
    out.byte(letter(command));
    out.byte(b' ');
}

// "The first line gives T and P."
fn put_opening(out: &mut Writer, tables: u64, policies: u64)
    requires { HasRoom out.old 58 }
    ensures text { Adds out.old (opening_text tables policies) out.new }
    ensures short { out.new.at ≤ out.old.at + 58 }
{
    out.word(b"tables ");
    out.decimal(tables);
    out.word(b" policies ");
    out.decimal(policies);
    out.byte(b'\n');
}

// "A refused sheet prints one line, `refused` and the number."
fn put_refusal(out: &mut Writer, n: u32)
    requires { HasRoom out.old 29 }
    ensures text { Adds out.old (refusal_text n) out.new }
    ensures short { out.new.at ≤ out.old.at + 29 }
{
    out.word(b"refused ");
    out.decimal(u64::from(n));
    out.byte(b'\n');
}

// What a line says of a table and a command: the verdicts, or that the question is refused.
fn put_answers(out: &mut Writer, sheet: &Accepted, table: u32, command: u32)
    requires { HasRoom out.old 73 }
    ensures text { Asked sheet.now table command (Writes (IsRest sheet.now table command) out.old out.new) }
    ensures short { Extends out.old 73 out.new }
{
    let Ok(n) = verdicts::branch_count(sheet, table, command) else {
        return;
    };
    if 256 < n {
        return out.word(b"refused 13");
    }
    let Ok(life) = verdicts::dead(sheet, table, command) else {
        return;
    };
    let Ok(isolation) = verdicts::isolated(sheet, table, command) else {
        return;
    };
    put_verdicts(out, n, life, isolation);
}

// A line.
fn put_line(out: &mut Writer, sheet: &Accepted, table: u32, command: u32)
    requires { HasRoom out.old 97 }
    ensures text { Asked sheet.now table command (Writes (Line sheet.now table command) out.old out.new) }
    ensures short { Extends out.old 97 out.new }
{
    put_head(out, table, command);
    put_answers(out, sheet, table, command);
    out.byte(b'\n');
}

// "A line follows for each table, ascending, and each command"
fn put_lines(out: &mut Writer, sheet: &Accepted)
    requires { HasRoom out.old 6208 }
    ensures text { Writes (FirstLines sheet.now (length sheet.now.tables * 4)) out.old out.new }
    ensures short { Extends out.old 6208 out.new }
{
    for n in 0..sheet.tables() as u32 * 4 {
        put_line(out, sheet, n / 4, n % 4);
    }
}

// The read-out of a sheet, behind what is written.
fn put_read_out(out: &mut Writer, sheet: &[u8])
    requires { HasRoom out.old 8192 }
    ensures text { Writes (ReadOut sheet.now) out.old out.new }
    ensures short { out.new.at ≤ out.old.at + 8192 }
{
    let mut book = [0u32; 240];
    match Accepted::open(sheet, &mut book) {
        Ok(sheet) => {
            put_opening(out, sheet.tables() as u64, sheet.policies() as u64);
            put_lines(out, &sheet);
        }
        Err(e) => put_refusal(out, e.number()),
    }
}

// The read-out of a sheet, at the start of a buffer; the answer is its length.
pub fn read_out(sheet: &[u8], out: &mut [u8]) -> usize
    requires { 8192 ≤ length out.old }
    ensures text { ReadOut sheet.now (take result out.new) }
    ensures counts { IsPrefixLen result out.new }
{
    let mut writer = Writer::new(out);
    put_read_out(&mut writer, sheet);
    writer.at
}
