// The rows that a session may see. A sheet, a table and a command number, a session, a row list and a lent buffer come in; out go the admitted
// rows' bytes, one after another, in the list's order, with their length and count, or a refusal, the buffer then untouched. Makes
// true: "Listing hands out the admitted rows, in order, and no others". The list is judged whole before the first byte is written; then each
// row is read once, against a plan that is laid once for the policies that count. Stands on rows, admission and sheet.
#![tactic(auto)]

ghost use Rattle.std.specs.Prelude.{◌≡◌, ◌+◌, ◌-◌, ◌≤◌, ◌<◌, length, drop};
ghost use Rattle.std.proofs.Math.Seq.{paste};
ghost use Rattle.meaning.specs.Packed.{packed};
ghost use Rattle.meaning.specs.Replies.{ListingReply};
ghost use Rattle.rows.specs.Held.{held};
ghost use Rattle.listing.specs.Ready.{asked_of, Lists, WritesAdmitted};

pub use admission::Plan;
use meaning::Listed;
use plans::lay_policies;
use refusals::Refusal;
use rows::{Form, Held, are_rows, row_at, session_at};
use sheet::Accepted;

pub mod plans;

// Copies bytes a to e of the rows to the output at `at`. (A slice's own copy would want `memmove` of the host, which the archive did not need.)
fn copy(rows: &[u8], a: usize, e: usize, out: &mut [u8], at: usize)
    requires { (a ≤ e) × (e ≤ length rows.now) × (at + (e - a) ≤ length out.old) }
    ensures { out.new ≡ paste out.old at (drop a rows.now) (e - a) }
{
    for i in 0..e - a {
        out[at + i] = rows[a + i];
    }
}

// Lists the admitted rows of a list that is of the form.
fn list(
    a: &Accepted,
    plan: &Plan,
    rows: &[u8],
    form: &Form,
    vars: &mut Held,
    out: &mut [u8],
) -> Listed
    requires { (length rows.now ≤ 65536) × (length rows.now ≤ length out.old) }
    ensures { WritesAdmitted plan.now form.now a.now (held vars.old) rows.now out.old result out.new }
{
    let s = a.bytes();
    let mut p = 0;
    let mut at = 0;
    let mut count = 0;
    // no `for`: a row begins where the one before it ends
    while p / 8 < rows.len() {
        let q = row_at(rows, p, form, vars);
        if q <= p {
            break;
        }
        if plan.is_admitted(s, &form.kinds, vars) {
            copy(rows, p / 8, q / 8, out, at);
            at += q / 8 - p / 8;
            count += 1;
        }
        p = q;
    }
    Listed { length: at, count }
}

// Lists for a table and a command that are there, into a buffer that is long enough: 15, or the admitted rows.
fn list_for(
    a: &Accepted,
    t: usize,
    command: u64,
    session: &[u8],
    rows: &[u8],
    out: &mut [u8],
) -> Result<Listed, Refusal>
    requires { (t < length a.now.tables) × (length rows.now ≤ length out.old) }
    ensures { Lists (asked_of a.now t command session.now rows.now) out.old result out.new }
{
    let kinds = a.kinds();
    let keys = Form {
        there: 65535,
        first: 16,
        n: a.keys(),
        kinds,
    };
    let columns = Form {
        there: u64::from(a.table(t).columns),
        first: 0,
        n: a.columns(),
        kinds,
    };
    let mut vars = Held::new();
    if !session_at(session, &keys, &mut vars) || !are_rows(rows, &columns) {
        return Err(Refusal::WrongRows);
    }
    let mut plan = Plan::new();
    lay_policies(a, t, command, &mut plan);
    Ok(list(a, &plan, rows, &columns, &mut vars, out))
}

// Lists of an accepted sheet: 12 and 14, then as above.
fn listed(
    a: &Accepted,
    table: u32,
    command: u32,
    session: &[u8],
    rows: &[u8],
    out: &mut [u8],
) -> Result<Listed, Refusal>
    ensures { ListingReply (packed a.now) table command session.now rows.now out.old result out.new }
{
    if a.tables() <= table as usize || 3 < command {
        return Err(Refusal::NotAsked);
    }
    if out.len() < rows.len() {
        return Err(Refusal::NoRoom);
    }
    list_for(a, table as usize, u64::from(command), session, rows, out)
}

// Lists the rows that a session may see. Refuses as 01, "Refusal numbers", has it, output then untouched.
pub fn listing(
    sheet: &[u8],
    table: u32,
    command: u32,
    session: &[u8],
    rows: &[u8],
    out: &mut [u8],
) -> Result<Listed, Refusal>
    ensures { ListingReply sheet.now table command session.now rows.now out.old result out.new }
{
    let mut book = [0u32; 240];
    let a = Accepted::open(sheet, &mut book)?;
    listed(&a, table, command, session, rows, out)
}
