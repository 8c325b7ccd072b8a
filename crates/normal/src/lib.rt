// The normal form, written as a sheet (01, "Normal form"). A packed sheet and an output come in; out goes the packed normal form and its
// length, or the refusal: 1 to 11 of the sheet, 14 where the output is shorter than the sheet. "Table facts, policy order, types, commands
// and selectors stay. A policy left with no clause stays." On a refusal no output byte changes; output beyond the length is as found. The
// form is never longer than its sheet (proved), so that 16 is never the answer, and what is written always has room. Stands on sheet (an
// accepted sheet), asked (step 1), steps and pruned (the other steps), and packing (fields behind one another).
#![tactic(auto)]

ghost use Rattle.std.specs.Prelude.{◌≡◌, ℕ, ◌≤◌, ◌<◌, List, [], ◌++◌, length};
ghost use Rattle.lists.specs.Lists.{All, each};
ghost use Rattle.bits.specs.Bits.{bits};
ghost use Rattle.meaning.specs.Sheets.{Selector, policy_at};
ghost use Rattle.meaning.specs.Packed.{packed, table_bits, clause_bits, count_bits, fact_bits};
ghost use Rattle.meaning.specs.Reading.{found, selector};
ghost use Rattle.meaning.specs.Allowed.{facts_of, TableAllowed};
ghost use Rattle.meaning.specs.Replies.{NormalFormReply};
ghost use Rattle.sheet.specs.Directory.{table_of};
ghost use Rattle.asked.specs.Asked.{Ranges};
ghost use Rattle.steps.specs.Lists.{elements, kind_by};
ghost use Rattle.pruned.specs.Pruned.{clauses_of, chosen, Tidied};
ghost use Rattle.packing.specs.Wrote.{Wrote, AllInFive};
ghost use Rattle.normal.specs.Written.{PolicyWritten, PoliciesWritten};

use bits::Place;
use meaning::Clause;
use packing::Writer;
use refusals::Refusal;
use sheet::selectors::selector_at;
use sheet::{Accepted, Table};
use steps::Few;

// "each table: schema, tags, columns held"
fn write_table(w: &mut Writer, t: Table)
    ensures same { w.new.out.ghost_name ≡ w.old.out.ghost_name }
    ensures wrote { (o bs : List ℕ) (c : ℕ) → Wrote o bs w.old.out.now w.old.bits → TableAllowed c (table_of t) → Wrote o (bs ++ table_bits (table_of t)) w.new.out.now w.new.bits }
{
    w.write(6, u64::from(t.schema));
    w.write(8, u64::from(t.tags));
    w.write(16, u64::from(t.columns));
}

// The tables, in their order.
fn write_tables(w: &mut Writer, sheet: &Accepted)
    ensures same { w.new.out.ghost_name ≡ w.old.out.ghost_name }
    ensures wrote { (o bs : List ℕ) → Wrote o bs w.old.out.now w.old.bits → Wrote o (bs ++ each table_bits sheet.now.tables) w.new.out.now w.new.bits }
{
    for i in 0..sheet.tables() {
        write_table(w, sheet.table(i));
    }
}

// "edition", "columns C, keys K, tables T, policies P"
fn write_counts(w: &mut Writer, sheet: &Accepted)
    ensures same { w.new.out.ghost_name ≡ w.old.out.ghost_name }
    ensures wrote { (o : List ℕ) → Wrote o [] w.old.out.now w.old.bits → Wrote o (count_bits sheet.now) w.new.out.now w.new.bits }
{
    w.write(4, 1);
    w.write(5, sheet.columns() as u64);
    w.write(4, sheet.keys() as u64);
    w.write(5, sheet.tables() as u64);
    w.write(5, sheet.policies() as u64);
}

// Everything before the policies.
fn write_facts(w: &mut Writer, sheet: &Accepted)
    ensures same { w.new.out.ghost_name ≡ w.old.out.ghost_name }
    ensures wrote { (o : List ℕ) → Wrote o [] w.old.out.now w.old.bits → Wrote o (count_bits sheet.now ++ fact_bits sheet.now) w.new.out.now w.new.bits }
{
    let kinds = sheet.kinds();
    write_counts(w, sheet);
    w.write_kinds(&kinds[..sheet.columns()]);
    w.write_kinds(&kinds[16..16 + sheet.keys()]);
    write_tables(w, sheet);
}

// The bit number after the selector at bit number p.
fn selector_end(sheet: &Accepted, p: usize) -> usize
    ensures { (x : Selector) (q : ℕ) → selector 6 (facts_of sheet.now) (packed sheet.now) p ≡ found x q → result ≡ q }
{
    let f = sheet.facts();
    let table = Table {
        schema: 0,
        tags: 0,
        columns: 0,
    };
    let at = Place {
        byte: p / 8,
        bit: p % 8,
    };
    match selector_at(sheet.bytes(), at, 6, f.columns, f.tables, 0, table) {
        Ok((_, Place { byte, bit })) => byte.saturating_mul(8).saturating_add(bit),
        Err(_) => p,
    }
}

// Steps 1 to 5 of a policy's clauses. They are gathered here, in place: a call that took and gave them would copy them all.
fn gather(sheet: &Accepted, k: usize, top: [u64; 32]) -> Few<Clause>
    ensures few { length (elements result) ≤ 8 }
    ensures tidied { Ranges sheet.now top → Tidied sheet.now (policy_at sheet.now k).clauses (clauses_of (elements result)) }
{
    let kinds = sheet.kinds();
    let mut cs = Few::none(steps::empty());
    for i in 0..sheet.clause_count(k) {
        let c = sheet.clause(k, i);
        // "Drop each clause that no row and session meets."
        if asked::satisfiable(c, top) {
            cs.push(pruned::normal_clause(c, kinds, top));
        }
    }
    cs
}

// "clause count; per clause its atom count": the clauses chosen, in their order.
fn write_chosen(w: &mut Writer, cs: &[Clause], order: &[u64], kinds: [u8; 24])
    requires { length order.now ≤ 8 }
    ensures same { w.new.out.ghost_name ≡ w.old.out.ghost_name }
    ensures wrote { (o bs : List ℕ) → Wrote o bs w.old.out.now w.old.bits → All AllInFive (chosen cs.now order.now) →
        Wrote o (bs ++ (bits 4 (length (chosen cs.now order.now)) ++ each (clause_bits (kind_by kinds)) (chosen cs.now order.now))) w.new.out.now w.new.bits }
{
    w.write(4, order.len() as u64);
    for k in order {
        let c = pruned::clause_number(cs, *k);
        w.write_clause(&c, kinds);
    }
}

// "each policy: type, commands", its selector as it stands, and the normal form of its clauses. A policy left with no clause is written too.
fn write_policy(w: &mut Writer, sheet: &Accepted, k: usize, top: [u64; 32])
    ensures same { w.new.out.ghost_name ≡ w.old.out.ghost_name }
    ensures wrote { (o bs : List ℕ) → k < length sheet.now.policies → Ranges sheet.now top → Wrote o bs w.old.out.now w.old.bits →
        PolicyWritten sheet.now (policy_at sheet.now k) o bs w.new.out.now w.new.bits }
{
    // "0 permissive, 1 restrictive"
    w.write(1, u64::from(sheet.is_restrictive(k)));
    w.write(4, sheet.commands(k));
    let from = sheet.selector_start(k);
    w.copy(sheet.bytes(), from, selector_end(sheet, from));
    let cs = gather(sheet, k, top);
    let kinds = sheet.kinds();
    let left = cs.as_slice();
    let order = pruned::choose(left, kinds, top);
    write_chosen(w, left, order.as_slice(), kinds);
}

// The policies, in their order.
fn write_policies(w: &mut Writer, sheet: &Accepted)
    ensures same { w.new.out.ghost_name ≡ w.old.out.ghost_name }
    ensures wrote { (o bs : List ℕ) → Wrote o bs w.old.out.now w.old.bits → PoliciesWritten sheet.now (length sheet.now.policies) o bs w.new.out.now w.new.bits }
{
    let top = asked::tops(sheet.kinds());
    for i in 0..sheet.policies() {
        write_policy(w, sheet, i, top);
    }
}

// The normal form of a packed sheet, packed into `out`.
pub fn normal_form(sheet: &[u8], out: &mut [u8]) -> Result<usize, Refusal>
    ensures { NormalFormReply sheet.now out.old result out.new }
{
    let mut book = [0u32; 240];
    let a = Accepted::open(sheet, &mut book)?;
    if out.len() < sheet.len() {
        return Err(Refusal::NoRoom);
    }
    let mut w = Writer::new(out);
    write_facts(&mut w, &a);
    write_policies(&mut w, &a);
    Ok(w.bits().div_ceil(8))
}
