// Atoms, clauses and bits of a sheet, packed again (01, "The packed sheet"). A writer has the output and the number of bits written so far; each
// function here writes one thing more behind them. Nothing past the end of the output is ever written: where
// there is no room a field is left out, and the promises then promise nothing (specs/Wrote.antt). Stands on bits (a field put behind the
// bits before it), meaning, and steps (lists by value, kinds by number).
#![tactic(auto)]

ghost use Rattle.std.specs.Prelude.{◌≡◌, ℕ, ◌-◌, ◌^◌, ◌≤◌, ◌<◌, List, ◌++◌, length, map};
ghost use Rattle.lists.specs.Lists.{each};
ghost use Rattle.bits.specs.Bits.{number, bits};
ghost use Rattle.meaning.specs.Values.{Kind, kind_number};
ghost use Rattle.meaning.specs.Packed.{kind_bits, value_bits, operand_bits, atom_bits, clause_bits};
ghost use Rattle.meaning.specs.Views.{atom_of, clause_of};
ghost use Rattle.steps.specs.Lists.{kind_from, kind_by, list_bits};
ghost use Rattle.packing.specs.Wrote.{Wrote, InFive, AllInFive};

use meaning::{Atom, Clause};

// More bits than any sheet has.
const MANY: usize = 1048576;

// An output, and the number of bits written into it.
#[derive(Drop)]
pub struct Writer<'a> {
    pub out: &'a mut [u8],
    pub bits: usize,
}

impl<'a> Writer<'a> {
    // Nothing is written at first.
    pub fn new(out: &'a mut [u8]) -> Writer<'a>
        ensures same { result.out.ghost_name ≡ out.entry.ghost_name }
        ensures found { result.out.now ≡ out.old }
        ensures none { result.bits ≡ 0 }
    {
        Writer { out, bits: 0 }
    }

    // How many bits are written.
    pub fn bits(&self) -> usize
        ensures { result ≡ self.now.bits }
    {
        self.bits
    }

    // One field more.
    pub fn write(&mut self, width: usize, value: u64)
        requires { width ≤ 64 }
        ensures same { self.new.out.ghost_name ≡ self.old.out.ghost_name }
        ensures wrote { (o bs : List ℕ) → Wrote o bs self.old.out.now self.old.bits → value < 2 ^ width → Wrote o (bs ++ bits width value) self.new.out.now self.new.bits }
    {
        if self.bits <= MANY {
            bits::put_field(self.out, self.bits, width, value);
            self.bits += width;
        }
    }

    // A value of a kind.
    pub fn write_value(&mut self, kind: u8, n: u64)
        ensures same { self.new.out.ghost_name ≡ self.old.out.ghost_name }
        ensures wrote { (o bs : List ℕ) → Wrote o bs self.old.out.now self.old.bits → Wrote o (bs ++ value_bits (kind_from kind) n) self.new.out.now self.new.bits }
    {
        self.write(64, steps::raw_of(kind, n));
    }

    // Values one after another.
    fn write_values(&mut self, kind: u8, values: &[u64])
        ensures same { self.new.out.ghost_name ≡ self.old.out.ghost_name }
        ensures wrote { (o bs : List ℕ) → Wrote o bs self.old.out.now self.old.bits → Wrote o (bs ++ each (value_bits (kind_from kind)) values.now) self.new.out.now self.new.bits }
    {
        for x in values {
            self.write_value(kind, *x);
        }
    }

    // "count of 4 bits, 1..8, then values"
    fn write_list(&mut self, kind: u8, values: &[u64])
        requires { length values.now ≤ 8 }
        ensures same { self.new.out.ghost_name ≡ self.old.out.ghost_name }
        ensures wrote { (o bs : List ℕ) → Wrote o bs self.old.out.now self.old.bits → Wrote o (bs ++ list_bits (kind_from kind) values.now) self.new.out.now self.new.bits }
    {
        self.write(4, values.len() as u64);
        self.write_values(kind, values);
    }

    // What follows an operator on a variable of this kind.
    fn write_operand(&mut self, a: &Atom, kind: u8)
        ensures same { self.new.out.ghost_name ≡ self.old.out.ghost_name }
        ensures wrote { (o bs : List ℕ) → Wrote o bs self.old.out.now self.old.bits → InFive (atom_of a.now) →
            Wrote o (bs ++ operand_bits (kind_from kind) (atom_of a.now).operator) self.new.out.now self.new.bits }
    {
        match a.operator {
            0 => self.write(5, a.other),
            1 | 2 => self.write_list(kind, steps::list_of(a)),
            3..=6 => self.write_value(kind, a.values[0]),
            _ => {}
        }
    }

    // "each atom: variable, operator"
    pub fn write_atom(&mut self, a: &Atom, kinds: [u8; 24])
        ensures same { self.new.out.ghost_name ≡ self.old.out.ghost_name }
        ensures wrote { (o bs : List ℕ) → Wrote o bs self.old.out.now self.old.bits → InFive (atom_of a.now) →
            Wrote o (bs ++ atom_bits (kind_by kinds) (atom_of a.now)) self.new.out.now self.new.bits }
    {
        let kind = steps::kind_at(kinds, a.variable);
        self.write(5, a.variable);
        self.write(4, a.operator.min(8));
        self.write_operand(a, kind);
    }

    // Atoms one after another.
    fn write_atoms(&mut self, atoms: &[Atom], kinds: [u8; 24])
        ensures same { self.new.out.ghost_name ≡ self.old.out.ghost_name }
        ensures wrote { (o bs : List ℕ) → Wrote o bs self.old.out.now self.old.bits → AllInFive (map atom_of atoms.now) →
            Wrote o (bs ++ each (atom_bits (kind_by kinds)) (map atom_of atoms.now)) self.new.out.now self.new.bits }
    {
        for a in atoms {
            self.write_atom(a, kinds);
        }
    }

    // "per clause its atom count"
    pub fn write_clause(&mut self, c: &Clause, kinds: [u8; 24])
        ensures same { self.new.out.ghost_name ≡ self.old.out.ghost_name }
        ensures wrote { (o bs : List ℕ) → Wrote o bs self.old.out.now self.old.bits → AllInFive (clause_of c.now) →
            Wrote o (bs ++ clause_bits (kind_by kinds) (clause_of c.now)) self.new.out.now self.new.bits }
    {
        let atoms = steps::atoms_of(c);
        self.write(4, atoms.len() as u64);
        self.write_atoms(atoms, kinds);
    }

    // "kind of each column, then of each key": the kinds by their numbers.
    pub fn write_kinds(&mut self, kinds: &[u8])
        ensures same { self.new.out.ghost_name ≡ self.old.out.ghost_name }
        ensures wrote { (o bs : List ℕ) (ks : List Kind) → Wrote o bs self.old.out.now self.old.bits → kinds.now ≡ map kind_number ks →
            Wrote o (bs ++ each kind_bits ks) self.new.out.now self.new.bits }
    {
        for k in kinds {
            self.write(2, u64::from(*k));
        }
    }

    // The bits that stand in s from bit number `from` to bit number `to`.
    pub fn copy(&mut self, s: &[u8], from: usize, to: usize)
        ensures same { self.new.out.ghost_name ≡ self.old.out.ghost_name }
        ensures wrote { (o bs : List ℕ) → Wrote o bs self.old.out.now self.old.bits → Wrote o (bs ++ bits (to - from) (number s.now from (to - from))) self.new.out.now self.new.bits }
    {
        let mut at = from;
        // No `for`: a turn goes on by what is left, 64 bits at most.
        while at < to {
            let w = (to - at).min(64);
            self.write(w, bits::peek(s, at, w));
            at += w;
        }
    }
}
