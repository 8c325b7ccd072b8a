// An accepted sheet, as it stands packed: its bytes, and what reading found out about them. A contract sees the sheet itself.
ghost use Rattle.std.specs.Prelude.{◌≡◌, ℕ, ◌<◌, ◌≤◌, [], length, get_or, IfOk, IfErr};
ghost use Rattle.meaning.specs.Sheets as sheets;
ghost use Rattle.meaning.specs.Sheets.{table_at, policy_at};
ghost use Rattle.meaning.specs.Packed.{packed};
ghost use Rattle.meaning.specs.Reading.{found, refused, read_sheet, selector, clause};
ghost use Rattle.meaning.specs.Allowed.{facts_of, SheetAllowed};
ghost use Rattle.meaning.specs.Views.{clause_of, KindsAre};
ghost use Rattle.meaning.specs.Demands as demands;
ghost use Rattle.refusals.specs.Refusals.{number};
ghost use Rattle.clauses.specs.Facts.{FactsAre};
ghost use Rattle.sheet.specs.Directory.{table_of};

use crate::whole::read_sheet;
use crate::{Directory, Table, entries};
use clauses::Facts;
use meaning::Clause;
use refusals::Refusal;
use std::marker::Model;

// `open` alone makes one.
#[derive(Drop)]
pub struct Accepted<'a> {
    bytes: &'a [u8],
    book: &'a [u32],
    directory: Directory,
}

impl<'a> Model for Accepted<'a> {
    ghost use Rattle.meaning.specs.Sheets.{Sheet};
    ghost use Rattle.sheet.specs.Codes.{sheet_code};

    ghost Value = { Sheet };

    ghost coded = { sheet_code };

    ghost use Rattle.sheet.specs.Accepted.{the_sheet, IsAccepted};

    ghost view = { the_sheet };

    ghost invariant = { IsAccepted };
}

impl<'a> Accepted<'a> {
    // Reads a sheet; else its refusal. What is found out about it stands in the lent book.
    pub fn open(s: &'a [u8], book: &'a mut [u32; 240]) -> Result<Accepted<'a>, Refusal>
        ensures accepted { IfOk result (λ sheet. demands.Accepted s.now sheet × (packed sheet ≡ s.now)) }
        ensures refused { IfErr result (λ e. read_sheet s.now ≡ refused (number e)) }
    {
        let directory = read_sheet(s, book)?;
        Ok(Accepted {
            bytes: s,
            book,
            directory,
        })
    }

    // The bytes that it stands in.
    pub fn bytes(&self) -> &'a [u8]
        ensures packed { result.now ≡ packed self.now }
        ensures allowed { SheetAllowed self.now }
    {
        self.bytes
    }

    // Its counts and kinds: what its clauses are read by.
    pub fn facts(&self) -> Facts
        ensures { FactsAre self.now result }
    {
        let Directory { facts, .. } = self.directory;
        facts
    }

    // The kinds of its variables, by number: columns from 0 on, keys from 16 on.
    pub fn kinds(&self) -> [u8; 24]
        ensures { KindsAre self.now result }
    {
        self.directory.facts.kinds
    }

    // How many columns there are.
    pub fn columns(&self) -> usize
        ensures number { result ≡ length self.now.columns }
        ensures few { result ≤ 16 }
    {
        self.directory.facts.columns as usize
    }

    // How many keys there are.
    pub fn keys(&self) -> usize
        ensures number { result ≡ length self.now.keys }
        ensures few { result ≤ 8 }
    {
        self.directory.facts.keys as usize
    }

    // How many tables there are.
    pub fn tables(&self) -> usize
        ensures number { result ≡ length self.now.tables }
        ensures few { result ≤ 16 }
        ensures allowed { SheetAllowed self.now }
    {
        self.directory.facts.tables as usize
    }

    // How many policies there are.
    pub fn policies(&self) -> usize
        ensures number { result ≡ length self.now.policies }
        ensures few { result ≤ 16 }
        ensures allowed { SheetAllowed self.now }
    {
        self.directory.policies as usize
    }

    // A table's facts.
    pub fn table(&self, t: usize) -> Table
        ensures { t < length self.now.tables → table_of result ≡ table_at self.now t }
    {
        entries::table_of(self.book, t)
    }

    // Is policy p restrictive?
    pub fn is_restrictive(&self, p: usize) -> bool
        ensures { p < length self.now.policies → result ≡ (policy_at self.now p).restrictive }
    {
        entries::restrictive_of(self.book, p)
    }

    // The commands of policy p.
    pub fn commands(&self, p: usize) -> u64
        ensures { p < length self.now.policies → result ≡ (policy_at self.now p).commands }
    {
        entries::commands_of(self.book, p)
    }

    // Does policy p count for table t and a command?
    pub fn applies(&self, t: usize, command: u64, p: usize) -> bool
        ensures { t < length self.now.tables → p < length self.now.policies → result ≡ sheets.applies self.now t command (policy_at self.now p) }
    {
        entries::applies(self.bytes, self.directory, self.book, t, command, p)
    }

    // The bit number at which the selector of policy p begins.
    pub fn selector_start(&self, p: usize) -> usize
        ensures { p < length self.now.policies → (q : ℕ) × (selector 6 (facts_of self.now) (packed self.now) result ≡ found (policy_at self.now p).selector q) }
    {
        entries::selector_of(self.book, p)
    }

    // How many clauses policy p has; none past the last policy.
    pub fn clause_count(&self, p: usize) -> usize
        ensures number { result ≡ length (policy_at self.now p).clauses }
        ensures few { result ≤ 8 }
        ensures allowed { SheetAllowed self.now }
    {
        if p < self.policies() {
            entries::count_of(self.book, p)
        } else {
            0
        }
    }

    // The bit number at which clause k of policy p begins.
    pub fn clause_start(&self, p: usize, k: usize) -> usize
        ensures { k < length (policy_at self.now p).clauses → (q : ℕ) × (clause (facts_of self.now) (packed self.now) result ≡ found (get_or (policy_at self.now p).clauses k []) q) }
    {
        entries::start_of(self.book, p, k)
    }

    // Clause k of policy p.
    pub fn clause(&self, p: usize, k: usize) -> Clause
        ensures { k < length (policy_at self.now p).clauses → clause_of result ≡ get_or (policy_at self.now p).clauses k [] }
    {
        clauses::clause_at(self.bytes, self.clause_start(p, k), self.directory.facts)
    }
}
