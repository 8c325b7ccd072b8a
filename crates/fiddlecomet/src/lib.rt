// The library as a C host sees it: the public calls of include/fiddlecomet.h (crate fiddlecomet_c exports them), on numbers and byte slices.
// Each hands its inputs to the crate that answers, and the answer's numbers to the host: "A refusal returns its number and zeros and changes no
// output byte." Every promise determines reply and output memory for every input, and asks nothing of the caller. proofs/Demands.antt says the
// customer's demands of it.
#![tactic(auto)]

ghost use Rattle.fiddlecomet.specs.Numbers.{ListingNumbers, NormalFormNumbers, DeadNumbers, IsolatedNumbers, CoversNumbers, BranchesNumbers};

use numbers::{
    CountNumbers, CoverNumbers, IsolationNumbers, LifeNumbers, ListedNumbers, WrittenNumbers,
};

pub mod numbers;

// Lists the rows that a session may see.
pub fn fiddlecomet_listing(
    sheet: &[u8],
    table: u32,
    command: u32,
    session: &[u8],
    rows: &[u8],
    out: &mut [u8],
) -> ListedNumbers
    ensures { ListingNumbers sheet.now table command session.now rows.now out.old result out.new }
{
    ListedNumbers::from(listing::listing(sheet, table, command, session, rows, out))
}

// Writes the sheet's normal form.
pub fn fiddlecomet_normal_form(sheet: &[u8], out: &mut [u8]) -> WrittenNumbers
    ensures { NormalFormNumbers sheet.now out.old result out.new }
{
    WrittenNumbers::from(normal::normal_form(sheet, out))
}

// Can nobody be handed any row of the table under the command?
pub fn fiddlecomet_dead(sheet: &[u8], table: u32, command: u32) -> LifeNumbers
    ensures { DeadNumbers sheet.now table command result }
{
    LifeNumbers::from(answers::dead(sheet, table, command))
}

// Can no row of the table be handed to sessions of two tenants under the command? Else the first two branches that leak.
pub fn fiddlecomet_isolated(sheet: &[u8], table: u32, command: u32) -> IsolationNumbers
    ensures { IsolatedNumbers sheet.now table command result }
{
    IsolationNumbers::from(answers::isolated(sheet, table, command))
}

// Does policy a cover policy b?
pub fn fiddlecomet_covers(sheet: &[u8], a: u32, b: u32) -> CoverNumbers
    ensures { CoversNumbers sheet.now a b result }
{
    CoverNumbers::from(answers::covers(sheet, a, b))
}

// N: how many branches the table has under the command.
pub fn fiddlecomet_branches(sheet: &[u8], table: u32, command: u32) -> CountNumbers
    ensures { BranchesNumbers sheet.now table command result }
{
    CountNumbers::from(answers::branches(sheet, table, command))
}
