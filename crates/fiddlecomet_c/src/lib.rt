// What a C host links: the calls of include/fiddlecomet.h, exported. Each is the library's call of the same name, and states its promise again.
#![tactic(auto)]

ghost use Rattle.fiddlecomet.specs.Numbers.{ListingNumbers, NormalFormNumbers, DeadNumbers, IsolatedNumbers, CoversNumbers, BranchesNumbers};

use fiddlecomet::numbers::{
    CountNumbers, CoverNumbers, IsolationNumbers, LifeNumbers, ListedNumbers, WrittenNumbers,
};

// Lists the rows that a session may see.
#[unsafe(no_mangle)]
pub extern "C" fn fiddlecomet_listing(
    sheet: &[u8],
    table: u32,
    command: u32,
    session: &[u8],
    rows: &[u8],
    out: &mut [u8],
) -> ListedNumbers
    ensures { ListingNumbers sheet.now table command session.now rows.now out.old result out.new }
{
    fiddlecomet::fiddlecomet_listing(sheet, table, command, session, rows, out)
}

// Writes the sheet's normal form.
#[unsafe(no_mangle)]
pub extern "C" fn fiddlecomet_normal_form(sheet: &[u8], out: &mut [u8]) -> WrittenNumbers
    ensures { NormalFormNumbers sheet.now out.old result out.new }
{
    fiddlecomet::fiddlecomet_normal_form(sheet, out)
}

// Can nobody be handed any row of the table under the command?
#[unsafe(no_mangle)]
pub extern "C" fn fiddlecomet_dead(sheet: &[u8], table: u32, command: u32) -> LifeNumbers
    ensures { DeadNumbers sheet.now table command result }
{
    fiddlecomet::fiddlecomet_dead(sheet, table, command)
}

// Can no row of the table be handed to sessions of two tenants under the command? Else the first two branches that leak.
#[unsafe(no_mangle)]
pub extern "C" fn fiddlecomet_isolated(sheet: &[u8], table: u32, command: u32) -> IsolationNumbers
    ensures { IsolatedNumbers sheet.now table command result }
{
    fiddlecomet::fiddlecomet_isolated(sheet, table, command)
}

// Does policy a cover policy b?
#[unsafe(no_mangle)]
pub extern "C" fn fiddlecomet_covers(sheet: &[u8], a: u32, b: u32) -> CoverNumbers
    ensures { CoversNumbers sheet.now a b result }
{
    fiddlecomet::fiddlecomet_covers(sheet, a, b)
}

// N: how many branches the table has under the command.
#[unsafe(no_mangle)]
pub extern "C" fn fiddlecomet_branches(sheet: &[u8], table: u32, command: u32) -> CountNumbers
    ensures { BranchesNumbers sheet.now table command result }
{
    fiddlecomet::fiddlecomet_branches(sheet, table, command)
}
