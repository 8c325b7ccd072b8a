// Which clauses of a policy cover which of another. An accepted sheet comes in; out goes yes or no. Makes true of 01, "Values and meaning":
// "Clause p covers clause q when every row and session meeting q meets p. Policy A covers policy B when each clause of B that some row and
// session meets is covered by a single clause of A. Type, commands and selector play no part." Stands on sheet (an accepted sheet's clauses,
// by value) and asked (whether a clause can be met, and whether it covers another).
#![tactic(auto)]

ghost use Rattle.lists.specs.Decides.{Decides};
ghost use Rattle.meaning.specs.Questions.{LiveClause, PolicyCovers};
ghost use Rattle.meaning.specs.Views.{clause_of};
ghost use Rattle.asked.specs.Asked.{Ranges, Uses, every_column};
ghost use Rattle.covering.specs.Covering.{clauses_at, CoveredBy};

use meaning::Clause;
use sheet::Accepted;

// Is the clause covered by a single clause of policy a?
fn covered(sheet: &Accepted, a: usize, q: Clause, top: [u64; 32]) -> bool
    ensures { Ranges sheet.now top → Uses (every_column sheet.now) sheet.now (clause_of q) → Decides (CoveredBy sheet.now a (clause_of q)) result }
{
    for i in 0..sheet.clause_count(a) {
        let p = sheet.clause(a, i);
        if asked::clause_covers(p, q, top) {
            return true;
        }
    }
    false
}

// Is the clause covered by a single clause of policy a, or met by no row and session?
fn spared(sheet: &Accepted, a: usize, q: Clause, top: [u64; 32]) -> bool
    ensures { Ranges sheet.now top → Uses (every_column sheet.now) sheet.now (clause_of q) → Decides (LiveClause sheet.now (clause_of q) → CoveredBy sheet.now a (clause_of q)) result }
{
    !asked::satisfiable(q, top) || covered(sheet, a, q, top)
}

// Does policy a cover policy b? A policy that is not there has no clause.
pub fn policy_covers(sheet: &Accepted, a: usize, b: usize) -> bool
    ensures { Decides (PolicyCovers sheet.now (clauses_at sheet.now a) (clauses_at sheet.now b)) result }
{
    let top = asked::tops(sheet.kinds());
    for i in 0..sheet.clause_count(b) {
        if !spared(sheet, a, sheet.clause(b, i), top) {
            return false;
        }
    }
    true
}
