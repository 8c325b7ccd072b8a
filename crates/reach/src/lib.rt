// What can be met. A conjunction of atoms in words comes in; out goes its least solution within the variables' ranges, null wherever it can be,
// or that there is none; and, from that promise alone, whether two variables can be less, apart, or differ at all. "An atom is met only when it
// is true; SQL's unknown is not met." "Two sessions are of different tenants when key 0 differs, null counted as one more value." Stands on
// words (the conjunction, its classes) and least (the least value of a class).
#![tactic(auto)]

ghost use Rattle.std.specs.Prelude.{◌≡◌, ℕ, ◌<◌, get_or, set, replicate, false, true};
ghost use Rattle.words.specs.Ties.{Closed};
ghost use Rattle.reach.specs.Choice.{Highest, Chosen, ChosenOr};
ghost use Rattle.reach.specs.Solution.{Settles, Within, Solves, Answers, Lesser, Apart, Lowest, NullBeside, Parts};

use least::Class;
use words::{classes_of, needs, tied};

// The variables that are not null, and their values: two arrays, since one of `Option<u64>` would take 512 bytes of the stack, and these 288.
#[derive(Clone, Copy)]
pub struct Solution {
    pub need: [bool; 32],
    pub x: [u64; 32],
}

// A conjunction in words, and the last values of its variables' ranges.
#[derive(Clone, Copy)]
pub struct Conjunction<'a> {
    pub s: &'a [u64],
    pub top: &'a [u64; 32],
}

fn within(need: &[bool; 32], x: &[u64; 32], top: &[u64; 32]) -> bool
    ensures { Within need.now x.now top.now result }
{
    for v in 0..32 {
        if need[v] && top[v] < x[v] {
            return false;
        }
    }
    true
}

// The highest floor of the class's variables.
fn class_floor(class: &Class, floor: &[u64; 32]) -> u64
    ensures { Highest class.now.rep.now floor.now class.now.r 32 result }
{
    let mut h = 0;
    for v in 0..32 {
        if class.rep[v] == class.r {
            h = h.max(floor[v]);
        }
    }
    h
}

// The least value of the class of v: that of an earlier variable of the class, or searched for.
fn class_value(
    class: &Class,
    need: &[bool; 32],
    floor: &[u64; 32],
    x: &[u64; 32],
    v: usize,
) -> Option<u64>
    requires { (v < 32) × (get_or class.now.rep.now v 0 ≡ class.now.r) }
    ensures { let c = class.now in ((w : ℕ) → w < v → get_or need.now w false ≡ true → Chosen c.s.now c.rep.now floor.now w (get_or x.now w 0)) → ChosenOr c.s.now c.rep.now floor.now v result }
{
    let u = class.r as usize;
    if u < v && need[u] && class.rep[u] == class.r {
        return Some(x[u]);
    }
    class.least(class_floor(class, floor))
}

// The least value of each class of needed variables.
fn settle(s: &[u64], need: &[bool; 32], floor: &[u64; 32]) -> Option<[u64; 32]>
    requires { Closed s.now need.now }
    ensures { Settles s.now need.now floor.now result }
{
    let rep = classes_of(s);
    let mut x = *floor;
    for v in 0..32 {
        if need[v] {
            let class = Class {
                s,
                rep: &rep,
                r: rep[v],
            };
            x[v] = class_value(&class, need, floor, &x, v)?;
        }
    }
    Some(x)
}

// The variables u and w.
fn both(u: usize, w: usize) -> [bool; 32]
    requires { (u < 32) × (w < 32) }
    ensures { result ≡ set (set (replicate 32 false) u true) w true }
{
    let mut need = [false; 32];
    need[u] = true;
    need[w] = true;
    need
}

// The least solution of the conjunction s, null wherever it can be: within 0..=top, non-null where need0 says so, and nowhere under floor.
pub fn solve(s: &[u64], top: &[u64; 32], need0: [bool; 32], floor: &[u64; 32]) -> Option<Solution>
    ensures { Solves s.now top.now need0 floor.now result }
{
    let need = needs(s, need0);
    let x = settle(s, &need, floor)?;
    if within(&need, &x, top) {
        Some(Solution { need, x })
    } else {
        None
    }
}

impl Conjunction<'_> {
    // Is there a row with sessions that meets the conjunction?
    pub fn satisfiable(&self) -> bool
        ensures { Answers self.now.s.now self.now.top.now result }
    {
        solve(self.s, self.top, [false; 32], &[0; 32]).is_some()
    }

    // Can w rise above the least value of u, where u holds less?
    fn rises(&self, u: usize, w: usize, low: &Solution) -> bool
        requires { (u < 32) × (w < 32) × Lowest self.now.s.now self.now.top.now u w low.now }
        ensures { Lesser self.now.s.now self.now.top.now u w result }
    {
        if self.top[w] <= low.x[u] {
            return false;
        }
        let mut floor = [0; 32];
        floor[w] = low.x[u] + 1;
        match solve(self.s, self.top, both(u, w), &floor) {
            Some(high) => high.x[u] < high.x[w],
            None => false,
        }
    }

    // Do u and w ever differ?
    fn splits(&self, u: usize, w: usize, low: &Solution) -> bool
        requires { (u < 32) × (w < 32) × Lowest self.now.s.now self.now.top.now u w low.now }
        ensures { Apart self.now.s.now self.now.top.now u w result }
    {
        if low.x[u] != low.x[w] {
            return true;
        }
        !tied(self.s, u, w) && (self.rises(u, w, low) || self.rises(w, u, low))
    }

    // Is there one in which u holds less than w?
    pub fn less(&self, u: usize, w: usize) -> bool
        requires { (u < 32) × (w < 32) }
        ensures { Lesser self.now.s.now self.now.top.now u w result }
    {
        match solve(self.s, self.top, both(u, w), &[0; 32]) {
            Some(low) => self.rises(u, w, &low),
            None => false,
        }
    }

    // Is there one in which u and w hold different values?
    pub fn apart(&self, u: usize, w: usize) -> bool
        requires { (u < 32) × (w < 32) }
        ensures { Apart self.now.s.now self.now.top.now u w result }
    {
        match solve(self.s, self.top, both(u, w), &[0; 32]) {
            Some(low) => self.splits(u, w, &low),
            None => false,
        }
    }

    // Is there one in which u is null and w is not?
    fn beside_null(&self, u: usize, w: usize) -> bool
        requires { (u < 32) × (w < 32) }
        ensures { NullBeside self.now.s.now self.now.top.now u w result }
    {
        let mut need = [false; 32];
        need[w] = true;
        match solve(self.s, self.top, need, &[0; 32]) {
            Some(low) => !low.need[u],
            None => false,
        }
    }

    // Is there one in which u and w differ, either of which may be null?
    fn differ_with_null(&self, u: usize, w: usize) -> bool
        requires { (u < 32) × (w < 32) }
        ensures { Parts self.now.s.now self.now.top.now u w result }
    {
        self.beside_null(u, w) || self.beside_null(w, u) || self.apart(u, w)
    }

    // Is there one in which u and w differ, null counted as one more value? The least solution often tells by itself.
    pub fn parted(&self, u: usize, w: usize) -> bool
        requires { (u < 32) × (w < 32) }
        ensures { Parts self.now.s.now self.now.top.now u w result }
    {
        let Some(low) = solve(self.s, self.top, [false; 32], &[0; 32]) else {
            return false;
        };
        match (low.need[u], low.need[w]) {
            (true, true) => self.splits(u, w, &low),
            (false, false) => self.differ_with_null(u, w),
            (true, false) | (false, true) => true,
        }
    }
}
