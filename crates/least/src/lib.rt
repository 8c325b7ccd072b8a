// The least value of one class of equal variables. A conjunction in words and the classes' labels come in; out goes the class's least value at
// or above a start, or that there is none. Bounds are one pass. Where there is an in-list its values are sifted by every list of the class. Else
// the struck-out values are gathered before the search ("f not in [0] and f not in [1]: dropped"), and no promise above says so. Every pass is
// linear in the atoms and their values. Stands on words (the conjunction).
#![tactic(auto)]

ghost use Rattle.std.specs.Prelude.{◌≡◌, ◌⊎◌, List, ℕ, ◌+◌, ◌*◌, ◌/◌, ◌%◌, ◌≤◌, ◌<◌, length, get_or, false};
ghost use Rattle.lists.specs.Decides.{Decides};
ghost use Rattle.words.specs.Meaning.{op_at, test_at};
ghost use Rattle.least.specs.Least.{Of, Bounds, Spans, Strikes, Marks, Gap, FirstFree, InList, Sifts, Lives, FirstListed, LeastOf};

use words::var_at;

// A range of values; where high is below low there are none.
#[derive(Clone, Copy)]
pub struct Range {
    pub low: u64,
    pub high: u64,
}

// What the atoms of one class say: a range, an atom with an in-list where there is one, whether values are struck out.
#[derive(Clone, Copy)]
pub struct Span {
    pub low: u64,
    pub high: u64,
    pub list: Option<usize>,
    pub struck: bool,
}

// One class of a conjunction: the words, the variables' labels, and the class's own label.
#[derive(Clone, Copy)]
pub struct Class<'a> {
    pub s: &'a [u64],
    pub rep: &'a [u64; 32],
    pub r: u64,
}

// The values that atom i allows lie in this range; where it is no list, they are all of it.
#[tactic(auto, unfolding(words::specs::Meaning::test_at))]
fn range_at(s: &[u64], i: usize) -> Range
    requires { i < length s.now / 11 }
    ensures { Bounds (test_at s.now i) (op_at s.now i) result.low result.high }
{
    let none = Range { low: 1, high: 0 };
    let x = s[i * 11 + 3];
    match s[i * 11 + 1] {
        3 => Range { low: 0, high: x },
        4 => Range {
            low: x,
            high: u64::MAX,
        },
        5 => x.checked_sub(1).map_or(none, |high| Range { low: 0, high }),
        6 => x.checked_add(1).map_or(
            none,
            |low| Range {
                low,
                high: u64::MAX,
            },
        ),
        7 => none,
        _ => Range {
            low: 0,
            high: u64::MAX,
        },
    }
}

// The values of atom i's list.
fn listed(s: &[u64], i: usize) -> &[u64]
    requires { i < length s.now / 11 }
    ensures count { length result.now ≡ get_or s.now (i * 11 + 2) 0 % 9 }
    ensures values { (k : ℕ) → k < length result.now → get_or result.now k 0 ≡ get_or s.now (i * 11 + 3 + k) 0 }
{
    let b = i * 11 + 3;
    let c = (s[i * 11 + 2] % 9) as usize;
    &s[b..b + c]
}

// What atom i strikes out is marked by how far it lies above x.
fn strike(s: &[u64], i: usize, x: u64, marks: &mut [bool; 2112])
    requires { i < length s.now / 11 }
    ensures { Strikes s.now i x (get_or s.now (i * 11 + 2) 0 % 9) marks.old marks.new }
{
    for v in listed(s, i) {
        if let Some(d) = v.checked_sub(x)
            && d < 2112
        {
            marks[d as usize] = true;
        }
    }
}

// The first place without a mark; the number of places where there is none: one number, since either way it is the step from x.
fn gap(marks: &[bool; 2112]) -> usize
    ensures { Gap marks.now result × (result ≤ 2112) }
{
    marks.iter().position(|m| !*m).unwrap_or(2112)
}

// Is atom i a list?
fn is_list(s: &[u64], i: usize) -> bool
    requires { i < length s.now / 11 }
    ensures { Decides ((op_at s.now i ≡ 1) ⊎ (op_at s.now i ≡ 2)) result }
{
    matches!(s[i * 11 + 1], 1 | 2)
}

// Is y among these values?
fn among(values: &[u64], y: u64) -> bool
    ensures { Decides ((k : ℕ) × (k < length values.now) × (get_or values.now k 0 ≡ y)) result }
{
    values.contains(&y)
}

// Which of these values lie in low..=high?
fn within(values: &[u64], low: u64, high: u64) -> [bool; 8]
    requires { length values.now ≤ 8 }
    ensures { (k : ℕ) → k < length values.now → Decides ((low ≤ get_or values.now k 0) × (get_or values.now k 0 ≤ high)) (get_or result k false) }
{
    let mut live = [false; 8];
    for (k, y) in values.iter().enumerate() {
        live[k] = low <= *y && *y <= high;
    }
    live
}

// Of these values those stay that pass atom i, a list.
fn sift(s: &[u64], i: usize, values: &[u64], live: &mut [bool; 8])
    requires a_list { (i < length s.now / 11) × ((op_at s.now i ≡ 1) ⊎ (op_at s.now i ≡ 2)) }
    requires room { length values.now ≤ 8 }
    ensures { Sifts s.now i values.now (length values.now) live.old live.new }
{
    let wanted = s[i * 11 + 1] == 1;
    let list = listed(s, i);
    for (k, y) in values.iter().enumerate() {
        if live[k] && among(list, *y) != wanted {
            live[k] = false;
        }
    }
}

// Is none of these left?
fn none_left(live: &[bool; 8]) -> bool
    ensures { Decides ((k : ℕ) → get_or live.now k false ≡ false) result }
{
    !live.contains(&true)
}

// Is y below the best so far?
fn nearer(best: Option<u64>, y: u64) -> bool
    ensures { Decides ((m : ℕ) → best ≡ Some m → y < m) result }
{
    best.is_none_or(|m| y < m)
}

impl Class<'_> {
    // Is atom i of the class?
    fn has(&self, i: usize) -> bool
        requires { i < length self.now.s.now / 11 }
        ensures { Decides (Of self.now.s.now self.now.rep.now self.now.r i) result }
    {
        self.rep[var_at(self.s, i)] == self.r
    }

    // The range from start on: bounds in one pass.
    fn span(&self, start: u64) -> Span
        ensures { Spans self.now.s.now self.now.rep.now self.now.r start (length self.now.s.now / 11) result }
    {
        let mut t = Span {
            low: start,
            high: u64::MAX,
            list: None,
            struck: false,
        };
        for i in 0..self.s.len() / 11 {
            if self.has(i) {
                t = narrow(self.s, i, t);
            }
        }
        t
    }

    // The struck-out values from x on, gathered where nothing is marked yet: more places than eight values of each of 258 atoms. The marks are
    // the repeated array that docs/DECISIONS.md names.
    fn gather(&self, x: u64, marks: &mut [bool; 2112])
        requires { Marks self.now.s.now self.now.rep.now self.now.r x 0 marks.old }
        ensures { Marks self.now.s.now self.now.rep.now self.now.r x (length self.now.s.now / 11) marks.new }
    {
        for i in 0..self.s.len() / 11 {
            if self.has(i) && self.s[i * 11 + 1] == 2 {
                strike(self.s, i, x, marks);
            }
        }
    }

    // The first of low..=high that is not struck out. It lies within the number of struck-out values of low, so that one gathering finds it
    // where there are at most 258 atoms; with more there may be more gatherings.
    fn first_free(&self, low: u64, high: u64) -> Option<u64>
        ensures { FirstFree self.now.s.now self.now.rep.now self.now.r low high result }
    {
        let mut x = low;
        // no `for`: x moves on by all that one gathering struck out
        while x <= high {
            let mut marks = [false; 2112];
            self.gather(x, &mut marks);
            let j = gap(&marks);
            let d = j as u64;
            if high - x < d {
                return None;
            }
            if j < 2112 {
                return Some(x + d);
            }
            x += d;
        }
        None
    }

    // Which of these values lie in low..=high and pass every list of the class? Its atom `list`, whose values they are, sifts none of them.
    fn sift_all(&self, list: usize, values: &[u64], low: u64, high: u64) -> [bool; 8]
        requires { InList self.now.s.now list values.now }
        ensures { Lives self.now.s.now self.now.rep.now self.now.r values.now low high (length self.now.s.now / 11) result }
    {
        let mut live = within(values, low, high);
        if none_left(&live) {
            return live;
        }
        for i in 0..self.s.len() / 11 {
            if self.has(i) && is_list(self.s, i) && i != list {
                sift(self.s, i, values, &mut live);
                if none_left(&live) {
                    return live;
                }
            }
        }
        live
    }

    // The least in low..=high of the values of the atom `list` that passes every list of the class.
    fn least_listed(&self, list: usize, values: &[u64], low: u64, high: u64) -> Option<u64>
        requires { InList self.now.s.now list values.now }
        ensures { FirstListed self.now.s.now self.now.rep.now self.now.r values.now low high (length values.now) result }
    {
        let live = self.sift_all(list, values, low, high);
        let mut best = None;
        for (k, y) in values.iter().enumerate() {
            if live[k] && nearer(best, *y) {
                best = Some(*y);
            }
        }
        best
    }

    // The least value at or above start: one of an in-list where there is one, else the first that is not struck out.
    pub fn least(&self, start: u64) -> Option<u64>
        ensures { LeastOf self.now.s.now self.now.rep.now self.now.r start result }
    {
        let t = self.span(start);
        if t.high < t.low {
            None
        } else if let Some(i) = t.list {
            self.least_listed(i, listed(self.s, i), t.low, t.high)
        } else if t.struck {
            self.first_free(t.low, t.high)
        } else {
            Some(t.low)
        }
    }
}

// The range of a class, narrowed by its atom i.
fn narrow(s: &[u64], i: usize, t: Span) -> Span
    requires { i < length s.now / 11 }
    ensures { (rep : List ℕ) (r start : ℕ) → Of s.now rep r i → Spans s.now rep r start i t → Spans s.now rep r start (i + 1) result }
{
    let g = range_at(s, i);
    let t = Span {
        low: t.low.max(g.low),
        high: t.high.min(g.high),
        ..t
    };
    match s[i * 11 + 1] {
        1 => Span { list: Some(i), ..t },
        2 => Span { struck: true, ..t },
        _ => t,
    }
}
