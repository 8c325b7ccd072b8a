// What the variables hold, by variable number: columns from 0, keys from 16.
ghost use Rattle.std.specs.Prelude.{◌≡◌, ℕ, ◌<◌, ◌≤◌};
ghost use Rattle.meaning.specs.declared.Content.TheVariants.{Null};
ghost use Rattle.meaning.specs.Atoms.{equals, passes};
ghost use Rattle.rows.specs.Held.{held, Sets};

use meaning::Content;
use std::marker::Model;

// Two arrays, since `is_same` compares values before it asks whether they are there: with an array of contents a listing takes up to 10 % longer.
#[derive(Drop)]
pub struct Held {
    present: [bool; 24],
    values: [u64; 24],
}

impl Model for Held {
    ghost use Rattle.std.specs.Prelude.{List};
    ghost use Rattle.meaning.specs.declared.Content.{Content};

    ghost Value = { List Content };

    ghost use Rattle.rows.specs.Held.{cells};

    ghost view = { λ a. cells a.present a.values };
}

impl Held {
    // Each variable is null.
    pub fn new() -> Self
        ensures { (v : ℕ) → held result v ≡ Null }
    {
        Held {
            present: [false; 24],
            values: [0; 24],
        }
    }

    // What variable v holds; null past the last.
    pub fn get(&self, v: usize) -> Content
        ensures value { result ≡ held self.now v }
        ensures past { 24 ≤ v → result ≡ Null }
    {
        if v < 24 && self.present[v] {
            return Content::Value(self.values[v]);
        }
        Content::Null
    }

    // Variable v holds x.
    pub fn set(&mut self, v: usize, x: Content)
        requires { v < 24 }
        ensures { Sets v x (held self.old) (held self.new) }
    {
        match x {
            Content::Null => self.present[v] = false,
            Content::Value(n) => {
                self.present[v] = true;
                self.values[v] = n;
            }
        }
    }

    // Do variables v and u hold the same value? Values are compared first: most often they tell.
    pub fn is_same(&self, v: usize, u: usize) -> bool
        requires { v < 24 }
        ensures { result ≡ passes (held self.now) (equals u) (held self.now v) }
    {
        if 24 <= u || self.values[v] != self.values[u] {
            return false;
        }
        self.present[v] && self.present[u]
    }
}
