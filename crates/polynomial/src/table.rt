// A table by columns, and its parts.
ghost use Rattle.std.specs.Prelude.{◌≡◌, ◌≤◌, length};
ghost use Rattle.polynomial.specs.Tables.{part};

use std::marker::Model;

// Three parallel arrays: the two exponents and the coefficient of each row. They stay three, and a part of a table is made of a part of each: docs/DECISIONS.md, the list of forms by place. A
// contract sees the rows.
#[derive(Drop)]
pub struct Table<'a> {
    pub is: &'a [i32],
    pub js: &'a [i32],
    pub ns: &'a [f64],
}

impl<'a> Model for Table<'a> {
    ghost use Rattle.std.specs.Prelude.{List};
    ghost use Rattle.polynomial.specs.Terms.{Row};
    ghost use Rattle.polynomial.specs.Tables.{rows, Columns};

    ghost Value = { List Row };

    ghost view = { λ t. rows t.is.now t.js.now t.ns.now };

    ghost invariant = { λ t. Columns t.is.now t.js.now t.ns.now };
}

impl<'a> Table<'a> {
    pub fn len(&self) -> usize
        ensures { result ≡ length self.now }
    {
        self.is.len()
    }

    // The rows from `start` up to `end`.
    pub fn rows(&self, start: usize, end: usize) -> Table<'a>
        requires { (start ≤ end) × (end ≤ length self.now) }
        ensures { result ≡ part start end self.now }
    {
        Table {
            is: &self.is[start..end],
            js: &self.js[start..end],
            ns: &self.ns[start..end],
        }
    }
}
