// The rows of the listing. A number has at most 20 digits: 43 bytes for the last two fields, 53 for a row without tail and head, 90 for a belt.
ghost use Rattle.std.specs.Prelude.{◌≡◌, [], ◌∷◌, ◌+◌, ◌*◌, ◌^◌, ◌≤◌, ◌<◌, length};
ghost use Rattle.rows.specs.Decimal.{decimal};
ghost use Rattle.rows.specs.Rows.{answer_rows, refusal_row};
ghost use Rattle.rows.specs.Put.{Puts};
ghost use Rattle.rows.specs.Row.{delimited, row};
ghost use Rattle.lines.specs.Text.{bytes};

use crate::put::Rows;
use method::Answer;
use network::{Code, Refusal};

impl<'a> Rows<'a> {
    // The last two fields and the end of a row.
    fn put_fraction(&mut self, upper: u64, lower: u64)
        requires { self.old.at + 43 ≤ length self.old.out.now }
        ensures same_table { self.new.out.ghost_name ≡ self.old.out.ghost_name }
        ensures rows { Puts (delimited (decimal upper) (decimal lower ∷ [])) self.old self.new }
    {
        self.put_number(upper);
        self.put(b",");
        self.put_number(lower);
        self.put(b"\r\n");
    }

    // A row whose tail and head are empty.
    fn put_row(&mut self, kind: &[u8], upper: u64, lower: u64)
        requires { (length kind.now ≤ 7) × (self.old.at + 53 ≤ length self.old.out.now) }
        ensures same_table { self.new.out.ghost_name ≡ self.old.out.ghost_name }
        ensures rows { Puts (row kind.now [] [] upper lower) self.old self.new }
    {
        self.put(kind);
        self.put(b",,,");
        self.put_fraction(upper, lower);
    }

    // The row of a belt.
    pub fn put_belt(&mut self, tail: u64, head: u64, upper: u64, lower: u64)
        requires { self.old.at + 90 ≤ length self.old.out.now }
        ensures same_table { self.new.out.ghost_name ≡ self.old.out.ghost_name }
        ensures rows { Puts (row (bytes "belt") (decimal tail) (decimal head) upper lower) self.old self.new }
    {
        self.put(b"belt,");
        self.put_number(tail);
        self.put(b",");
        self.put_number(head);
        self.put(b",");
        self.put_fraction(upper, lower);
    }

    // Total, bound and steps.
    pub fn put_answer(&mut self, a: Answer)
        requires { (a.total * a.capacity < 2 ^ 64) × (self.old.at + 159 ≤ length self.old.out.now) }
        ensures same_table { self.new.out.ghost_name ≡ self.old.out.ghost_name }
        ensures rows { Puts (answer_rows a) self.old self.new }
    {
        self.put_row(b"total", a.total * a.capacity, a.load);
        self.put_row(b"bound", a.bound, a.alpha);
        self.put_row(b"steps", a.count, a.best);
    }

    // A refusal.
    pub fn put_refusal(&mut self, why: Refusal)
        requires { self.old.at + 53 ≤ length self.old.out.now }
        ensures same_table { self.new.out.ghost_name ≡ self.old.out.ghost_name }
        ensures rows { Puts (refusal_row why) self.old self.new }
    {
        let c = Code::from(why);
        self.put_row(b"refused", c.number, c.place);
    }
}
