// Bytes and numbers put behind one another into a lent table.
ghost use Rattle.std.specs.Prelude.{◌≡◌, ◌+◌, ◌≤◌, ◌<◌, length};
ghost use Rattle.rows.specs.Decimal.{decimal};
ghost use Rattle.rows.specs.Put.{Puts};

// The rows put so far: the next byte stands at place `at` of the table.
#[derive(Drop)]
pub struct Rows<'a> {
    pub out: &'a mut [u8],
    pub at: usize,
}

// The byte of a digit.
fn digit(d: u64) -> u8
    requires { d < 10 }
    ensures { result ≡ 48 + d }
{
    b'0' + d as u8
}

impl<'a> Rows<'a> {
    // The bytes xs.
    pub fn put(&mut self, xs: &[u8])
        requires { self.old.at + length xs.now ≤ length self.old.out.now }
        ensures same_table { self.new.out.ghost_name ≡ self.old.out.ghost_name }
        ensures rows { Puts xs.now self.old self.new }
    {
        let end = self.at + xs.len();
        self.out[self.at..end].copy_from_slice(xs);
        self.at = end;
    }

    // The digits of x: those of x / 10 where there are any, then the last.
    pub fn put_number(&mut self, x: u64)
        requires { self.old.at + length (decimal x) ≤ length self.old.out.now }
        ensures same_table { self.new.out.ghost_name ≡ self.old.out.ghost_name }
        ensures rows { Puts (decimal x) self.old self.new }
    {
        if 10 <= x {
            self.put_number(x / 10);
        }
        self.put(&[digit(x % 10)]);
    }
}
