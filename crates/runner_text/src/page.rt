// A text in lent bytes.
ghost use Rattle.std.specs.Prelude.{◌+◌, ◌*◌, ◌≤◌, length};
ghost use Rattle.runner_text.specs.Text.{decimal as decimal_of, field as field_of, hex as hex_of};
ghost use Rattle.runner_text.specs.Wrote.{Adds};

// Lent bytes, and where the text in them ends: no String, since the runner holds a turn in fixed memory. What a method writes goes there, and all
// other bytes stay.
#[derive(Drop)]
pub struct Page<'a> {
    pub out: &'a mut [u8],
    pub end: usize,
}

impl<'a> Page<'a> {
    pub fn text(&mut self, text: &[u8])
        requires { self.old.end + length text.now ≤ length self.old.out.now }
        ensures { Adds (length text.now) text.now self.old self.new }
    {
        let next = self.end + text.len();
        self.out[self.end..next].copy_from_slice(text);
        self.end = next;
    }

    // A number in decimal.
    pub fn decimal(&mut self, n: u64)
        requires { self.old.end + 20 ≤ length self.old.out.now }
        ensures { Adds 20 (decimal_of n) self.old self.new }
    {
        let mut digits = itoa::Buffer::new();
        self.text(digits.format(n).as_bytes());
    }

    // A number in decimal, and a space.
    pub fn field(&mut self, n: u64)
        requires { self.old.end + 21 ≤ length self.old.out.now }
        ensures { Adds 21 (field_of n) self.old self.new }
    {
        self.decimal(n);
        self.text(b" ");
    }

    // Bytes as hexadecimal digits.
    pub fn hex(&mut self, bytes: &[u8])
        requires { self.old.end + 2 * length bytes.now ≤ length self.old.out.now }
        ensures { Adds (2 * length bytes.now) (hex_of bytes.now) self.old self.new }
    {
        let next = self.end + 2 * bytes.len();
        hex::encode_to_slice(bytes, &mut self.out[self.end..next]).unwrap();
        self.end = next;
    }
}
