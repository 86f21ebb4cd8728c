// A page: lent bytes that a text is put on.
#![tactic(auto)]

ghost use Rattle.std.specs.Prelude.{◌≡◌, ◌+◌, ◌≤◌, ◌<◌, length};
ghost use Rattle.text_lines.specs.Form.{digit_at, decimal};
ghost use Rattle.text.specs.Page.{places, Puts};

/// Lent bytes that a text is put on, and the text's length so far. What lies beyond the lent bytes is counted and not kept, so that a page of no bytes
/// measures a text.
#[derive(Drop)]
pub struct Page<'a> {
    pub bytes: &'a mut [u8],
    pub len: usize,
}

impl<'a> Page<'a> {
    /// A page with nothing on it.
    pub fn new(bytes: &'a mut [u8]) -> Page<'a>
        ensures bytes { result.bytes ≡ bytes.entry }
        ensures length { result.len ≡ 0 }
    {
        Page { bytes, len: 0 }
    }

    /// Bytes after those so far. A full page only counts them.
    pub fn put(&mut self, text: &[u8])
        requires { self.old.len + length text.now ≤ places }
        ensures { Puts self.old text.now self.new }
    {
        if self.len >= self.bytes.len() {
            self.len += text.len();
            return;
        }
        let mut at = self.len;
        for &byte in text {
            recording::put(self.bytes, at, byte);
            at += 1;
        }
        self.len = at;
    }

    // The digit of n at a place of this value, where n reaches that far.
    fn put_digit(&mut self, value: u32, n: u32)
        requires { (0 < value) × (self.old.len < places) }
        ensures digit { Puts self.old (digit_at value n) self.new }
        ensures short { self.new.len ≤ self.old.len + 1 }
    {
        if n >= value {
            self.put(&[b'0' + (n / value % 10) as u8]);
        }
    }

    /// A number of at most six digits, in decimal.
    pub fn put_number(&mut self, n: u32)
        requires { self.old.len + 6 ≤ places }
        ensures number { Puts self.old (decimal n) self.new }
        ensures short { self.new.len ≤ self.old.len + 6 }
    {
        self.put_digit(100_000, n);
        self.put_digit(10_000, n);
        self.put_digit(1_000, n);
        self.put_digit(100, n);
        self.put_digit(10, n);
        self.put(&[b'0' + (n % 10) as u8]);
    }
}
