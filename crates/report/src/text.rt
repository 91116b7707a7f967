// Text in lent bytes: some bytes, a number in decimal digits, put behind what was put before, as far
// as there is room. Private helpers.
ghost use Rattle.std.specs.Prelude.{◌≡◌, ◌++◌, ◌≤◌, length};
ghost use Rattle.path_count.specs.PathCounts.{count_value};
ghost use Rattle.report.specs.Report.{decimal, feed};

use path_count::PathCount;

// Lent bytes, and the place behind the text in them: in the bytes, or at their end.
#[derive(Drop)]
pub struct Text<'a> {
    pub bytes: &'a mut [u8],
    pub at: usize,
    ghost inside: { at ≤ length bytes.now },
}

impl<'a> Text<'a> {
    ghost use Rattle.report.specs.Inner.{Puts};

    // No text, in front of some bytes.
    pub fn new(bytes: &'a mut [u8]) -> Text<'a>
        ensures same_reference { result.bytes.ghost_name ≡ bytes.entry.ghost_name }
        ensures bytes { result.bytes.now ≡ bytes.old }
        ensures at { result.at ≡ 0 }
    {
        Text { bytes, at: 0 }
    }

    // Some bytes.
    pub fn put_bytes(&mut self, bytes: &[u8])
        ensures { Puts self.old bytes.now self.new }
    {
        let n = bytes.len().min(self.bytes.len() - self.at);
        let end = self.at + n;
        self.bytes[self.at..end].copy_from_slice(&bytes[..n]);
        self.at = end;
    }

    // The decimal digits of a number.
    fn put_decimal(&mut self, n: u64)
        ensures { Puts self.old (decimal n) self.new }
    {
        if n < 10 {
            self.put_bytes(&[b'0' + n as u8]);
        } else {
            self.put_decimal(n / 10);
            self.put_bytes(&[b'0' + (n % 10) as u8]);
        }
    }

    // Some words, and a number behind them.
    pub fn put_field(&mut self, words: &[u8], n: u64)
        ensures { Puts self.old (words.now ++ decimal n) self.new }
    {
        self.put_bytes(words);
        self.put_decimal(n);
    }

    // Some words, and a path count behind them.
    pub fn put_paths(&mut self, words: &[u8], count: PathCount)
        ensures { Puts self.old (words.now ++ decimal (count_value count)) self.new }
    {
        self.put_field(words, count.low());
    }

    // Some words and a number as the end of a line.
    pub fn put_last(&mut self, words: &[u8], n: u64)
        ensures { Puts self.old ((words.now ++ decimal n) ++ feed) self.new }
    {
        self.put_field(words, n);
        self.put_bytes(b"\n");
    }
}
