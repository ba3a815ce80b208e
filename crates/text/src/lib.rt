// A text or file that is written from its front on, byte after byte: bytes, numbers in decimal, and lines with a number.
#![tactic(auto)]

ghost use Rattle.std.specs.Prelude.{◌≡◌, [], ◌∷◌, ◌+◌, ◌≤◌, ◌<◌, length};
ghost use Rattle.text.specs.Decimal.{decimal};
ghost use Rattle.text.specs.Figure.{figure};
ghost use Rattle.text.specs.Writing.{Adds, HasRoom};

// The bytes that are written to, and the place of the next one.
#[derive(Drop)]
pub struct Output<'a> {
    pub bytes: &'a mut [u8],
    pub at: usize,
}

impl<'a> Output<'a> {
    // All the bytes, to be read.
    pub fn bytes(&self) -> &[u8]
        ensures { result.now ≡ self.now.bytes.now }
    {
        &*self.bytes
    }

    // Writes one byte.
    pub fn write_byte(&mut self, byte: u8)
        requires { HasRoom self.old 1 }
        ensures { Adds self.old (byte ∷ []) self.new }
    {
        self.bytes[self.at] = byte;
        self.at += 1;
    }

    // Writes some bytes.
    pub fn write_bytes(&mut self, bytes: &[u8])
        requires { HasRoom self.old (length bytes.now) }
        ensures { Adds self.old bytes.now self.new }
    {
        let next = self.at + bytes.len();
        self.bytes[self.at..next].copy_from_slice(bytes);
        self.at = next;
    }

    // Writes a number in decimal.
    pub fn write_number(&mut self, n: usize)
        requires { HasRoom self.old (length (decimal n)) }
        ensures { Adds self.old (decimal n) self.new }
    {
        if n < 10 {
            return self.write_byte(b'0' + n as u8);
        }
        self.write_number(n / 10);
        self.write_byte(b'0' + (n % 10) as u8)
    }

    // Writes a line with a word and a number.
    pub fn write_figure(&mut self, word: &[u8], n: usize)
        requires { HasRoom self.old (length (figure word.now n)) }
        ensures { Adds self.old (figure word.now n) self.new }
    {
        self.write_bytes(word);
        self.write_number(n);
        self.write_byte(b'\n')
    }
}
