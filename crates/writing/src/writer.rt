ghost use Rattle.std.specs.Prelude.{◌≡◌, ◌+◌, ◌<◌, ◌≤◌, [], ◌∷◌, length};
ghost use Rattle.writing.specs.Decimals.{decimal};
ghost use Rattle.writing.specs.Writers.{HasRoom, Puts};

/// A lent buffer that is written in order, and the place up to which it is written.
// Kept: a slice and a count, since a reply stands in its caller's buffer and nothing allocates after the start.
#[derive(Drop)]
pub struct Writer<'a> {
    buffer: &'a mut [u8],
    written: usize,
}

impl<'a> Writer<'a> {
    /// A writer at the buffer's start.
    pub fn new(buffer: &'a mut [u8]) -> Writer<'a>
        ensures buffer { result.buffer.now ≡ buffer.old }
        ensures same_buffer { result.buffer.ghost_name ≡ buffer.entry.ghost_name }
        ensures none_written { result.written ≡ 0 }
    {
        Writer::at(buffer, 0)
    }

    /// A writer from a place on: what stands before it stays.
    pub fn at(buffer: &'a mut [u8], written: usize) -> Writer<'a>
        ensures buffer { result.buffer.now ≡ buffer.old }
        ensures same_buffer { result.buffer.ghost_name ≡ buffer.entry.ghost_name }
        ensures place { result.written ≡ written }
    {
        Writer { buffer, written }
    }

    /// The place up to which the buffer is written: in a writer from the start, how many bytes are.
    pub fn written(&self) -> usize
        ensures { result ≡ self.now.written }
    {
        self.written
    }

    /// Writes `bytes` after what is written.
    pub fn put(&mut self, bytes: &[u8])
        requires room { HasRoom self.old (length bytes.now) }
        ensures puts { Puts self.old bytes.now self.new }
    {
        let end = self.written + bytes.len();
        self.buffer[self.written..end].copy_from_slice(bytes);
        self.written = end;
    }

    /// Writes one byte.
    pub fn put_byte(&mut self, byte: u8)
        requires room { HasRoom self.old 1 }
        ensures puts { Puts self.old (byte ∷ []) self.new }
    {
        self.buffer[self.written] = byte;
        self.written += 1;
    }

    /// Writes a number below 1000 in decimal digits.
    // Kept: digits by hand, since the library's itoa took more than three times as long.
    pub fn put_number(&mut self, n: u32)
        requires small { n < 1000 }
        requires room { HasRoom self.old 3 }
        ensures puts { Puts self.old (decimal n) self.new }
        ensures most { self.new.written ≤ self.old.written + 3 }
    {
        let ones = b'0' + (n % 10) as u8;
        if n < 10 {
            self.put(&[ones]);
            return;
        }
        let tens = b'0' + (n / 10 % 10) as u8;
        if n < 100 {
            self.put(&[tens, ones]);
            return;
        }
        let hundreds = b'0' + (n / 10 / 10) as u8;
        self.put(&[hundreds, tens, ones]);
    }
}
