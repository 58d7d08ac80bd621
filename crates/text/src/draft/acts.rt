//! What is done with drafts, and placing a text in the caller's memory.
ghost use Rattle.std.specs.Prelude.{◌≡◌, ◌≤◌, [], ◌++◌, length, codes, decimal};
ghost use Rattle.std.specs.Fmt.{signed_decimal};
ghost use Rattle.text.specs.Lines.{line_text, signed_line_text};
ghost use Rattle.text.specs.Drafts.{kept, placed_text, placed_length};

use crate::draft::Draft;
use crate::refusal::TextTooShort;
use arrayvec::ArrayVec;
use itoa::Buffer;

impl Draft {
    /// A draft with no byte yet.
    pub fn new() -> Draft
        ensures { result ≡ [] }
    {
        Draft {
            text: ArrayVec::new(),
        }
    }

    /// Puts the piece after the text so far, or as much of it as there is room for.
    pub fn push(&mut self, piece: &[u8])
        ensures { self.new ≡ kept (self.old ++ piece.now) }
    {
        let n = piece.len().min(self.text.remaining_capacity());
        self.text.try_extend_from_slice(&piece[..n]).unwrap();
    }

    /// Puts the digits of a number after the text so far, or as many as there is room for.
    pub fn push_natural(&mut self, n: u64)
        ensures { self.new ≡ kept (self.old ++ decimal n) }
    {
        self.push(Buffer::new().format(n).as_bytes());
    }

    /// Puts the digits of a signed number, with a minus where it is negative, after the text so
    /// far, or as much of them as there is room for.
    pub fn push_signed(&mut self, z: i64)
        ensures { self.new ≡ kept (self.old ++ signed_decimal z) }
    {
        self.push(Buffer::new().format(z).as_bytes());
    }

    fn push_key(&mut self, key: &[u8])
        ensures { self.new ≡ kept (self.old ++ (key.now ++ codes "=")) }
    {
        self.push(key);
        self.push(b"=");
    }

    /// Puts a line `key=n` with its line feed after the text so far, or as much of it as there is
    /// room for.
    pub fn push_line(&mut self, key: &[u8], n: u64)
        ensures { self.new ≡ kept (self.old ++ line_text key.now n) }
    {
        self.push_key(key);
        self.push_natural(n);
        self.push(b"\n");
    }

    /// Puts a line `key=z` with its line feed after the text so far, or as much of it as there is
    /// room for; the number has a minus where it is negative.
    pub fn push_signed_line(&mut self, key: &[u8], z: i64)
        ensures { self.new ≡ kept (self.old ++ signed_line_text key.now z) }
    {
        self.push_key(key);
        self.push_signed(z);
        self.push(b"\n");
    }

    /// The text so far, at most 4,096 bytes.
    pub fn bytes(&self) -> &[u8]
        ensures value { result.now ≡ self.now }
        ensures few { length result.now ≤ 4096 }
    {
        self.text.as_slice()
    }
}

/// Puts a text at the front of the caller's memory, and answers its length in bytes.
/// Where the memory is too short it is refused, and the memory is left as it was.
// Kept: lent memory, so the length is answered and the front is the caller's to cut.
pub fn place(text: &[u8], out: &mut [u8]) -> Result<usize, TextTooShort>
    ensures value { result ≡ placed_length text.now out.old }
    ensures after { out.new ≡ placed_text text.now out.old }
{
    let needed = text.len();
    if needed > out.len() {
        return Err(TextTooShort { needed });
    }
    out[0..needed].copy_from_slice(text);
    Ok(needed)
}
