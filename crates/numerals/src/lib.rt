// Numbers in base ten, as bytes, and bytes written one piece after another into lent ones.
#![tactic(auto)]

ghost use Rattle.std.specs.Prelude.{◌≡◌, ◌≤◌, [], ◌∷◌, length};

use itoa::{Buffer, Integer};

// How many bytes a number takes.
pub fn number_length<I: Integer>(number: I) -> usize
    ensures value { result ≡ length (I.text number) }
    ensures bound { result ≤ I.MAX_STR_LEN }
{
    Buffer::new().format(number).len()
}

// Lent bytes, and the place in them up to which they are written. It may be any place: past the end there is no room.
#[derive(Drop)]
pub struct Page<'a> {
    pub bytes: &'a mut [u8],
    pub at: usize,
}

impl<'a> Page<'a> {
    ghost use Rattle.numerals.specs.Pages.{Writes};

    pub fn new(bytes: &'a mut [u8]) -> Page<'a>
        ensures same_reference { result.bytes.ghost_name ≡ bytes.entry.ghost_name }
        ensures bytes { result.bytes.now ≡ bytes.old }
        ensures place { result.at ≡ 0 }
    {
        Page { bytes, at: 0 }
    }

    // Each of these writes a piece, and moves the place past it. Where there is no room, it writes nothing and the place stays: no Result, which
    // callers who see to the room first would only unwrap.
    pub fn write_bytes(&mut self, piece: &[u8])
        ensures { Writes piece.now self.old self.new }
    {
        if self.at > self.bytes.len() || piece.len() > self.bytes.len() - self.at {
            return;
        }
        let end = self.at + piece.len();
        self.bytes[self.at..end].copy_from_slice(piece);
        self.at = end;
    }

    pub fn write_byte(&mut self, byte: u8)
        ensures { Writes (byte ∷ []) self.old self.new }
    {
        self.write_bytes(&[byte]);
    }

    pub fn write_number<I: Integer>(&mut self, number: I)
        ensures { Writes (I.text number) self.old self.new }
    {
        self.write_bytes(Buffer::new().format(number).as_bytes());
    }
}
