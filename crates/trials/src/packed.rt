// How a case writes the bytes of a book on one line. `|` stands for a line's end, `\hh` for the byte with these two
// hexadecimal digits, `*N:x` for N times what `x` stands for, and any other character for itself.
use anyhow::anyhow;
use std::alloc::{AllocError, Global};
use std::iter;

// What the next character is taken for. The step is kept from one character to the next: in a loop that takes the characters of an item, each helper would
// need a contract that it shortens the rest, where now none has any.
#[derive(Clone, Copy)]
enum Next {
    Item,
    HighDigit,
    LowDigit(u8),
    Count,
}

#[derive(Drop)]
struct Unpacker {
    bytes: Vec<u8>,
    next: Next,
    // How often the next byte is put down: once, where no count stands before it.
    times: usize,
}

// `to_digit` takes capitals too, and these are no digits here.
fn hex_digit(character: u8) -> anyhow::Result<u8> {
    match character {
        b'0'..=b'9' => Ok(character - b'0'),
        b'a'..=b'f' => Ok(character - b'a' + 10),
        _ => Err(anyhow!("no hexadecimal digit")),
    }
}

impl Unpacker {
    fn put(&mut self, byte: u8) -> Result<(), AllocError> {
        self.bytes.extend(iter::repeat_n(byte, self.times))?;
        self.next = Next::Item;
        self.times = 1;
        Ok(())
    }

    fn take_item(&mut self, character: u8) -> Result<(), AllocError> {
        match character {
            b'|' => self.put(b'\n')?,
            b'\\' => self.next = Next::HighDigit,
            b'*' => {
                self.next = Next::Count;
                self.times = 0;
            }
            _ => self.put(character)?,
        }
        Ok(())
    }

    // Digit by digit, as the characters come: there is no text of the count that `parse` could take.
    fn take_count(&mut self, character: u8) -> anyhow::Result<()> {
        match character {
            b'0'..=b'9' => {
                self.times = self
                    .times
                    .saturating_mul(10)
                    .saturating_add(usize::from(character - b'0'));
            }
            b':' => self.next = Next::Item,
            _ => return Err(anyhow!("a count is digits, and then a colon")),
        }
        Ok(())
    }

    fn take(&mut self, character: u8) -> anyhow::Result<()> {
        match self.next {
            Next::Item => self.take_item(character)?,
            Next::HighDigit => self.next = Next::LowDigit(hex_digit(character)?),
            Next::LowDigit(high) => self.put((high << 4) | hex_digit(character)?)?,
            Next::Count => self.take_count(character)?,
        }
        Ok(())
    }
}

// The bytes that a packed text stands for.
pub(crate) fn unpack(heap: Global, text: &str) -> anyhow::Result<Vec<u8>> {
    let mut unpacker = Unpacker {
        bytes: Vec::new(heap),
        next: Next::Item,
        times: 1,
    };
    for character in text.bytes() {
        unpacker.take(character)?;
    }
    match unpacker.next {
        Next::Item if unpacker.times == 1 => Ok(unpacker.bytes),
        _ => Err(anyhow!("the text ends within an item")),
    }
}

// The text of a book that was written, on one line.
pub(crate) fn pack(heap: Global, bytes: &[u8]) -> Result<String, AllocError> {
    bytes
        .iter()
        .map(|byte| match *byte {
            b'\n' => '|',
            plain => char::from(plain),
        })
        .collect(heap)
}
