// The words of a line: each is a part of the book, with its place.
ghost use Rattle.std.specs.Prelude.{◌≡◌, ◌+◌, ◌≤◌, length};
ghost use Rattle.book.specs.Lines.{numeral, most_bytes};

use crate::lines::LineKind;

// The byte that ends a line.
pub(crate) const LF: u8 = b'\n';

// The byte before each number.
pub(crate) const SPACE: u8 = b' ';

// The most digits of a number.
pub(crate) const MOST_DIGITS: usize = 5;

// A part of a book, with its place there.
#[derive(Clone, Copy)]
pub(crate) struct Part<'a> {
    pub text: &'a [u8],
    pub place: usize,
    pub ghost in_book: { place + length text.now ≤ most_bytes },
}

// A part of a line between its spaces, with its place in the book.
#[derive(Clone, Copy)]
pub(crate) enum Word<'a> {
    // The first word of a line.
    Letter(&'a [u8], usize),
    // A word after a space.
    Number(&'a [u8], usize),
}

// What is left of a line after the words that were taken: nothing, or what stands after a space.
#[derive(Drop)]
pub(crate) struct Words<'a> {
    left: Option<Part<'a>>,
}

impl<'a> Part<'a> {
    ghost use Rattle.book.specs.Cuts.{SplitOnce, WordCut};

    // The part before the first such byte, and the part after it.
    pub(crate) fn split_once(self, byte: u8) -> Option<(Part<'a>, Part<'a>)>
        ensures { SplitOnce byte self.entry result }
    {
        let end = self.text.iter().position(|b| *b == byte)?;
        let (front, rest) = self.text.split_at(end);
        Some((
            Part {
                text: front,
                place: self.place,
            },
            Part {
                text: &rest[1..],
                place: self.place + end + 1,
            },
        ))
    }

    // The first word of a line, and what is left after the space that ends it.
    fn split_word(self) -> (Part<'a>, Option<Part<'a>>)
        ensures { WordCut self.entry result.0 result.1 }
    {
        match self.split_once(SPACE) {
            Some((word, left)) => (word, Some(left)),
            None => (self, None),
        }
    }
}

// The number that a word writes, if it is one to five digits with no needless zero. Digit by digit: `parse` takes a text, and a book was read in nearly
// twice the time where each word was made one.
fn numeral(word: &[u8]) -> Option<u32>
    ensures { result ≡ numeral word.now }
{
    if let [] | [b'0', _, ..] = word {
        return None;
    }
    if word.len() > MOST_DIGITS {
        return None;
    }
    let mut value = 0;
    for digit in word {
        if !digit.is_ascii_digit() {
            return None;
        }
        value = value * 10 + u32::from(*digit - b'0');
    }
    Some(value)
}

impl Word<'_> {
    ghost use Rattle.book.specs.Cuts.{place_of, number_of, kind_told};

    // Where in the book the word stands.
    pub(crate) fn place(self) -> usize
        ensures { result ≡ place_of self.entry }
    {
        match self {
            Word::Letter(_, place) | Word::Number(_, place) => place,
        }
    }

    // The number that the word writes, if it stands where a number may.
    pub(crate) fn number(self) -> Option<u32>
        ensures { result ≡ number_of self.entry }
    {
        match self {
            Word::Letter(_, _) => None,
            Word::Number(text, _) => numeral(text),
        }
    }

    // The kind of line that the word tells, if it is the first of its line.
    pub(crate) fn kind(self) -> Option<LineKind>
        ensures { result ≡ kind_told self.entry }
    {
        match self {
            Word::Letter([letter], _) => LineKind::try_from(*letter).ok(),
            _ => None,
        }
    }
}

impl<'a> Words<'a> {
    ghost use Rattle.book.specs.Cuts.{LetterCut};

    // The first word of a line, and what is left of the line.
    pub(crate) fn first(line: Part<'a>) -> (Word<'a>, Words<'a>)
        ensures { LetterCut line.entry.text.now line.entry.place result.0 result.1 }
    {
        let (word, left) = line.split_word();
        (Word::Letter(word.text, word.place), Words { left })
    }
}

impl<'a> Iterator for Words<'a> {
    type Item = Word<'a>;

    ghost use Rattle.std.specs.Iterator.{item_count};
    ghost use Rattle.book.specs.Cuts.{NumberCut, left};

    ghost next_gives = { NumberCut };

    ghost remaining = { item_count left };

    fn next(&mut self) -> Option<Word<'a>> {
        let (word, left) = self.left?.split_word();
        self.left = left;
        Some(Word::Number(word.text, word.place))
    }
}
