// The lines of a book: a letter that tells the kind of line, and numbers.
ghost use Rattle.std.specs.Prelude.{◌≡◌, ◌≤◌, IfOk};
ghost use Rattle.std.specs.Result.{result_ok};
ghost use Rattle.book.specs.Lines.{kind_of, fewest, most, numerals};
ghost use Rattle.book.specs.Cuts.{left, place_of, said};
ghost use Rattle.book.specs.Steps.{Ready};
ghost use Rattle.book.specs.Parsed.{NumbersRead, LineRead, in_range, most_numbers};
ghost use Rattle.project.specs.Project.{most_resources};

use crate::words::{LF, Part, Word, Words};
use arrayvec::ArrayVec;
use project::refusal::Refusal;
use project::tables::{Kind, MOST_RESOURCES};

// The most numbers of a line: a duration and a demand for each resource.
pub(crate) const MOST_NUMBERS: usize = MOST_RESOURCES + 1;

#[derive(Clone, Copy)]
pub(crate) enum LineKind {
    Capacities,
    Job,
    Pairing(Kind),
    Trailer,
}

// The numbers of a line, in their order.
pub(crate) type Numbers = ArrayVec<u32, MOST_NUMBERS>;

// What a line says. That it has as many numbers as its kind may have is no invariant of it: the writer makes lines of any records.
#[derive(Drop)]
pub(crate) struct Line {
    pub kind: LineKind,
    pub numbers: Numbers,
}

// The lines that are left of a part of a book in which each ends in LF.
#[derive(Drop)]
pub(crate) struct Lines<'a> {
    pub left: Part<'a>,
}

impl<'a> Iterator for Lines<'a> {
    type Item = Part<'a>;

    ghost use Rattle.std.specs.Iterator.{item_count};
    ghost use Rattle.book.specs.Cuts.{LineCut};

    ghost next_gives = { LineCut };

    ghost remaining = { item_count (λ ls. ls.left.text.now) };

    fn next(&mut self) -> Option<Part<'a>> {
        let (line, left) = self.left.split_once(LF)?;
        self.left = left;
        Some(line)
    }
}

// The kind of line that a letter tells.
impl TryFrom<u8> for LineKind {
    type Error = ();

    ghost try_from_gives = { λ letter r. result_ok r ≡ kind_of letter };

    fn try_from(letter: u8) -> Result<LineKind, ()> {
        match char::from(letter) {
            'C' => Ok(LineKind::Capacities),
            'J' => Ok(LineKind::Job),
            'A' => Ok(LineKind::Pairing(Kind::And)),
            'O' => Ok(LineKind::Pairing(Kind::Or)),
            'B' => Ok(LineKind::Pairing(Kind::Bi)),
            'Z' => Ok(LineKind::Trailer),
            _ => Err(()),
        }
    }
}

// The fewest and the most numbers of a line of that kind.
fn number_range(kind: LineKind, resources: usize) -> (usize, usize)
    requires { resources ≤ most_resources }
    ensures fewest { result.0 ≡ fewest resources kind }
    ensures most { result.1 ≡ most resources kind }
    ensures order { result.0 ≤ result.1 }
    ensures bound { result.1 ≤ most_numbers }
{
    match kind {
        LineKind::Capacities => (0, MOST_RESOURCES),
        LineKind::Job => (resources + 1, resources + 1),
        LineKind::Pairing(_) => (2, 2),
        LineKind::Trailer => (2, 2),
    }
}

// The numbers that the words write, of which there are `fewest` to `most`. The line stands at the place.
fn read_numbers(
    mut words: Words<'_>,
    fewest: usize,
    most: usize,
    place: usize,
) -> Result<Numbers, Refusal>
    requires order { fewest ≤ most }
    requires bound { most ≤ most_numbers }
    ensures { NumbersRead (in_range fewest most (numerals (left words.entry))) place result }
{
    let mut numbers = Numbers::new();
    // Word by word, by `let else` and no `for`: that is the form in which the project refuses a line whose words run out, or run over.
    while numbers.len() < most {
        let Some(word) = words.next() else {
            // The words run out.
            if numbers.len() < fewest {
                return Err(Refusal::BadForm(place));
            }
            return Ok(numbers);
        };
        let Some(number) = word.number() else {
            return Err(Refusal::BadForm(place));
        };
        numbers.push(number);
    }
    let None = words.next() else {
        // The words run over.
        return Err(Refusal::BadForm(place));
    };
    Ok(numbers)
}

// What a line says, by its letter and the words after it, where the project has so many resources.
pub(crate) fn read_line(
    letter: Word<'_>,
    words: Words<'_>,
    resources: usize,
) -> Result<Line, Refusal>
    requires { resources ≤ most_resources }
    ensures said { LineRead (said resources letter.entry words.entry) (place_of letter.entry) result }
    ensures ready { IfOk result Ready }
{
    let place = letter.place();
    let Some(kind) = letter.kind() else {
        return Err(Refusal::BadForm(place));
    };
    let (fewest, most) = number_range(kind, resources);
    let numbers = read_numbers(words, fewest, most, place)?;
    Ok(Line { kind, numbers })
}
