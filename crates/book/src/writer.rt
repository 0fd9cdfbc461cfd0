// Writing the text of a project into lent bytes. The length is counted first, so that a refusal writes nothing.
ghost use Rattle.std.specs.Prelude.{◌≡◌, ◌+◌, ◌^◌, ◌<◌, ◌*◌, ◌≤◌, ◌↔◌, [], ◌++◌, length, take};
ghost use Rattle.arrayvec.specs.ArrayVec.{array_vec_len};
ghost use Rattle.project.specs.Held.{AreSound, project_in};
ghost use Rattle.project.specs.Project.{project_of, most_activities, most_pairs};
ghost use Rattle.project.specs.Refusals.{answer, refused};
ghost use Rattle.book.specs.Accepted.{WritesBook};
ghost use Rattle.book.specs.Reading.{ReadsBack};
ghost use Rattle.book.specs.Parsed.{most_numbers};
ghost use Rattle.book.specs.Saying.{Writable, line_text, saying};
ghost use Rattle.book.specs.Written.{activity_line, capacities_line, pair_line, trailer_line, written, writing_of, bytes_after};

use crate::lines::{Line, LineKind, Numbers};
use crate::words::{LF, SPACE};
use numerals::{Page, number_length};
use project::refusal::Refusal;
use project::tables::{Activity, Head, Kind, Pair, Tables};

// The letter that tells a kind of line. No line is of a blank pair, which has none: 0 stands for it, so that the conversion cannot fail.
impl From<LineKind> for u8 {
    ghost use Rattle.std.specs.Prelude.{◌≡◌};
    ghost use Rattle.book.specs.Lines.{letter};

    ghost from_gives = { λ kind byte. byte ≡ letter kind };

    fn from(kind: LineKind) -> u8 {
        match kind {
            LineKind::Capacities => b'C',
            LineKind::Job => b'J',
            LineKind::Pairing(Kind::Blank) => 0,
            LineKind::Pairing(Kind::And) => b'A',
            LineKind::Pairing(Kind::Or) => b'O',
            LineKind::Pairing(Kind::Bi) => b'B',
            LineKind::Trailer => b'Z',
        }
    }
}

impl Line {
    ghost use Rattle.numerals.specs.Pages.{Writes};

    // How many bytes the line takes: its letter, its numbers with a space before each, and LF. A loop and no `sum`: tried, and the proof that there
    // is room for two more beside the sum did not close.
    fn length(&self) -> usize
        ensures value { result ≡ length (line_text self.now) }
        ensures bound { result ≤ 2 + 11 * most_numbers }
    {
        let mut length = 2;
        for number in self.numbers.as_slice() {
            length += 1 + number_length(*number);
        }
        length
    }

    // Number by number onto the page, as the text of a clause is written: to make the line first and then copy it took longer.
    fn write(&self, page: &mut Page<'_>)
        requires { page.old.at + length (line_text self.now) ≤ length page.old.bytes.now }
        ensures { Writes (line_text self.now) page.old page.new }
    {
        page.write_byte(u8::from(self.kind));
        for number in self.numbers.as_slice() {
            page.write_byte(SPACE);
            page.write_number(*number);
        }
        page.write_byte(LF);
    }
}

// Appends the first `count` of the bytes, or all where there are fewer. No `extend`: it does not say that it
// succeeds where there is room, so that a proof would have to show that its failure cannot be.
fn push_first(numbers: &mut Numbers, count: usize, bytes: &[u8])
    requires { array_vec_len numbers.old + length bytes.now ≤ most_numbers }
    ensures { numbers.new.items ≡ numbers.old.items ++ take count bytes.now }
{
    for byte in &bytes[..count.min(bytes.len())] {
        numbers.push(u32::from(*byte));
    }
}

fn capacities_line(head: &Head) -> Line
    ensures { result ≡ saying (capacities_line (project_of head.now [] [])) }
{
    let mut numbers = Numbers::new();
    push_first(&mut numbers, head.resources, &head.capacities);
    Line {
        kind: LineKind::Capacities,
        numbers,
    }
}

fn activity_line(activity: &Activity, resources: usize) -> Line
    ensures { result ≡ saying (activity_line resources activity.now) }
{
    let mut numbers = Numbers::new();
    numbers.push(u32::from(activity.duration));
    push_first(&mut numbers, resources, &activity.demands);
    Line {
        kind: LineKind::Job,
        numbers,
    }
}

// It is no `From`, so that the four lines are made alike: an activity's needs the resources too, and the trailer's a bound.
fn pair_line(pair: &Pair) -> Line
    ensures { result ≡ saying (pair_line pair.now) }
{
    let mut numbers = Numbers::new();
    numbers.push(u32::from(pair.first));
    numbers.push(u32::from(pair.second));
    Line {
        kind: LineKind::Pairing(pair.kind),
        numbers,
    }
}

// The last line of a text with so many lines before it. They start at 0, since no cover stands before them.
fn trailer_line(lines: usize) -> Line
    requires { lines < 2 ^ 32 }
    ensures { result ≡ saying (trailer_line 0 lines) }
{
    let mut numbers = Numbers::new();
    numbers.push(0);
    // A `usize` has no `From` into `u32`. The cast loses nothing.
    numbers.push(lines as u32);
    Line {
        kind: LineKind::Trailer,
        numbers,
    }
}

// The lines of a text that are still to come. It is no chain of iterators, since the type of one that holds closures cannot be named, and an
// `impl Iterator` gets no proof.
#[derive(Drop)]
struct TextLines<'t> {
    capacities: Option<Line>,
    resources: usize,
    activities: &'t [Activity],
    pairs: &'t [Pair],
    trailer: Option<Line>,
}

impl Iterator for TextLines<'_> {
    ghost use Rattle.std.specs.Iterator.{YieldsFirst, item_count};
    ghost use Rattle.book.specs.Texts.{lines_left};

    type Item = Line;

    ghost next_gives = { YieldsFirst lines_left };

    ghost remaining = { item_count lines_left };

    fn next(&mut self) -> Option<Line> {
        if let Some(line) = self.capacities.take() {
            return Some(line);
        }
        if let Some((activity, rest)) = self.activities.split_first() {
            self.activities = rest;
            return Some(activity_line(activity, self.resources));
        }
        if let Some((pair, rest)) = self.pairs.split_first() {
            self.pairs = rest;
            return Some(pair_line(pair));
        }
        self.trailer.take()
    }
}

// The text of tables that keep the rules.
#[derive(Clone, Copy)]
struct Text<'t> {
    tables: Tables<'t>,
    ghost kept: { Writable tables },
}

impl<'t> Text<'t> {
    ghost use Rattle.std.specs.List.{flat_map};
    ghost use Rattle.numerals.specs.Puts.{PutAt};
    ghost use Rattle.book.specs.Texts.{lines_left, text_of};

    fn lines(self) -> TextLines<'t>
        ensures text { flat_map line_text (lines_left result) ≡ text_of self.entry }
        ensures bound { length (lines_left result) ≤ most_activities + most_pairs + 2 }
    {
        let head = self.tables.head;
        let activities = &self.tables.activities[..head.activities];
        let pairs = &self.tables.pairs[..head.pairs];
        let before = 1 + activities.len() + pairs.len();
        TextLines {
            capacities: Some(capacities_line(&head)),
            resources: head.resources,
            activities,
            pairs,
            trailer: Some(trailer_line(before)),
        }
    }

    fn length(self) -> usize
        ensures { result ≡ length (text_of self.entry) }
    {
        self.lines().map(|line| line.length()).sum()
    }

    fn write(self, out: &mut [u8]) -> usize
        requires { length (text_of self) ≤ length out.old }
        ensures { PutAt out.old out.new 0 result (text_of self.entry) }
    {
        let mut page = Page::new(out);
        for line in self.lines() {
            line.write(&mut page);
        }
        page.at
    }
}

// Writes the text of the project into the front of the lent bytes, and answers its length. A refusal writes nothing.
pub fn write(tables: Tables<'_>, out: &mut [u8]) -> Result<usize, Refusal>
    ensures value { answer result ≡ writing_of tables.entry out.old }
    ensures after { out.new ≡ bytes_after (writing_of tables.entry out.old) (written 0 (project_in tables.entry)) out.old }
    ensures rules { (answer result ≡ Err (refused 8 0)) ↔ (AreSound tables.entry → ⊥) }
    ensures book { WritesBook (project_in tables.entry) result out.new }
    ensures read { ReadsBack (project_in tables.entry) result out.new }
{
    if !tables.keeps_rules() {
        return Err(Refusal::RulesBroken);
    }
    let text = Text { tables };
    if text.length() > out.len() {
        return Err(Refusal::ShortBuffer);
    }
    Ok(text.write(out))
}
