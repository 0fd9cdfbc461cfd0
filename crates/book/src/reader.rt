// Reading a book into lent tables, line by line.
ghost use Rattle.std.specs.Prelude.{◌≡◌, ℕ, ◌+◌, ◌-◌, ◌≤◌, slice_set, false, ◌&&◌, ◌↔◌, List, [], length, replicate, if◌then◌else◌, Some, None, Ok, Err};
ghost use Rattle.std.specs.List.{suffix_len};
ghost use Rattle.project.specs.Project.{Project, within, activity_fits, proper, follows, is_blank, most_activities, most_resources, blank_activity, blank_pair};
ghost use Rattle.project.specs.Refusals.{Refused, refused, answer};
ghost use Rattle.book.specs.Accepted.{IsBook, Gave, Unread, Framed, sizes};
ghost use Rattle.book.specs.Lines.{formed};
ghost use Rattle.book.specs.Parsed.{most_numbers};
ghost use Rattle.book.specs.Reading.{judged, not_lf, resources_of, padded, activity_of, trailed, trailer, reading, head_answer, activities_after, pairs_after, pair_of};
ghost use Rattle.book.specs.Written.{written};
ghost use Rattle.book.specs.Steps.{has_room, activity_judged, pair_judged, opening, if_at_most, Ready, activity_more, pair_more, Put, Took, Kept, resources_known, content_in, trailer_told, closing, Reads};

use crate::lines::{Line, LineKind, Lines, read_line};
use crate::words::{LF, Part, Words};
use project::refusal::Refusal;
use project::rules::{can_follow, is_proper};
use project::tables::{
    Activity, ActivityNumber, Head, Kind, MOST_ACTIVITIES, MOST_CAPACITY, MOST_DURATION,
    MOST_PAIRS, MOST_RESOURCES, Pair,
};

// The most bytes of a book.
pub const MOST_BYTES: usize = 65_535;

// The trailer's own place, and what it says: where the body starts, and how many lines it has.
#[derive(Drop)]
struct Trailer {
    place: usize,
    start: usize,
    count: usize,
}

// What the lines so far give: a head, of which there is none before the C line, and its records in the lent tables.
#[derive(Drop)]
struct Reader<'t> {
    sofar: Option<Head>,
    activities: &'t mut [Activity],
    pairs: &'t mut [Pair],
    ghost kept: { Kept sofar activities.now pairs.now },
}

// The number, if it is at most the limit.
fn at_most(limit: u8, number: u32) -> Option<u8>
    ensures { result ≡ if_at_most limit number }
{
    if number > u32::from(limit) {
        return None;
    }
    u8::try_from(number).ok()
}

// The numbers with zeros after them, if each is at most the limit in its place.
fn bounded(numbers: &[u32], limits: &[u8; MOST_RESOURCES]) -> Option<[u8; MOST_RESOURCES]>
    requires { length numbers.now ≤ most_resources }
    ensures { result ≡ (if within (padded numbers.now) limits.now then Some (padded numbers.now) else None) }
{
    let mut bytes = [0; MOST_RESOURCES];
    // By place: tried with a `zip` of `iter_mut`, a proof knows nothing of the bytes after the loop.
    for (k, number) in numbers.iter().enumerate() {
        bytes[k] = at_most(limits[k], *number)?;
    }
    Some(bytes)
}

// The activity of a J line, if its duration and demands are within their limits.
fn activity_of(numbers: &[u32], capacities: &[u8; MOST_RESOURCES]) -> Option<Activity>
    requires some { 1 ≤ length numbers.now }
    requires few { length numbers.now ≤ most_numbers }
    ensures { result ≡ (if activity_fits capacities.now (activity_of numbers.now) then Some (activity_of numbers.now) else None) }
{
    let (duration, demands) = numbers.split_first()?;
    Some(Activity {
        duration: at_most(MOST_DURATION, *duration)?,
        demands: bounded(demands, capacities)?,
    })
}

// The pair of an A, O or B line, if its numbers are two of so many activities, the lower first, and it can follow the pairs before it.
fn pair_of(kind: Kind, numbers: &[u32], activities: usize, before: &[Pair]) -> Option<Pair>
    requires few { activities ≤ most_activities }
    requires two { length numbers.now ≡ 2 }
    ensures { result ≡ (if proper activities (pair_of kind numbers.now) && follows before.now (pair_of kind numbers.now) then Some (pair_of kind numbers.now) else None) }
{
    let [first, second] = numbers else {
        return None;
    };
    let pair = Pair {
        kind,
        first: ActivityNumber::try_from(*first).ok()?,
        second: ActivityNumber::try_from(*second).ok()?,
    };
    if !is_proper(&pair, activities) || !can_follow(&pair, before) {
        return None;
    }
    Some(pair)
}

// The head of a project that has the capacities of a C line and nothing else yet, if they are within their limit.
fn open_head(numbers: &[u32]) -> Option<Head>
    requires { length numbers.now ≤ most_resources }
    ensures { result ≡ opening numbers.now }
{
    Some(Head {
        activities: 0,
        resources: numbers.len(),
        capacities: bounded(numbers, &[MOST_CAPACITY; MOST_RESOURCES])?,
        pairs: 0,
    })
}

// Puts an item into a table after those that it holds, and answers how many it holds then, if there is room for one more.
fn put<T: Copy>(item: T, held: usize, most: usize, table: &mut [T]) -> Option<usize>
    ensures held { result ≡ (if has_room held most table.old then Some (held + 1) else None) }
    ensures put { table.new ≡ (if has_room held most table.old then slice_set table.old held item else table.old) }
{
    if held >= most || held >= table.len() {
        return None;
    }
    table[held] = item;
    Some(held + 1)
}

// This and the next are given the place of their line, since each may refuse it for several reasons.
fn add_activity(
    head: Head,
    numbers: &[u32],
    place: usize,
    activities: &mut [Activity],
) -> Result<Head, Refusal>
    requires some { 1 ≤ length numbers.now }
    requires few { length numbers.now ≤ most_numbers }
    ensures { Put (activity_judged head numbers.now activities.old) place (activity_more head) head.activities activities.old result activities.new }
{
    if head.pairs > 0 {
        return Err(Refusal::OutOfOrder(place));
    }
    let Some(activity) = activity_of(numbers, &head.capacities) else {
        return Err(Refusal::OverLimit(place));
    };
    let Some(held) = put(activity, head.activities, MOST_ACTIVITIES, activities) else {
        return Err(Refusal::TooMany(place));
    };
    Ok(Head {
        activities: held,
        ..head
    })
}

fn add_pair(
    head: Head,
    kind: Kind,
    numbers: &[u32],
    place: usize,
    pairs: &mut [Pair],
) -> Result<Head, Refusal>
    requires few { head.activities ≤ most_activities }
    requires held { head.pairs ≤ length pairs.old }
    requires two { length numbers.now ≡ 2 }
    ensures { Put (pair_judged head kind numbers.now pairs.old) place (pair_more head) head.pairs pairs.old result pairs.new }
{
    let Some(pair) = pair_of(kind, numbers, head.activities, &pairs[..head.pairs]) else {
        return Err(Refusal::BadPair(place));
    };
    let Some(held) = put(pair, head.pairs, MOST_PAIRS, pairs) else {
        return Err(Refusal::TooMany(place));
    };
    Ok(Head {
        pairs: held,
        ..head
    })
}

impl<'t> Reader<'t> {
    ghost use Rattle.book.specs.Took.{SameTables, TookLine, sofar_in};

    // A reader that has read no line.
    fn new(activities: &'t mut [Activity], pairs: &'t mut [Pair]) -> Reader<'t>
        ensures none { result.sofar ≡ None }
        ensures activities { (result.activities.ghost_name ≡ activities.entry.ghost_name) × (result.activities.now ≡ activities.old) }
        ensures pairs { (result.pairs.ghost_name ≡ pairs.entry.ghost_name) × (result.pairs.now ≡ pairs.old) }
    {
        Reader {
            sofar: None,
            activities,
            pairs,
        }
    }

    // Takes one line into the tables, and answers the head with it.
    fn take(&mut self, line: &Line, place: usize) -> Result<Head, Refusal>
        requires { Ready line.now }
        ensures took { Took (judged (sizes self.old.activities.now self.old.pairs.now) (sofar_in self.old) (Some (content_in line.now))) place self.old.activities.now self.old.pairs.now result self.new.activities.now self.new.pairs.now }
        ensures sofar { self.new.sofar ≡ self.old.sofar }
        ensures same { SameTables self.old self.new }
    {
        let numbers = line.numbers.as_slice();
        match (self.sofar, line.kind) {
            (None, LineKind::Capacities) => open_head(numbers).ok_or(Refusal::OverLimit(place)),
            (Some(head), LineKind::Job) => add_activity(head, numbers, place, self.activities),
            (Some(head), LineKind::Pairing(kind)) => {
                add_pair(head, kind, numbers, place, self.pairs)
            }
            _ => Err(Refusal::OutOfOrder(place)),
        }
    }

    // Reads a line of the book, and takes it into the tables.
    fn read(&mut self, line: Part<'_>) -> Result<(), Refusal>
        ensures took { TookLine (judged (sizes self.old.activities.now self.old.pairs.now) (sofar_in self.old) (formed (resources_known self.old.sofar) line.entry.text.now)) line.entry.place self.old result self.new }
        ensures same { SameTables self.old self.new }
    {
        let (letter, words) = Words::first(line);
        let resources = self.sofar.map_or(0, |head| head.resources);
        let said = read_line(letter, words, resources)?;
        let head = self.take(&said, line.place)?;
        self.sofar = Some(head);
        Ok(())
    }
}

// The last step: the trailer counts the lines, and there is an activity.
fn close(sofar: Option<Head>, count: usize, trailer: &Trailer) -> Result<Head, Refusal>
    ensures { answer result ≡ closing trailer.now count sofar }
{
    match sofar {
        Some(head) if count == trailer.count && head.activities > 0 => Ok(head),
        _ => Err(Refusal::WrongCount(trailer.place)),
    }
}

// What the last line says, if it is a right trailer that points to the start of a line.
fn point(book: &[u8], place: usize, line: &Line) -> Option<Trailer>
    requires within { place ≤ length book.now }
    requires ready { Ready line.now }
    ensures { trailer_told result ≡ trailed book.now place line.now.kind line.now.numbers.items }
{
    let (LineKind::Trailer, [start, count]) = (line.kind, line.numbers.as_slice()) else {
        return None;
    };
    // Rust has no `usize::from` of a `u32`, and a `try_from` would have a failure that cannot be.
    let start = *start as usize;
    let count = *count as usize;
    if start > place || (start > 0 && book[start - 1] != LF) {
        return None;
    }
    Some(Trailer {
        place,
        start,
        count,
    })
}

// Where the last line starts: after the last LF, if there is one.
fn line_start(lines: &[u8]) -> usize
    ensures value { result ≡ length lines.now - suffix_len not_lf lines.now }
    ensures within { result ≤ length lines.now }
{
    match lines.iter().rposition(|b| *b == LF) {
        Some(at) => at + 1,
        None => 0,
    }
}

fn find_trailer(book: &[u8]) -> Option<Trailer>
    ensures { trailer_told result ≡ trailer book.now }
{
    let [lines @ .., LF] = book else {
        return None;
    };
    if book.len() > MOST_BYTES {
        return None;
    }
    let place = line_start(lines);
    let (letter, words) = Words::first(Part {
        text: &lines[place..],
        place,
    });
    let line = read_line(letter, words, 0).ok()?;
    point(book, place, &line)
}

// Reads the lines between the cover and the trailer. Up to here the two tables go each by itself: so `read` is lent them, and blanks them after a refusal.
fn read_body(
    book: &[u8],
    last: &Trailer,
    activities: &mut [Activity],
    pairs: &mut [Pair],
) -> Result<Head, Refusal>
    requires { trailer book.now ≡ trailer_told (Some last.now) }
    ensures { Reads (reading (sizes activities.old pairs.old) book.now) activities.old pairs.old result activities.new pairs.new }
{
    let body = Part {
        text: &book[last.start..last.place],
        place: last.start,
    };
    let mut reader = Reader::new(activities, pairs);
    // Counted by hand: the trailer's count is held against it after the loop, where an `enumerate` says nothing any more.
    let mut count = 0;
    for line in (Lines { left: body }) {
        reader.read(line)?;
        count += 1;
    }
    close(reader.sofar, count, last)
}

fn read_project(
    book: &[u8],
    activities: &mut [Activity],
    pairs: &mut [Pair],
) -> Result<Head, Refusal>
    ensures { Reads (reading (sizes activities.old pairs.old) book.now) activities.old pairs.old result activities.new pairs.new }
{
    let Some(trailer) = find_trailer(book) else {
        return Err(Refusal::NotABook);
    };
    read_body(book, &trailer, activities, pairs)
}

// Reads a book into the lent tables. Accepted, the first records of the tables are the project's and the others are as
// they were. Refused, both tables are blank.
pub fn read(book: &[u8], activities: &mut [Activity], pairs: &mut [Pair]) -> Result<Head, Refusal>
    ensures value { answer result ≡ head_answer (reading (sizes activities.old pairs.old) book.now) }
    ensures activities { activities.new ≡ activities_after (reading (sizes activities.old pairs.old) book.now) activities.old }
    ensures pairs { pairs.new ≡ pairs_after (reading (sizes activities.old pairs.old) book.now) pairs.old }
    ensures accepts { (p : Project) → Gave activities.old pairs.old result activities.new pairs.new p ↔ IsBook (sizes activities.old pairs.old) book.now p }
    ensures refuses { (n at : ℕ) → (answer result ≡ Err (refused n at)) ↔ Unread (sizes activities.old pairs.old) book.now n at }
    ensures blank { (e : Refused) → answer result ≡ Err e → (activities.new ≡ replicate (length activities.old) blank_activity) × (pairs.new ≡ replicate (length pairs.old) blank_pair) }
    ensures written { (p : Project) → Gave activities.old pairs.old result activities.new pairs.new p → (ls : List (List ℕ)) (count : ℕ) → Framed book.now [] ls count → written 0 p ≡ book.now }
{
    let answer = read_project(book, activities, pairs);
    if answer.is_err() {
        activities.fill(Activity::blank());
        pairs.fill(Pair::blank());
    }
    answer
}
