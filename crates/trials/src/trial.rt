// One case: a book is read into tables that hold old records, and written back.
use crate::packed::{pack, unpack};
use anyhow::{Context, anyhow};
use project::refusal::Refusal;
use project::tables::{Activity, Head, Kind, MOST_RESOURCES, Pair, Tables};
use std::alloc::{AllocError, Global};
use std::fmt;

const LONGEST_TABLE: usize = 400;

// The records that the tables are lent with, which no book can give.
const OLD_ACTIVITY: Activity = Activity {
    duration: 77,
    demands: [78; MOST_RESOURCES],
};

const OLD_PAIR: Pair = Pair {
    kind: Kind::Bi,
    first: 79,
    second: 78,
};

#[derive(Drop)]
pub struct Case {
    activities: usize,
    pairs: usize,
    book: Vec<u8>,
}

#[derive(Drop)]
pub enum Outcome {
    Accepted {
        head: Head,
        text: String,
        rest_kept: bool,
    },
    Refused {
        refusal: Refusal,
        blank: bool,
    },
    // The book was read, and the tables could not be written back.
    Unwritten(Refusal),
}

fn table_length(word: &str) -> anyhow::Result<usize> {
    let length = word.parse::<usize>()?;
    if length > LONGEST_TABLE {
        return Err(anyhow!("a table of more than 400 records"));
    }
    Ok(length)
}

// Whether each record from the given place on is this one.
fn rest_is<T: PartialEq>(records: &[T], from: usize, expected: &T) -> bool {
    records.iter().skip(from).all(|record| record == expected)
}

impl Case {
    pub(crate) fn parse(heap: Global, line: &str) -> anyhow::Result<Case> {
        let (activities, rest) = line
            .split_once(' ')
            .context("a case begins with two lengths")?;
        let (pairs, text) = rest.split_once(' ').context("a case has a text")?;
        Ok(Case {
            activities: table_length(activities)?,
            pairs: table_length(pairs)?,
            book: unpack(heap, text)?,
        })
    }

    pub(crate) fn run(&self, heap: Global) -> Result<Outcome, AllocError> {
        let mut activities = vec![in heap; OLD_ACTIVITY; self.activities]?;
        let mut pairs = vec![in heap; OLD_PAIR; self.pairs]?;
        match book::read(&self.book, &mut activities, &mut pairs) {
            Ok(head) => accepted(
                heap,
                Tables {
                    head,
                    activities: &activities,
                    pairs: &pairs,
                },
            ),
            Err(refusal) => Ok(Outcome::Refused {
                refusal,
                blank: rest_is(&activities, 0, &Activity::blank())
                    && rest_is(&pairs, 0, &Pair::blank()),
            }),
        }
    }
}

fn accepted(heap: Global, tables: Tables<'_>) -> Result<Outcome, AllocError> {
    let head = tables.head;
    let mut out = vec![in heap; 0u8; book::MOST_BYTES]?;
    match book::write(tables, &mut out) {
        Ok(length) => {
            out.truncate(length);
            Ok(Outcome::Accepted {
                head,
                text: pack(heap, &out)?,
                rest_kept: rest_is(tables.activities, head.activities, &OLD_ACTIVITY)
                    && rest_is(tables.pairs, head.pairs, &OLD_PAIR),
            })
        }
        Err(refusal) => Ok(Outcome::Unwritten(refusal)),
    }
}

impl fmt::Display for Outcome {
    fn fmt<W: fmt::Write>(&self, f: &mut fmt::Formatter<W>) -> fmt::Result {
        match self {
            Outcome::Accepted {
                head,
                text,
                rest_kept,
            } => {
                let activities = head.activities;
                let pairs = head.pairs;
                let resources = head.resources;
                let rest = if *rest_kept {
                    "rest-kept"
                } else {
                    "rest-changed"
                };
                write!(f, "ok {activities} {pairs} {resources} {text} {rest}")
            }
            Outcome::Refused { refusal, blank } => {
                let tables = if *blank { "blank" } else { "not-blank" };
                write!(f, "{refusal} {tables}")
            }
            Outcome::Unwritten(refusal) => write!(f, "unwritten: {refusal}"),
        }
    }
}
