// A sink that only counts: it tells beforehand how many clauses there will be and how many cells they take.
ghost use Rattle.sinks.specs.Counters.{counter_room};
ghost use Rattle.sinks.specs.Meanings.{New};

use crate::clause::price;
use crate::ledger::Ledger;
use crate::sink::Sink;
use project::refusal::Refusal;

// The room of a new counter.
pub const COUNTER_ROOM: usize = 2_000_000_000;

#[derive(Drop)]
pub struct Counter {
    ledger: Ledger,
}

// The token of an open batch; only opening makes one. It is a type of this sink's own, so that nothing outside this file can make it.
pub struct CounterBatch {
    seal: (),
}

impl Counter {
    ghost use Rattle.sinks.specs.CounterMeaning.{meaning_of};

    pub fn new() -> Counter
        ensures { New counter_room (meaning_of result) }
    {
        Counter {
            ledger: Ledger::new(COUNTER_ROOM),
        }
    }
}

// Most of these calls only hand on to the ledger, as those of every sink with one do. But what they mean differs from sink to sink, so each is proved, and
// code shared by all would be proved as often.
impl Sink for Counter {
    type Batch = CounterBatch;

    ghost use Rattle.sinks.specs.CounterMeaning.{meaning_of};

    ghost known = { λ s. (meaning_of s).known };

    ghost admitted = { λ s. (meaning_of s).admitted };

    ghost count = { λ s. (meaning_of s).count };

    ghost room = { λ s. (meaning_of s).room };

    ghost cost = { λ s. (meaning_of s).cost };

    ghost batch = { λ s. (meaning_of s).batch };

    ghost added = { λ _ _ _. Unit {0} };

    fn open(&mut self) -> Result<CounterBatch, Refusal> {
        self.ledger.open()?;
        Ok(CounterBatch { seal: () })
    }

    fn add(&mut self, clause: &[i32]) -> Result<(), Refusal> {
        self.ledger.charge(price(clause, clause.len() + 1))
    }

    fn keep(&mut self, token: CounterBatch) -> Result<(), Refusal> {
        let CounterBatch { seal: _ } = token;
        self.ledger.keep()
    }

    fn strike(&mut self, token: CounterBatch) -> Result<(), Refusal> {
        let CounterBatch { seal: _ } = token;
        self.ledger.strike()
    }

    fn count(&self) -> u32 {
        self.ledger.count()
    }

    fn room(&self) -> usize {
        self.ledger.room()
    }

    fn is_open(&self) -> bool {
        self.ledger.is_open()
    }
}
