// A sink that holds clauses against one assignment.
ghost use Rattle.std.specs.Prelude.{◌≡◌, true, ◌↔◌};
ghost use Rattle.sinks.specs.Clauses.{holds, meets};
ghost use Rattle.sinks.specs.Judges.{given};
ghost use Rattle.sinks.specs.Meanings.{New};

use crate::clause::price;
use crate::ledger::Ledger;
use crate::sink::Sink;
use project::refusal::Refusal;

// The assignment is lent as bytes, one a variable: the byte v-1 is 1 where the variable v is true. Any other byte, and a missing one, is false.
#[derive(Drop)]
pub struct Judge<'a> {
    values: &'a [u8],
    // Whether the assignment meets all clauses, and whether it did when the batch was opened. That stands beside the ledger's opening, for the ledger is
    // that of all sinks, and a token, which does not name its judge, cannot carry it.
    met: bool,
    met_before: bool,
    ledger: Ledger,
}

// The token of an open batch; only opening makes one. It is a type of this sink's own, so that nothing outside this file can make it.
pub struct JudgeBatch {
    seal: (),
}

impl<'a> Judge<'a> {
    ghost use Rattle.sinks.specs.JudgeMeaning.{meaning_of};

    pub fn new(values: &'a [u8]) -> Judge<'a>
        ensures fresh { New 0 (meaning_of result) }
        ensures knows { result.values.now ≡ values.now }
    {
        Judge {
            values,
            met: true,
            met_before: true,
            ledger: Ledger::new(0),
        }
    }

    // Whether the assignment is admitted.
    pub fn admits(&self) -> bool
        ensures { (result ≡ true) ↔ (meaning_of self.now).admitted (given self.now.values.now) }
    {
        self.met
    }
}

// As of the counter, most of these calls only hand on to the ledger.
impl<'a> Sink for Judge<'a> {
    type Batch = JudgeBatch;

    ghost use Rattle.sinks.specs.JudgeMeaning.{meaning_of};

    ghost known = { λ s. (meaning_of s).known };

    ghost admitted = { λ s. (meaning_of s).admitted };

    ghost count = { λ s. (meaning_of s).count };

    ghost room = { λ s. (meaning_of s).room };

    ghost cost = { λ s. (meaning_of s).cost };

    ghost batch = { λ s. (meaning_of s).batch };

    ghost added = { λ _ _ _. Unit {0} };

    fn open(&mut self) -> Result<JudgeBatch, Refusal> {
        self.ledger.open()?;
        self.met_before = self.met;
        Ok(JudgeBatch { seal: () })
    }

    fn add(&mut self, clause: &[i32]) -> Result<(), Refusal> {
        self.ledger.charge(price(clause, 0))?;
        self.met &= is_met(self.values, clause);
        Ok(())
    }

    fn keep(&mut self, token: JudgeBatch) -> Result<(), Refusal> {
        let JudgeBatch { seal: _ } = token;
        self.ledger.keep()
    }

    fn strike(&mut self, token: JudgeBatch) -> Result<(), Refusal> {
        let JudgeBatch { seal: _ } = token;
        self.ledger.strike()?;
        self.met = self.met_before;
        Ok(())
    }

    fn count(&self) -> u32 {
        self.ledger.count()
    }

    fn room(&self) -> usize {
        self.ledger.room()
    }

    fn is_open(&self) -> bool {
        self.ledger.is_open()
    }
}

// Whether the assignment makes a variable true. There is no variable 0, so what this says of it matters to nobody.
fn value(values: &[u8], variable: usize) -> bool
    ensures { result ≡ given values.now variable }
{
    values.get(variable.saturating_sub(1)) == Some(&1)
}

// Whether the assignment makes a literal true. Rust has no `usize::from` of a `u32`, and a `try_from` would have a failure that cannot be.
fn is_true(values: &[u8], number: i32) -> bool
    ensures { result ≡ holds (given values.now) number }
{
    value(values, number.unsigned_abs() as usize) == (number >= 0)
}

// Whether the assignment makes one of the literals true.
fn is_met(values: &[u8], clause: &[i32]) -> bool
    ensures { result ≡ meets (given values.now) clause.now }
{
    clause.iter().any(|number| is_true(values, *number))
}
