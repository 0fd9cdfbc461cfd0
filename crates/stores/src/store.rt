// A sink that spells its clauses in memory of its own.
ghost use Rattle.std.specs.Prelude.{◌≡◌, List, ◌++◌, ℤ, vec_len};
ghost use Rattle.sinks.specs.Calls.{Empty};
ghost use Rattle.sinks.specs.Meanings.{New, Wide};
ghost use Rattle.stores.specs.Scripts.{page};
ghost use Rattle.stores.specs.Memories.{Agrees};

use crate::spelling::Spelling;
use project::refusal::Refusal;
use sinks::ledger::Ledger;
use sinks::sink::Sink;
use std::marker::PhantomData;

// The clauses stand one after the other from the memory's front on, and what is left after them is blank. The ledger's room tells where they end, for
// the memory is fixed, and handed back whole.
#[derive(Drop)]
pub struct Store<S: Spelling> {
    memory: Vec<S::Element>,
    ledger: Ledger,
    spelling: PhantomData<S>,
    ghost sound: { Agrees S.script memory.items ledger },
}

// The token of an open batch; only opening makes one. It is a type of this sink's own, so that nothing outside this file can make it.
pub struct StoreBatch<S: Spelling> {
    seal: PhantomData<S>,
}

impl<S: Spelling> Store<S> {
    ghost use Rattle.stores.specs.StoreMeaning.{meaning_of, RecordedIn};

    // A sink over this memory, which is emptied.
    pub fn new(mut memory: Vec<S::Element>) -> Store<S>
        ensures fresh { New (vec_len memory) (meaning_of result) }
        ensures order { Empty (RecordedIn result) }
        ensures wide { Wide (meaning_of result) }
    {
        S::wipe(&mut memory);
        let ledger = Ledger::new(memory.len());
        Store {
            memory,
            ledger,
            spelling: PhantomData,
        }
    }

    // Gives the memory back: the clauses in their order, then blanks to the end.
    pub fn into_memory(self) -> Vec<S::Element>
        ensures same { result ≡ self.memory }
        ensures holds { result.items ≡ page S.script (meaning_of self).room (S.script.spelled self.memory.items) }
        ensures order { (before since : List (List ℤ)) → RecordedIn self before since → result.items ≡ page S.script (meaning_of self).room (before ++ since) }
    {
        let Store { memory, .. } = self;
        memory
    }
}

// As of the counter, most of these calls only hand on to the ledger.
impl<S: Spelling> Sink for Store<S> {
    type Batch = StoreBatch<S>;

    ghost use Rattle.stores.specs.StoreMeaning.{meaning_of, RecordedIn};

    ghost known = { λ s. (meaning_of s).known };

    ghost admitted = { λ s. (meaning_of s).admitted };

    ghost count = { λ s. (meaning_of s).count };

    ghost room = { λ s. (meaning_of s).room };

    ghost cost = { λ s. (meaning_of s).cost };

    ghost batch = { λ s. (meaning_of s).batch };

    ghost added = { λ s. RecordedIn s };

    fn open(&mut self) -> Result<StoreBatch<S>, Refusal> {
        self.ledger.open()?;
        Ok(StoreBatch { seal: PhantomData })
    }

    fn add(&mut self, clause: &[i32]) -> Result<(), Refusal> {
        let size = self.memory.len();
        let start = size - self.ledger.room();
        self.ledger.charge(S::price(clause))?;
        let end = size - self.ledger.room();
        S::write(&mut self.memory[start..end], clause);
        Ok(())
    }

    fn keep(&mut self, token: StoreBatch<S>) -> Result<(), Refusal> {
        let StoreBatch { seal: _ } = token;
        self.ledger.keep()
    }

    fn strike(&mut self, token: StoreBatch<S>) -> Result<(), Refusal> {
        let StoreBatch { seal: _ } = token;
        let size = self.memory.len();
        let end = size - self.ledger.room();
        self.ledger.strike()?;
        let start = size - self.ledger.room();
        S::wipe(&mut self.memory[start..end]);
        Ok(())
    }

    fn count(&self) -> u32 {
        self.ledger.count()
    }

    fn room(&self) -> usize {
        self.ledger.room()
    }

    fn is_open(&self) -> bool {
        self.ledger.is_open()
    }
}
