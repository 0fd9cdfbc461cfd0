// The ledger that each of our sinks keeps: its clauses counted, its room, and both as they stood when the batch was opened. It decides what is
// refused, so that all sinks refuse alike.
ghost use Rattle.std.specs.Prelude.{◌≡◌, is_some};
ghost use Rattle.sinks.specs.Calls.{Ends};
ghost use Rattle.sinks.specs.Ledgers.{charged, fresh, kept, may_charge, may_close, may_open, restored, with_opening};

use project::refusal::Refusal;

// At this count no clause fits.
pub const MOST_CLAUSES: u32 = 2_000_000_000;

#[derive(Clone, Copy)]
pub struct Tally {
    count: u32,
    free: usize,
}

#[derive(Drop)]
pub struct Ledger {
    tally: Tally,
    opening: Option<Tally>,
}

impl Ledger {
    pub fn new(room: usize) -> Ledger
        ensures { result ≡ fresh room }
    {
        Ledger {
            tally: Tally {
                count: 0,
                free: room,
            },
            opening: None,
        }
    }

    pub fn count(&self) -> u32
        ensures { result ≡ self.now.tally.count }
    {
        self.tally.count
    }

    pub fn room(&self) -> usize
        ensures { result ≡ self.now.tally.free }
    {
        self.tally.free
    }

    pub fn is_open(&self) -> bool
        ensures { result ≡ is_some self.now.opening }
    {
        self.opening.is_some()
    }

    // Remembers how it stands, for a batch that is opened.
    pub fn open(&mut self) -> Result<(), Refusal>
        ensures { Ends result (may_open self.old) (self.new ≡ with_opening self.old) (self.new ≡ self.old) }
    {
        if self.opening.is_some() {
            return Err(Refusal::SinkInUse);
        }
        self.opening = Some(self.tally);
        Ok(())
    }

    // Counts one clause and takes its cost off the room. What is no clause has no cost.
    pub fn charge(&mut self, cost: Option<usize>) -> Result<(), Refusal>
        ensures { Ends result (may_charge cost self.old) (self.new ≡ charged cost self.old) (self.new ≡ self.old) }
    {
        if self.opening.is_none() {
            return Err(Refusal::NoBatch);
        }
        let cost = cost.ok_or(Refusal::NotAClause)?;
        let Tally { count, free } = self.tally;
        if cost > free || count >= MOST_CLAUSES {
            // A sink's own calls name no place, for which 0 is printed.
            return Err(Refusal::NoRoom(0));
        }
        self.tally = Tally {
            count: count + 1,
            free: free - cost,
        };
        Ok(())
    }

    // Forgets how it stood when the batch was opened.
    pub fn keep(&mut self) -> Result<(), Refusal>
        ensures { Ends result (may_close self.old) (self.new ≡ kept self.old) (self.new ≡ self.old) }
    {
        self.opening.take().ok_or(Refusal::NoBatch)?;
        Ok(())
    }

    // Stands again as when the batch was opened.
    pub fn strike(&mut self) -> Result<(), Refusal>
        ensures { Ends result (may_close self.old) (self.new ≡ restored self.old) (self.new ≡ self.old) }
    {
        self.tally = self.opening.take().ok_or(Refusal::NoBatch)?;
        Ok(())
    }
}
