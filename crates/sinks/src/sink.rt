// What a sink is: the calls that every sink has, told by what it means.
ghost use Rattle.std.specs.Prelude.{◌≡◌, ℕ, Bool, List, ℤ};
ghost use Rattle.std.proofs.Math.Option.{Option as Maybe};
ghost use Rattle.sinks.specs.Meanings.{Standing, is_open, turns};
ghost use Rattle.sinks.specs.Calls.{Add, Appended, Keep, Open, Orders, Reverted, Settled, Strike};

use project::refusal::Refusal;

// A sink takes clauses in batches. It means six things: the assignments that it knows, those that it admits, how many clauses it counts, its
// room, what each clause costs, and the open batch, if any, with what was admitted, counted and free when it was opened.
pub trait Sink {
    // The token of an open batch. Code over any sink can neither let it lapse nor copy it: who opens a batch keeps or strikes it, once. A sink's
    // own token should be neither `Drop` nor `Clone`, so that nobody can.
    type Batch;

    ghost known: { Self → (ℕ → Bool) → Type 0 };

    ghost admitted: { Self → (ℕ → Bool) → Type 0 };

    ghost count: { Self → ℕ };

    ghost room: { Self → ℕ };

    ghost cost: { Self → List ℤ → ℕ };

    ghost batch: { Self → Maybe Standing };

    // Beside the six: these clauses were added before the batch was opened, and these since, in this order. A sink that keeps no order may
    // let this hold always.
    ghost added: { Self → List (List ℤ) → List (List ℤ) → Type 0 };

    // Opens a batch; refused 15 where one is open.
    fn open(&mut self) -> Result<Self::Batch, Refusal>
        ensures meaning { turns (Open result) known admitted count room cost batch self.old self.new }
        ensures order { Orders result Settled (added self.old) (added self.new) };

    // Adds a clause to the open batch; refused 23 where none is open, 24 where it is no clause, 16 where it does not fit.
    fn add(&mut self, clause: &[i32]) -> Result<(), Refusal>
        ensures meaning { turns (Add clause.now result) known admitted count room cost batch self.old self.new }
        ensures order { Orders result (Appended clause.now) (added self.old) (added self.new) };

    // Closes the batch and keeps what was added; refused 23 where none is open.
    fn keep(&mut self, token: Self::Batch) -> Result<(), Refusal>
        ensures meaning { turns (Keep result) known admitted count room cost batch self.old self.new }
        ensures order { Orders result Settled (added self.old) (added self.new) };

    // Closes the batch and takes back what was added since it was opened; refused 23 where none is open.
    fn strike(&mut self, token: Self::Batch) -> Result<(), Refusal>
        ensures meaning { turns (Strike result) known admitted count room cost batch self.old self.new }
        ensures order { Orders result Reverted (added self.old) (added self.new) };

    fn count(&self) -> u32
        ensures { result ≡ count self.now };

    fn room(&self) -> usize
        ensures { result ≡ room self.now };

    fn is_open(&self) -> bool
        ensures { result ≡ is_open (batch self.now) };
}
