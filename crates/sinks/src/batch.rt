// Many clauses in one batch.
ghost use Rattle.std.specs.Prelude.{◌≡◌, true, false, ◌↔◌, Err};
ghost use Rattle.project.specs.Refusals.{Refused};
ghost use Rattle.sinks.specs.Meanings.{is_open};
ghost use Rattle.sinks.specs.Calls.{Does, Untouched, accepted, verdict};
ghost use Rattle.sinks.specs.Batches.{AddAll, Appends, Grown, Intact, KeepsWhole, Stops, StrikesWhole, Takes, held, means};

use crate::sink::Sink;
use project::refusal::Refusal;

// Adds all of the clauses, in a batch of their own, or none. The first refusal strikes the batch, and is the answer.
pub fn add_all<S: Sink>(sink: &mut S, clauses: &[&[i32]]) -> Result<(), Refusal>
    ensures meaning { AddAll (held clauses.now) result (means S.Sink sink.old) (means S.Sink sink.new) }
    ensures accepts { (verdict result ≡ accepted) ↔ ((is_open (S.Sink.batch sink.old) ≡ false) × Takes (held clauses.now) (means S.Sink sink.old)) }
    ensures stops { (x : Refused) → verdict result ≡ Err x → is_open (S.Sink.batch sink.old) ≡ false → Stops (held clauses.now) (means S.Sink sink.old) x }
    ensures order { Does result (Grown (held clauses.now) (S.Sink.added sink.old) (S.Sink.added sink.new)) (Intact (S.Sink.added sink.old) (S.Sink.added sink.new)) }
    ensures untouched { is_open (S.Sink.batch sink.old) ≡ true → Untouched (S.Sink.added sink.old) (S.Sink.added sink.new) }
    ensures append { Appends S.Sink }
    ensures all { KeepsWhole S.Sink }
    ensures none { StrikesWhole S.Sink }
{
    let token = sink.open()?;
    for clause in clauses {
        if let Err(refusal) = sink.add(clause) {
            // The batch is open, so this is not refused.
            let _ = sink.strike(token);
            return Err(refusal);
        }
    }
    sink.keep(token)
}
