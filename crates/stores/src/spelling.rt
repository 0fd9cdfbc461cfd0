// How clauses are spelled in the elements of a memory.
ghost use Rattle.std.specs.Prelude.{◌≡◌, ◌-◌, ◌^◌, min, length, replicate};
ghost use Rattle.sinks.specs.Ledgers.{price};
ghost use Rattle.stores.specs.Scripts.{Legible, Script};

use sinks::clause::price;

pub trait Spelling {
    // What a memory is made of.
    type Element: Copy;

    ghost script: { Script Self.Element };

    // How many elements a clause takes. A slice may have so many literals that this fits no number: then it is the largest, which no memory has
    // room for.
    fn length(clause: &[i32]) -> usize
        ensures { result ≡ min (length (script.spell clause.now)) (2 ^ 64 - 1) };

    // What a clause costs, which is its length; what is no clause has no cost. Where telling the length is a pass over the numbers, one that tests them as
    // it goes saves another, and ends at the first number that is no literal.
    fn price(clause: &[i32]) -> Option<usize>
        ensures { result ≡ price clause.now (min (length (script.spell clause.now)) (2 ^ 64 - 1)) }
    {
        price(clause, Self::length(clause))
    }

    // Writes a clause into memory that it fills. Of memory that is longer or shorter nothing is said.
    fn write(memory: &mut [Self::Element], clause: &[i32])
        ensures { length memory.old ≡ length (script.spell clause.now) → memory.new ≡ script.spell clause.now };

    // Blanks memory. Each spelling fills its own: one function for all would be a loop, since `fill` asks that an element's clones are known to equal it.
    fn wipe(memory: &mut [Self::Element])
        ensures { memory.new ≡ replicate (length memory.old) script.blank };

    // What was spelled is read back.
    ghost legible: { Legible script };
}
