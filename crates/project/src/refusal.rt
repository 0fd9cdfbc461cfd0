// Why a call refuses. Each case has its number and its values in `Refusals.antt`, once for every contract.
ghost use Rattle.std.specs.Prelude.{◌≡◌, ◌++◌, Some, codes, decimal};
ghost use Rattle.project.specs.Refusals.{number, place};
ghost use Rattle.project.specs.declared.refusal.Refusal.TheVariants.{NoMemory};

use std::alloc::AllocError;
use std::fmt;

#[derive(Clone, Copy, Debug, PartialEq, Eq)]
pub enum Refusal {
    // The text is no book: too long, without a right trailer, or its trailer points to no line.
    NotABook,
    // A line is not of the form that its letter asks for.
    BadForm(usize),
    // A line stands where its kind may not.
    OutOfOrder(usize),
    // A capacity, a duration or a demand is over its limit.
    OverLimit(usize),
    // A pair's numbers are no two activities in their order, or it is a repeat, or a ninth OR predecessor.
    BadPair(usize),
    // One activity or pair more than a project or a lent table has room for.
    TooMany(usize),
    // The trailer counts other lines than there are, or there is no activity.
    WrongCount(usize),
    // The lent tables break the rules of a project.
    RulesBroken,
    // The lent bytes are too few.
    ShortBuffer,
    // The sink has a batch open already.
    SinkInUse,
    // The sink has no room for a clause; a call that posts many says which, from 1, and others say 0.
    NoRoom(usize),
    // The sink has no batch open.
    NoBatch,
    // The literals are none, or one of them is no literal.
    NotAClause,
    // There is no memory left.
    NoMemory,
}

impl Refusal {
    // The number that is printed. The project's rules fix it; the code itself goes by the cases.
    pub fn number(self) -> u32
        ensures { result ≡ number self }
    {
        match self {
            Refusal::NotABook => 1,
            Refusal::BadForm(_) => 2,
            Refusal::OutOfOrder(_) => 3,
            Refusal::OverLimit(_) => 4,
            Refusal::BadPair(_) => 5,
            Refusal::TooMany(_) => 6,
            Refusal::WrongCount(_) => 7,
            Refusal::RulesBroken => 8,
            Refusal::ShortBuffer => 9,
            Refusal::SinkInUse => 15,
            Refusal::NoRoom(_) => 16,
            Refusal::NoBatch => 23,
            Refusal::NotAClause => 24,
            Refusal::NoMemory => 99,
        }
    }

    // Where the fault is, and 0 for a case that names no place: the printed line has a place always.
    pub fn place(self) -> usize
        ensures { result ≡ place self }
    {
        match self {
            Refusal::BadForm(place)
            | Refusal::OutOfOrder(place)
            | Refusal::OverLimit(place)
            | Refusal::BadPair(place)
            | Refusal::TooMany(place)
            | Refusal::WrongCount(place)
            | Refusal::NoRoom(place) => place,
            _ => 0,
        }
    }
}

impl From<AllocError> for Refusal {
    ghost from_gives = { λ _ r. r ≡ NoMemory };

    fn from(_e: AllocError) -> Refusal {
        Refusal::NoMemory
    }
}

impl fmt::Display for Refusal {
    ghost output = { λ x. Some (codes "refused " ++ (decimal (number x) ++ (codes " at " ++ decimal (place x)))) };

    fn fmt<W: fmt::Write>(&self, f: &mut fmt::Formatter<W>) -> fmt::Result {
        let number = self.number();
        let place = self.place();
        write!(f, "refused {number} at {place}")
    }
}
