// The records of a project, which stand in tables that the caller lends, and the head that goes with them.
ghost use Rattle.std.specs.Prelude.{◌≡◌};
ghost use Rattle.project.specs.Project.{blank_activity, blank_pair};

// The limits of a project.
pub const MOST_ACTIVITIES: usize = 62;

pub const MOST_RESOURCES: usize = 4;

pub const MOST_CAPACITY: u8 = 50;

pub const MOST_DURATION: u8 = 60;

pub const MOST_PAIRS: usize = 256;

pub const MOST_OR_PREDECESSORS: usize = 8;

// An activity's number, counted from 1.
pub type ActivityNumber = u8;

// How long an activity takes, and how much of each resource it needs while it is at work.
#[derive(Clone, Copy, Debug, PartialEq, Eq)]
pub struct Activity {
    pub duration: u8,
    pub demands: [u8; MOST_RESOURCES],
}

impl Activity {
    // The zeroed record.
    pub const fn blank() -> Activity
        ensures { result ≡ blank_activity }
    {
        Activity {
            duration: 0,
            demands: [0; MOST_RESOURCES],
        }
    }
}

// What a pair asks of its two activities.
#[derive(Clone, Copy, Debug, PartialEq, Eq)]
pub enum Kind {
    // The kind of a zeroed record, which no project has. It is a case, and no Option round the others: each kind of a project's pair would then have to be
    // unwrapped.
    Blank,
    // The first finishes no later than the second starts.
    And,
    // Of the firsts of all such pairs with this second, one finishes no later than it starts.
    Or,
    // The two are never at work in the same period.
    Bi,
}

#[derive(Clone, Copy, Debug, PartialEq, Eq)]
pub struct Pair {
    pub kind: Kind,
    pub first: ActivityNumber,
    pub second: ActivityNumber,
}

impl Pair {
    // The zeroed record.
    pub const fn blank() -> Pair
        ensures { result ≡ blank_pair }
    {
        Pair {
            kind: Kind::Blank,
            first: 0,
            second: 0,
        }
    }
}

// How many activities, resources and pairs a project has, and the capacities of its resources. The capacities past the
// last resource are 0. The counts stand beside the tables since these are lent, and may be longer.
#[derive(Clone, Copy, Debug, PartialEq, Eq)]
pub struct Head {
    pub activities: usize,
    pub resources: usize,
    pub capacities: [u8; MOST_RESOURCES],
    pub pairs: usize,
}

// A project as it stands in two tables: the first records of each are its own, as many as the head says.
#[derive(Clone, Copy)]
pub struct Tables<'t> {
    pub head: Head,
    pub activities: &'t [Activity],
    pub pairs: &'t [Pair],
}
