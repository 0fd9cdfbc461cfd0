// What the program does with a book, as a function from bytes to bytes.
#![tactic(auto)]

ghost use Rattle.std.specs.Prelude.{◌≡◌, ◌≤◌, length};
ghost use Rattle.project.specs.Project.{most_activities, most_pairs};
ghost use Rattle.planner.specs.Response.{Responds, Means, Rewrites, response};

use project::refusal::Refusal;
use project::tables::{Activity, MOST_ACTIVITIES, MOST_PAIRS, Pair, Tables};
use std::alloc::Global;

// Reads a book into the tables, and writes it anew, without its cover, into the lent bytes. Answers how many it wrote. The tables
// are lent each by itself, as the reader takes them.
fn rewrite(
    text: &[u8],
    activities: &mut [Activity],
    pairs: &mut [Pair],
    out: &mut [u8],
) -> Result<usize, Refusal>
    requires activities { length activities.old ≡ most_activities }
    requires pairs { length pairs.old ≡ most_pairs }
    requires room { length text.now ≤ length out.old }
    ensures { Rewrites (response text.now) out.old result out.new }
{
    let head = book::read(text, activities, pairs)?;
    let tables = Tables {
        head,
        activities,
        pairs,
    };
    book::write(tables, out)
}

// Answers a book written anew without its cover, or why it is refused.
pub fn respond(heap: Global, text: &[u8]) -> Result<Vec<u8>, Refusal>
    ensures value { Responds text.now result }
    ensures means { Means text.now result }
{
    let mut activities = vec![in heap; Activity::blank(); MOST_ACTIVITIES]?;
    let mut pairs = vec![in heap; Pair::blank(); MOST_PAIRS]?;
    let mut out = vec![in heap; 0u8; text.len()]?;
    let length = rewrite(text, &mut activities, &mut pairs, &mut out)?;
    out.truncate(length);
    Ok(out)
}
