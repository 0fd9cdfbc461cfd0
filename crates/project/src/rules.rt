// The rules of a project, tested on a head and two lent tables with any contents.
ghost use Rattle.std.specs.Prelude.{◌≡◌, ◌≤◌, nat_le, T, [], ◌∷◌, ◌++◌, length, Decides};
ghost use Rattle.std.specs.List.{AllByRecursion, list_all, zip, enumerate_from};
ghost use Rattle.project.specs.Held.{AreSound, are_sound, project_in};
ghost use Rattle.project.specs.Project.{Once, Few, most_resources, Shaped, head_fits, capacities_fit, activities_fit, activity_fits, within, Proper, among, proper, follows, at_place, or_predecessors};

use crate::tables::{
    Activity, ActivityNumber, Head, Kind, MOST_ACTIVITIES, MOST_CAPACITY, MOST_DURATION,
    MOST_OR_PREDECESSORS, MOST_PAIRS, MOST_RESOURCES, Pair, Tables,
};

impl Tables<'_> {
    // Whether the tables keep every rule of a project. Records past the head's counts are not looked at.
    pub fn keeps_rules(self) -> bool
        ensures value { result ≡ are_sound self.entry }
        ensures decides { Decides result (AreSound self.entry) }
        ensures shaped { T result → Shaped (project_in self.entry) }
    {
        let head = self.head;
        self.head_fits()
            && capacities_fit(&head)
            && activities_fit(&head.capacities, &self.activities[..head.activities])
            && pairs_fit(head.activities, &self.pairs[..head.pairs])
    }

    fn head_fits(self) -> bool
        ensures { result ≡ head_fits self.entry.head self.entry.activities.now self.entry.pairs.now }
    {
        let head = self.head;
        1 <= head.activities
            && head.activities <= MOST_ACTIVITIES
            && head.activities <= self.activities.len()
            && head.resources <= MOST_RESOURCES
            && head.pairs <= MOST_PAIRS
            && head.pairs <= self.pairs.len()
    }
}

// Whether the capacities are within their limit, and those past the last resource 0.
fn capacities_fit(head: &Head) -> bool
    requires { head.now.resources ≤ most_resources }
    ensures { result ≡ capacities_fit head.now.resources head.now.capacities }
{
    let (used, unused) = head.capacities.split_at(head.resources);
    all_at_most(MOST_CAPACITY, used) && all_at_most(0, unused)
}

fn all_at_most(limit: u8, numbers: &[u8]) -> bool
    ensures { result ≡ list_all (λ n. nat_le n limit) numbers.now }
{
    numbers.iter().all(|number| *number <= limit)
}

// Whether each number is at most the one in its place.
fn each_within(numbers: &[u8; MOST_RESOURCES], limits: &[u8; MOST_RESOURCES]) -> bool
    ensures { result ≡ list_all (λ p. nat_le p.0 p.1) (zip numbers.now limits.now) }
{
    numbers
        .iter()
        .zip(limits)
        .all(|(number, limit)| number <= limit)
}

// Whether an activity's duration and demands are within their limits.
#[tactic(auto, using(crate::proofs::Places::within_zip))]
fn activity_fits(activity: &Activity, capacities: &[u8; MOST_RESOURCES]) -> bool
    ensures value { result ≡ activity_fits capacities.now activity.now }
    ensures shaped { length activity.now.demands ≡ most_resources }
{
    activity.duration <= MOST_DURATION && each_within(&activity.demands, capacities)
}

fn activities_fit(capacities: &[u8; MOST_RESOURCES], activities: &[Activity]) -> bool
    ensures value { result ≡ activities_fit capacities.now activities.now }
    ensures shaped { T result → AllByRecursion (λ a. length a.demands ≡ most_resources) activities.now }
{
    activities
        .iter()
        .all(|activity| activity_fits(activity, capacities))
}

// Whether a pair has a kind and names two of so many activities, the lower first.
pub fn is_proper(pair: &Pair, activities: usize) -> bool
    ensures value { result ≡ proper activities pair.now }
    ensures decides { Decides result (Proper activities pair.now) }
{
    pair.kind != Kind::Blank
        && 1 <= pair.first
        && pair.first < pair.second
        && usize::from(pair.second) <= activities
}

// The firsts are told apart before the rest: they differ nearly always, and the kinds do not.
fn is_among(pair: &Pair, pairs: &[Pair]) -> bool
    ensures { result ≡ among pair.now pairs.now }
{
    pairs
        .iter()
        .any(|other| other.first == pair.first && *other == *pair)
}

// The number of an activity is told apart before the kind, for the same reason.
fn or_predecessors(activity: ActivityNumber, pairs: &[Pair]) -> usize
    ensures { result ≡ or_predecessors activity pairs.now }
{
    pairs
        .iter()
        .filter(|pair| pair.second == activity && pair.kind == Kind::Or)
        .count()
}

// Whether a pair can follow those before it: it is no repeat, and no OR predecessor too many.
pub fn can_follow(pair: &Pair, before: &[Pair]) -> bool
    ensures value { result ≡ follows before.now pair.now }
    ensures decides { Once before.now → Few before.now → Decides result (Once (before.now ++ pair.now ∷ []) × Few (before.now ++ pair.now ∷ [])) }
{
    !is_among(pair, before)
        && (pair.kind != Kind::Or || or_predecessors(pair.second, before) < MOST_OR_PREDECESSORS)
}

fn pairs_fit(activities: usize, pairs: &[Pair]) -> bool
    ensures { result ≡ list_all (at_place activities pairs.now) (enumerate_from 0 pairs.now) }
{
    pairs.iter().enumerate().all(|(q, pair)| is_proper(pair, activities)
        && can_follow(pair, &pairs[..q]))
}
