// The breach of a recording without a lawful reading: its minute, searched day by day over the long rests, and its article.
#![tactic(auto)]

ghost use Rattle.std.specs.Prelude.{◌≡◌, ℕ, ◌+◌, ◌^◌, ◌≤◌, ◌<◌, length};
ghost use Rattle.recording.specs.Words.{minutes_of, code_of};
ghost use Rattle.recording.specs.Scan.{words_in};
ghost use Rattle.recording.specs.Operations.{total_at_most};
ghost use Rattle.rules.specs.Numbers.{number_of_article};
ghost use Rattle.rules.specs.Verdict.{breach_minute, verdict};
ghost use Rattle.rules_limits.specs.Account.{account_from, opening};
ghost use Rattle.rules.specs.Operations.{breached, finding_of};
ghost use Rattle.verdict_completion.specs.Completable.{at};
ghost use Rattle.verdict_sweep.specs.Sweep.{SameFronts};
ghost use Rattle.verdict_breach.specs.Verdicts.{Roomy, InFront, course_in, SaysWhether, ByRule, HasReading, Bound, AreAllRests, day_start, IsDayReadable};
ghost use Rattle.verdict_breach.specs.Verdicts.{IsLastDay, DayTop, Sooner, NextDemand, IsFirstWithout, active_in, NextActive};

use recording::{Activity, Recording, Run};
use rules::{Article, Rule};
use rules_limits::Break;
use verdict_completion::{Course, LongRests};
use verdict_sweep::{Ending, Fronts};

/// A breach: the length of the shortest stretch without a lawful reading, and its article.
#[derive(Clone, Copy, Debug, PartialEq, Eq)]
pub struct Breach {
    pub minute: u32,
    pub article: Article,
}

/// What is found of the long rests of a recording: how many there are, its judged end, the smallest fixed rule that it breaks, and the first such breach.
#[derive(Clone, Copy)]
pub struct Rests {
    pub count: usize,
    pub judged: u32,
    pub rule: Option<Rule>,
    pub first: Option<Break>,
}

/// The long rests of a recording into three slices: where each starts and ends, and its number.
pub fn rests_of(
    recording: Recording,
    starts: &mut [u32],
    ends: &mut [u32],
    nets: &mut [u32],
) -> Rests
    requires { Roomy (words_in recording) starts.old ends.old nets.old }
    ensures { InFront (words_in recording.entry) result starts.new ends.new nets.new }
{
    let found = rules_fixed::survey_of(recording, starts, ends, nets);
    Rests {
        count: found.place.count as usize,
        judged: found.place.from,
        rule: rules_limits::smallest_rule(found.account.broken),
        first: found.account.first,
    }
}

// Whether long rests, no more than so many, have a reading that keeps rules 6 to 11. The nogoods and the fronts are room for the search, of any length,
// here and in what follows.
fn some_reading_in<const RESTS: usize>(
    rests: &LongRests,
    nogoods: &mut [u32],
    fronts: &mut Fronts,
) -> Ending
    requires few { length rests.now.starts.now ≤ RESTS }
    requires room { RESTS ≤ 2 ^ 20 }
    ensures says { SaysWhether (course_in rests.now) result.yes }
    ensures lent { SameFronts fronts.old fronts.new }
{
    let none = [0u32; RESTS];
    let course = Course {
        rests: *rests,
        compensations: &none[..rests.starts.len()],
    };
    verdict_sweep::possible(&course, nogoods, fronts)
}

// Whether long rests have a reading that keeps rules 6 to 11.
fn some_reading(rests: &LongRests, nogoods: &mut [u32], fronts: &mut Fronts) -> Ending
    ensures says { SaysWhether (course_in rests.now) result.yes }
    ensures lent { SameFronts fronts.old fronts.new }
{
    if rests.starts.len() <= recording::SHORT_RESTS {
        return some_reading_in::<{ recording::SHORT_RESTS }>(rests, nogoods, fronts);
    }
    some_reading_in::<{ recording::LONG_RESTS }>(rests, nogoods, fronts)
}

/// Whether the long rests of a stretch have a lawful reading, by the smallest fixed rule that it breaks.
pub fn lawful_by(
    rests: &LongRests,
    rule: Option<Rule>,
    nogoods: &mut [u32],
    fronts: &mut Fronts,
) -> Ending
    ensures says { ByRule (course_in rests.now) rule result.yes }
    ensures lent { SameFronts fronts.old fronts.new }
{
    match rule {
        Some(_) => Ending {
            yes: false,
            at: rests.starts.len(),
        },
        None => some_reading(rests, nogoods, fronts),
    }
}

// The shortest stretch that has the first n long rests.
fn day_start(ends: &[u32], n: usize) -> u32
    requires { (n ≤ length ends.now) × ((i : ℕ) → i < length ends.now → at ends.now i ≤ total_at_most) }
    ensures { result ≡ day_start ends.now n }
{
    if n == 0 {
        return 0;
    }
    ends[n - 1] + 1
}

// Whether the shortest stretch with the first n long rests lies below a bound and has a reading that keeps rules 6 to 11.
fn day_readable(
    rests: &LongRests,
    bound: u32,
    n: usize,
    nogoods: &mut [u32],
    fronts: &mut Fronts,
) -> Ending
    requires { (bound ≤ total_at_most) × (n ≤ length rests.now.starts.now) }
    ensures says { IsDayReadable rests.now bound n result.yes }
    ensures lent { SameFronts fronts.old fronts.new }
{
    let from = day_start(rests.ends, n);
    if bound <= from {
        return Ending {
            yes: false,
            at: n.saturating_sub(2),
        };
    }
    let first = LongRests {
        starts: &rests.starts[..n],
        ends: &rests.ends[..n],
        nets: &rests.nets[..n],
        judged: from,
    };
    some_reading(&first, nogoods, fronts)
}

// A number between two others. So many rests as a guess can mostly be read, and two more cannot: the one between is asked first, and then the one beside
// it that lies between the two others; else the middle.
fn between(low: usize, high: usize, guess: usize) -> usize
    requires { (low + 1 < high) × (high ≤ 2000) }
    ensures { (low < result) × (result < high) }
{
    let middle = low + (high - low) / 2;
    if high <= guess {
        return middle;
    }
    let next = guess + 1;
    let first = if next <= low {
        next + 1
    } else if next < high {
        next
    } else {
        guess
    };
    if low < first && first < high {
        first
    } else {
        middle
    }
}

// After how many long rests the day begins in which the breach lies. Where the last sweep ran empty is asked first.
fn last_day(
    rests: &LongRests,
    bound: u32,
    guess: usize,
    nogoods: &mut [u32],
    fronts: &mut Fronts,
) -> usize
    requires { (bound ≤ total_at_most) × (0 < bound) }
    ensures last { IsLastDay rests.now bound result }
    ensures lent { SameFronts fronts.old fronts.new }
{
    let mut low = 0;
    let mut high = rests.starts.len() + 1;
    let mut hint = guess;
    // Halving: no chain says it more plainly.
    while 1 < high - low {
        let middle = between(low, high, hint);
        let asked = day_readable(rests, bound, middle, nogoods, fronts);
        if asked.yes {
            low = middle;
        } else {
            high = middle;
            hint = asked.at;
        }
    }
    low
}

// The stretch at which the long rest after the first n starts, or the last below a bound.
fn day_top(starts: &[u32], n: usize, bound: u32) -> u32
    requires { 0 < bound }
    ensures { DayTop starts.now n bound result }
{
    if n < starts.len() && starts[n] < bound {
        starts[n]
    } else {
        bound - 1
    }
}

// The first judged end past the gap that rule 10 allows after a weekly rest, where it is past s and before another; else that other.
fn gap_end(ended: u32, s: u32, other: u32) -> u32
    requires { ended ≤ total_at_most }
    ensures { Sooner ended s other result }
{
    let last = ended + rules_items::WEEKLY_GAP;
    if last < s {
        return other;
    }
    other.min(last + 1)
}

// The first judged end past s by which rules 8, 10 and 11 may ask more of rests with these ends.
fn next_demand(ends: &[u32], s: u32) -> u32
    requires { (s ≤ total_at_most) × ((i : ℕ) → i < length ends.now → at ends.now i ≤ total_at_most) }
    ensures { NextDemand ends.now s result }
{
    let week = s / recording::WEEK_MINUTES + 1;
    let mut next = gap_end(0, s, week * recording::WEEK_MINUTES);
    for &end in ends {
        next = gap_end(end, s, next);
    }
    next
}

// Of the judged ends past that of long rests and up to another, the first that leaves them without a reading, or the one past them.
fn first_without(rests: &LongRests, top: u32, nogoods: &mut [u32], fronts: &mut Fronts) -> u32
    requires { (rests.now.judged ≤ top) × (top ≤ total_at_most) }
    ensures first { IsFirstWithout rests.now top result }
    ensures lent { SameFronts fronts.old fronts.new }
{
    let mut judged = next_demand(rests.ends, rests.judged);
    // A walk in steps of its own length: no chain says it more plainly.
    while judged <= top {
        let later = LongRests {
            starts: rests.starts,
            ends: rests.ends,
            nets: rests.nets,
            judged,
        };
        let asked = some_reading(&later, nogoods, fronts);
        if !asked.yes {
            return judged;
        }
        judged = next_demand(rests.ends, judged);
    }
    top + 1
}

// Of the stretches from x on, the first that ends in a run of this activity, which has the minutes from one to another. There is none where the run is
// rest or ends before x.
fn active_in(activity: Activity, from: u32, to: u32, x: u32) -> Option<u32>
    requires { from ≤ total_at_most }
    ensures { result ≡ active_in (code_of activity) from to x }
{
    match activity {
        Activity::Rest => None,
        Activity::Availability | Activity::OtherWork | Activity::Driving => {
            let first = x.max(from + 1);
            if to < first { None } else { Some(first) }
        }
    }
}

// Of the stretches from x on, the first whose last minute is not rest, or the bound.
fn next_active(recording: Recording, x: u32, bound: u32) -> u32
    requires { (x ≤ bound) × (bound ≤ length (minutes_of (words_in recording))) }
    ensures { NextActive (minutes_of (words_in recording.entry)) x bound result }
{
    let run = Run::from(recording.head);
    if let Some(there) = active_in(run.activity, 0, run.minutes, x) {
        return there.min(bound);
    }
    let mut at = run.minutes;
    for &word in recording.words {
        let run = Run::from(word);
        let to = at + run.minutes;
        if let Some(there) = active_in(run.activity, at, to, x) {
            return there.min(bound);
        }
        at = to;
    }
    bound
}

// The least stretch without a lawful reading, up to one that has none.
fn least_without(
    recording: Recording,
    rests: &LongRests,
    bound: u32,
    guess: usize,
    nogoods: &mut [u32],
    fronts: &mut Fronts,
) -> u32
    requires { (AreAllRests (minutes_of (words_in recording)) rests.now) × (Bound (minutes_of (words_in recording)) bound) }
    ensures least { result ≡ breach_minute (minutes_of (words_in recording.entry)) }
    ensures lent { SameFronts fronts.old fronts.new }
{
    let n = last_day(rests, bound, guess, nogoods, fronts);
    let from = day_start(rests.ends, n);
    let top = day_top(rests.starts, n, bound);
    let first = LongRests {
        starts: &rests.starts[..n],
        ends: &rests.ends[..n],
        nets: &rests.nets[..n],
        judged: from,
    };
    let after = first_without(&first, top, nogoods, fronts);
    next_active(recording, after, bound)
}

/// The breach of a recording without a lawful reading, from its long rests and the first breach of a fixed rule.
pub fn breach_of(
    recording: Recording,
    rests: &LongRests,
    total: u32,
    first: Option<Break>,
    guess: usize,
    nogoods: &mut [u32],
    fronts: &mut Fronts,
) -> Breach
    requires { (AreAllRests (minutes_of (words_in recording)) rests.now) × (total ≡ length (minutes_of (words_in recording)))
        × (first ≡ (account_from opening (minutes_of (words_in recording))).first) × (HasReading (minutes_of (words_in recording)) → ⊥) }
    ensures breach { breached result.minute (number_of_article result.article) ≡ finding_of (verdict (minutes_of (words_in recording.entry))) }
    ensures lent { SameFronts fronts.old fronts.new }
{
    let Some(broken) = first else {
        let minute = least_without(recording, rests, total, guess, nogoods, fronts);
        return Breach {
            minute,
            article: Article::Rests,
        };
    };
    let minute = least_without(recording, rests, broken.at, guess, nogoods, fronts);
    if minute < broken.at {
        return Breach {
            minute,
            article: Article::Rests,
        };
    }
    Breach {
        minute,
        article: Article::from(broken.rule),
    }
}
