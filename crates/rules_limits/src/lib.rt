// The limits of articles 6(1), 6(2), 6(3), 7 and 8(2), which are rules 2, 3, 4, 1 and 5: what a part of a run adds to the account of each rule, and what
// it breaks.
#![tactic(auto)]

ghost use Rattle.std.specs.Prelude.{◌≡◌, ◌+◌, ◌≤◌};
ghost use Rattle.recording.specs.Words.{code_of};
ghost use Rattle.recording.specs.Operations.{total_at_most};
ghost use Rattle.rules.specs.Numbers.{rule_or_none, place_or_none};
ghost use Rattle.rules.specs.Fixed.{cleared, rested, either_broken, smallest_rule, first_article};
ghost use Rattle.rules_limits.specs.Account.{day_after, week_next, broken_at, first_break, first_numbered, opening};
ghost use Rattle.rules_limits.specs.Parts.{driving_of, day_more, week_more, accumulated_more};

use recording::{Activity, Run};
use rules::{Accumulated, Article, Breaches, Rule};

/// The day that runs: its start P, its driving, and how many days that began in its week were extended.
#[derive(Clone, Copy, Debug, PartialEq, Eq)]
pub struct Day {
    pub start: u32,
    pub driving: u32,
    pub extended: u32,
}

/// The week that runs: its end, its driving, and the driving of the week before.
#[derive(Clone, Copy, Debug, PartialEq, Eq)]
pub struct Week {
    pub end: u32,
    pub driving: u32,
    pub last: u32,
}

/// A breach of a fixed rule: the length of the shortest stretch that breaks it, and that rule.
#[derive(Clone, Copy, Debug, PartialEq, Eq)]
pub struct Break {
    pub at: u32,
    pub rule: Rule,
}

/// The same with the rule by its number, which is 0 where nothing is broken.
#[derive(Clone, Copy, Debug, PartialEq, Eq)]
pub struct NumberedBreak {
    pub at: u32,
    pub rule: u32,
}

// That its numbers stay within a recording's is said by `Bounded` where it is asked for: a ghost field would stand in each definition that says a minute.
/// The account of a stretch: the minute reached, where the rest under way started or one could start, the account of each rule,
/// which rules are broken, and the first breach, if there is one.
#[derive(Clone, Copy, Debug, PartialEq, Eq)]
pub struct Account {
    pub now: u32,
    pub from: u32,
    pub day: Day,
    pub week: Week,
    pub accumulated: Accumulated,
    pub broken: Breaches,
    pub first: Option<Break>,
}

// Article 6(1), rule 2: a day's driving, that of an ordinary day, and how many days that begin in one week may exceed it.
const DAY: u32 = 600;

const ORDINARY_DAY: u32 = 540;

const EXTENDED_DAYS: u32 = 2;

// Article 6(2), rule 3: a week's driving.
const WEEK: u32 = 3360;

// Article 6(3), rule 4: that of two consecutive weeks.
const FORTNIGHT: u32 = 5400;

// Article 7, rule 1: a break, its two parts, and the driving between breaks.
const FULL_BREAK: u32 = 45;

const FIRST_PART: u32 = 15;

const SECOND_PART: u32 = 30;

const ACCUMULATED_AT_MOST: u32 = 270;

// Article 8(2), rule 5: from the end of a long rest to the next.
const DAY_LENGTH: u32 = 900;

/// How many minutes of a run are driving.
pub fn driving_in(run: Run) -> u32
    ensures { result ≡ driving_of (code_of run.activity) run.minutes }
{
    match run.activity {
        Activity::Driving => run.minutes,
        Activity::Rest | Activity::Availability | Activity::OtherWork => 0,
    }
}

/// How many of so many minutes of the activity of a code are driving. What is no code is no driving.
pub fn driving_of(activity: u32, minutes: u32) -> u32
    ensures { result ≡ driving_of activity minutes }
{
    driving_in(Run {
        activity: Activity::from_code(activity),
        minutes,
    })
}

impl Day {
    /// Articles 6(1) and 8(2): the day that runs after a rest of so many minutes that ended at a minute, in the week that ends at `end`.
    pub fn after_rest(self, minutes: u32, minute: u32, end: u32) -> Day
        requires { self.start ≤ total_at_most }
        ensures { result ≡ day_after minutes minute end self }
    {
        if minutes < recording::LONG_REST {
            return self;
        }
        let same_week = end <= self.start + recording::WEEK_MINUTES;
        Day {
            start: minute,
            driving: 0,
            extended: if same_week { self.extended } else { 0 },
        }
    }

    /// Article 6(1): the day with so many minutes of driving more. It is extended once, where it passes the driving of an ordinary day.
    pub fn after_driving(self, driven: u32) -> Day
        requires { (self.driving + driven ≤ total_at_most) × (self.extended ≤ total_at_most) }
        ensures { result ≡ day_more driven self }
    {
        let driving = self.driving + driven;
        let passes = self.driving <= ORDINARY_DAY && ORDINARY_DAY < driving;
        Day {
            driving,
            extended: self.extended + u32::from(passes),
            ..self
        }
    }
}

impl Week {
    /// Articles 6(2) and 6(3): the week with so many minutes of driving more.
    pub fn after_driving(self, driven: u32) -> Week
        requires { self.driving + driven ≤ total_at_most }
        ensures { result ≡ week_more driven self }
    {
        Week {
            driving: self.driving + driven,
            ..self
        }
    }

    /// The week that runs at a minute: the next where this one ends there.
    pub fn at_minute(self, minute: u32) -> Week
        requires { self.end ≤ total_at_most + total_at_most }
        ensures { result ≡ week_next minute self }
    {
        if minute != self.end {
            return self;
        }
        Week {
            end: self.end + recording::WEEK_MINUTES,
            driving: 0,
            last: self.driving,
        }
    }
}

// The driving sum and the breaches are types of crate rules, whose definitions go by them, so what follows are functions and no methods.

/// Article 7: the driving sum where it starts, and where it is cleared.
pub fn cleared_sum() -> Accumulated
    ensures { result ≡ cleared }
{
    Accumulated {
        sum: 0,
        split: false,
    }
}

/// Article 7: the driving sum after a rest of so many minutes.
pub fn rested_for(minutes: u32, accumulated: Accumulated) -> Accumulated
    ensures { result ≡ rested minutes accumulated }
{
    if FULL_BREAK <= minutes {
        return cleared_sum();
    }
    if minutes < FIRST_PART {
        return accumulated;
    }
    if accumulated.split {
        if minutes < SECOND_PART {
            return accumulated;
        }
        return cleared_sum();
    }
    if accumulated.sum == 0 {
        return accumulated;
    }
    Accumulated {
        split: true,
        ..accumulated
    }
}

/// Article 7: the driving sum with so many minutes more.
pub fn accumulated_more(driven: u32, accumulated: Accumulated) -> Accumulated
    requires { accumulated.sum + driven ≤ total_at_most }
    ensures { result ≡ accumulated_more driven accumulated }
{
    Accumulated {
        sum: accumulated.sum + driven,
        ..accumulated
    }
}

/// Which rules are broken at the minute that ends now.
pub fn broken_at(minute: u32, day: Day, week: Week, accumulated: Accumulated) -> Breaches
    requires { (day.start ≤ total_at_most) × (week.last ≤ total_at_most) × (week.driving ≤ total_at_most) }
    ensures { result ≡ broken_at minute day week accumulated }
{
    Breaches {
        daily: (DAY < day.driving) | (EXTENDED_DAYS < day.extended),
        weekly: WEEK < week.driving,
        fortnightly: FORTNIGHT < week.last + week.driving,
        breaks: ACCUMULATED_AT_MOST < accumulated.sum,
        rests: day.start + DAY_LENGTH < minute,
    }
}

/// The broken rule of the smallest number.
#[tactic(auto, unfolding(rules::specs::Fixed::smallest_rule))]
pub fn smallest_rule(broken: Breaches) -> Option<Rule>
    ensures { rule_or_none result ≡ smallest_rule broken }
{
    let Breaches {
        daily,
        weekly,
        fortnightly,
        breaks,
        rests,
    } = broken;
    match (breaks, daily, weekly, fortnightly, rests) {
        (true, _, _, _, _) => Some(Rule::AccumulatedDriving),
        (_, true, _, _, _) => Some(Rule::DailyDriving),
        (_, _, true, _, _) => Some(Rule::WeeklyDriving),
        (_, _, _, true, _) => Some(Rule::FortnightlyDriving),
        (_, _, _, _, true) => Some(Rule::DailyRest),
        _ => None,
    }
}

/// The first broken article in the regulation's order.
#[tactic(auto, unfolding(rules::specs::Fixed::first_article))]
pub fn first_article(broken: Breaches) -> Option<Article>
    ensures { place_or_none result ≡ first_article broken }
{
    let Breaches {
        daily,
        weekly,
        fortnightly,
        breaks,
        rests,
    } = broken;
    match (daily, weekly, fortnightly, breaks, rests) {
        (true, _, _, _, _) => Some(Article::DailyDriving),
        (_, true, _, _, _) => Some(Article::WeeklyDriving),
        (_, _, true, _, _) => Some(Article::FortnightlyDriving),
        (_, _, _, true, _) => Some(Article::Breaks),
        (_, _, _, _, true) => Some(Article::DailyRests),
        _ => None,
    }
}

/// What is broken, and the first breach, with what is broken at the minute that ends now; mostly nothing is.
pub fn breaches_after(
    broken: Breaches,
    first: Option<Break>,
    minute: u32,
    here: Breaches,
) -> (Breaches, Option<Break>)
    ensures broken { result.0 ≡ either_broken broken here }
    ensures first { result.1 ≡ first_break first minute (smallest_rule here) }
{
    let Some(rule) = smallest_rule(here) else {
        return (broken, first);
    };
    (broken | here, first.or(Some(Break { at: minute, rule })))
}

/// The same with the first breach by its rule's number.
pub fn breached_at(
    broken: Breaches,
    first: NumberedBreak,
    minute: u32,
    here: Breaches,
) -> (Breaches, NumberedBreak)
    ensures broken { result.0 ≡ either_broken broken here }
    ensures first { result.1 ≡ first_numbered first minute (smallest_rule here) }
{
    let rule = smallest_rule(here).map_or(0, u32::from);
    let first = if first.rule == 0 && rule != 0 {
        NumberedBreak { at: minute, rule }
    } else {
        first
    };
    (broken | here, first)
}

impl Account {
    /// The account of no minutes.
    pub fn opening() -> Account
        ensures { result ≡ opening }
    {
        Account {
            now: 0,
            from: 0,
            day: Day {
                start: 0,
                driving: 0,
                extended: 0,
            },
            week: Week {
                end: recording::WEEK_MINUTES,
                driving: 0,
                last: 0,
            },
            accumulated: cleared_sum(),
            broken: Breaches::default(),
            first: None,
        }
    }
}
