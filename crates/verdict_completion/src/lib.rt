// Whether a reading that is decided up to a long rest can be completed, what it is asked of, and how a rest or a week changes what is left to the later
// rests. What is said of it stands in specs/.
#![tactic(auto)]

ghost use Rattle.std.specs.Prelude.{◌≡◌, ◌≤◌, ◌<◌};
ghost use Rattle.rules.specs.ReadingRules.{shortened_at_most, weekly_at_least, regular_at_least};
ghost use Rattle.verdict_completion.specs.States.{fresh_counts, counted_more, start_state, pair_kept, next_week, after_daily, after_weekly};
ghost use Rattle.verdict_completion.specs.Better.{Small, best_state};

mod course;

pub use course::{Course, LongRests};

// An outstanding reduction is a word: so many units of the week at whose start it is due, and the minutes. 0 is none.
pub const REDUCTION_UNIT: u32 = 2048;

// The weekly rests counted in a week, as far as rule 11 asks for them: all of them, and the regular ones.
#[derive(Clone, Copy, Debug, PartialEq, Eq)]
pub struct Counts {
    pub weekly: u32,
    pub regular: u32,
}

impl Counts {
    // A week before any rest is counted in it.
    fn fresh(rest: bool) -> Counts
        ensures { result ≡ fresh_counts rest }
    {
        Counts {
            weekly: u32::from(rest),
            regular: u32::from(rest),
        }
    }

    // A weekly rest more is counted, regular or not.
    fn with_one_more(self, rest: bool, regular: bool) -> Counts
        requires { (self.weekly ≤ weekly_at_least) × (self.regular ≤ regular_at_least) }
        ensures { result ≡ counted_more rest regular self }
    {
        if rest {
            return self;
        }
        Counts {
            weekly: rules_items::WEEKLY_AT_LEAST.min(self.weekly + 1),
            regular: rules_items::REGULAR_AT_LEAST.min(self.regular + u32::from(regular)),
        }
    }
}

// The end of the last weekly rest, the shortened daily rests since, the week reached, and the rests counted in the week before it and in it.
#[derive(Clone, Copy, Debug, PartialEq, Eq)]
pub struct State {
    pub ended: u32,
    pub short: u32,
    pub week: u32,
    pub before: Counts,
    pub current: Counts,
}

impl State {
    // Before the first rest.
    pub fn start(rest: bool) -> State
        ensures { result ≡ start_state rest }
    {
        State {
            ended: 0,
            short: 0,
            week: 0,
            before: Counts {
                weekly: 0,
                regular: 0,
            },
            current: Counts::fresh(rest),
        }
    }

    // The best state there is before a rest that starts at `start`.
    pub fn best(start: u32) -> State
        ensures { result ≡ best_state start }
    {
        let full = Counts {
            weekly: rules_items::WEEKLY_AT_LEAST,
            regular: rules_items::REGULAR_AT_LEAST,
        };
        State {
            ended: start,
            short: 0,
            week: start / recording::WEEK_MINUTES,
            before: full,
            current: full,
        }
    }

    // Rule 11 of the week before and the week reached.
    pub fn keeps_pair(self) -> bool
        requires { Small self }
        ensures { result ≡ pair_kept self }
    {
        self.week == 0
            || (rules_items::WEEKLY_AT_LEAST <= self.before.weekly + self.current.weekly
                && rules_items::REGULAR_AT_LEAST <= self.before.regular + self.current.regular)
    }

    // The state in the next week, of rest minutes only or not.
    pub fn in_next_week(self, rest: bool) -> State
        requires { self.week < 255 }
        ensures { result ≡ next_week rest self }
    {
        State {
            week: self.week + 1,
            before: self.current,
            current: Counts::fresh(rest),
            ..self
        }
    }

    // After a daily rest, shortened or not.
    pub fn after_daily(self, short: bool) -> State
        requires { self.short ≤ shortened_at_most }
        ensures { result ≡ after_daily short self }
    {
        State {
            short: self.short + u32::from(short),
            ..self
        }
    }

    // After a weekly rest, regular or not, that ends at `end` and is counted in the week reached, of rest minutes only or not.
    pub fn after_weekly(self, rest: bool, regular: bool, end: u32) -> State
        requires { Small self }
        ensures { result ≡ after_weekly rest regular end self }
    {
        State {
            ended: end,
            short: 0,
            current: self.current.with_one_more(rest, regular),
            ..self
        }
    }
}
