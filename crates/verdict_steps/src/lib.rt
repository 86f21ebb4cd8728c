// The steps of the search for a lawful reading: from rest to rest and from week to week, and what is outstanding.
#![tactic(auto)]

ghost use Rattle.std.specs.Prelude.{◌≡◌, ◌+◌, ◌-◌, ◌<◌, ◌≤◌, length, ltb};
ghost use Rattle.recording.specs.Tests.{pick};
ghost use Rattle.recording.specs.Weeks.{week, week_of, inside};
ghost use Rattle.rules.specs.Reading.{is_regular, reduction_of};
ghost use Rattle.rules.specs.declared.Kind.TheVariants.{Daily, Weekly};
ghost use Rattle.rules_items.specs.Items.{compensation_at_most, standing_for, span_at, spans_in, rest_weeks};
ghost use Rattle.verdict_completion.specs.States.{advance as advanced};
ghost use Rattle.verdict_completion.specs.Completable.{at, deadline_of, Overdue};
ghost use Rattle.verdict_completion.specs.Better.{Small};
ghost use Rattle.verdict_steps.specs.Steps.{Says, Fits, FirstFit, outstanding_by};

use rules::{Kind, Standing};
use rules_items::LongRest;
use verdict_completion::{LongRests, REDUCTION_UNIT, State};

// Whether the week w lies inside the long rest of index j, if there is one.
fn in_rest(rests: &LongRests, j: usize, w: u32) -> bool
    requires { w < 255 }
    ensures { result ≡ inside (week w) (span_at rests.now.starts.now rests.now.ends.now j) }
{
    if rests.starts.len() <= j {
        return false;
    }
    rules_items::holds_week(rests.starts[j], rests.ends[j], w)
}

// Whether the week w, between the starts of the long rests before j and of j, is one of rest minutes only.
fn rest_near(rests: &LongRests, j: usize, w: u32) -> bool
    requires { let starts = rests.now.starts.now in (j ≤ length starts) × (w < 255) × (0 < j → week_of (at starts (j - 1)) < w)
        × (j < length starts → w ≤ week_of (at starts j)) }
    ensures { let r = rests.now in result ≡ rest_weeks (spans_in r.starts.now r.ends.now (length r.starts.now)) w }
{
    in_rest(rests, j, w) || (j != 0 && in_rest(rests, j - 1, w))
}

// The state brought on to the week `to`, unless two weeks that are over break rule 11. The next long rest is that of index j.
pub fn advance(rests: &LongRests, j: usize, st: State, to: u32) -> Option<State>
    requires { let starts = rests.now.starts.now in (j ≤ length starts) × (to < 255) × Small st × (0 < j → week_of (at starts (j - 1)) ≤ st.week)
        × (j < length starts → to ≤ week_of (at starts j)) }
    ensures { let r = rests.now in result ≡ advanced (rest_weeks (spans_in r.starts.now r.ends.now (length r.starts.now))) (to - st.week) st }
{
    let mut here = st;
    while here.week < to {
        if !here.keeps_pair() {
            return None;
        }
        let rest = rest_near(rests, j, here.week + 1);
        here = here.in_next_week(rest);
    }
    Some(here)
}

// Whether there is a reduction that was due before t.
fn due_before(reduction: u32, t: u32) -> bool
    ensures { Says ((0 < reduction) × (deadline_of reduction < t)) result }
{
    reduction != 0 && t != 0 && reduction / REDUCTION_UNIT <= (t - 1) / recording::WEEK_MINUTES
}

// Whether a reduction is outstanding that was due before t.
#[tactic(auto, unfolding(verdict_completion::specs::Completable::Overdue))]
pub fn overdue(outstanding: &[u32], t: u32) -> bool
    ensures { Says (Overdue outstanding.now t) result }
{
    outstanding
        .iter()
        .any(|&reduction| due_before(reduction, t))
}

// Whether there is a reduction that fits into a rest of so many minutes, beside a compensation and what the rest needs itself.
fn compensable(reduction: u32, compensation: u32, minutes: u32) -> bool
    requires { compensation ≤ compensation_at_most }
    ensures { Says (Fits reduction compensation minutes) result }
{
    reduction != 0
        && rules_items::DAILY_NET + (compensation + reduction % REDUCTION_UNIT) <= minutes
}

// The index of the first reduction that fits.
pub fn candidate(outstanding: &[u32], compensation: u32, minutes: u32) -> Option<usize>
    requires { compensation ≤ compensation_at_most }
    ensures { FirstFit outstanding.now compensation minutes result }
{
    outstanding
        .iter()
        .position(|&reduction| compensable(reduction, compensation, minutes))
}

// Whether a daily rest of so many minutes, with a compensation, is shortened: `net` is the least net length at which it is not.
pub fn is_short(minutes: u32, net: u32, compensation: u32) -> bool
    requires { (net ≤ compensation_at_most) × (compensation ≤ compensation_at_most) }
    ensures { result ≡ ltb minutes (net + compensation) }
{
    minutes < net + compensation
}

// A long rest taken as daily.
pub fn as_daily(start: u32, end: u32) -> LongRest
    ensures { result.kind ≡ Daily }
{
    LongRest {
        start: start,
        end: end,
        kind: Kind::Daily,
    }
}

// A long rest with a compensation taken as weekly: regular, or reduced by what it lacks.
pub fn as_weekly(start: u32, end: u32, compensation: u32) -> LongRest
    requires { (start ≤ end) × (compensation ≤ compensation_at_most) }
    ensures { result.kind ≡ Weekly (standing_for (end - start) compensation) }
{
    let standing = rules_items::standing_of(end - start, compensation);
    LongRest {
        start: start,
        end: end,
        kind: Kind::Weekly(standing),
    }
}

// Whether a weekly rest is regular.
pub fn is_regular(standing: Standing) -> bool
    ensures { result ≡ is_regular (Weekly standing) }
{
    match standing {
        Standing::Regular => true,
        Standing::Reduced(_) => false,
    }
}

// The reduction of a weekly rest that is counted in week w.
pub fn outstanding_of(standing: Standing, w: u32) -> u32
    requires { (reduction_of (Weekly standing) ≤ compensation_at_most) × (w < 255) }
    ensures { result ≡ outstanding_by standing w }
{
    match standing {
        Standing::Regular => 0,
        Standing::Reduced(minutes) => (w + rules_items::WEEKS_TO_COMPENSATE) * REDUCTION_UNIT
            + minutes,
    }
}

// The reduction, or 0 where it is due after s and needs nothing.
pub fn needed(reduction: u32, s: u32) -> u32
    ensures { result ≡ pick (ltb s (deadline_of reduction)) 0 reduction }
{
    if s / recording::WEEK_MINUTES < reduction / REDUCTION_UNIT {
        return 0;
    }
    reduction
}
