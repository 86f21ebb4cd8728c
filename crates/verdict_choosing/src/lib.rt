// The first reading, entry by entry: which entry of a rest is the first that can be gone on with.
#![tactic(auto)]

ghost use Rattle.std.specs.Prelude.{◌≡◌, ◌+◌, ◌-◌, ◌<◌, ◌≤◌, length, true};
ghost use Rattle.recording.specs.Weeks.{week_start};
ghost use Rattle.rules.specs.Reading.{regular_minutes};
ghost use Rattle.rules.specs.ReadingRules.{least_net};
ghost use Rattle.rules.specs.declared.Kind.TheVariants.{Daily, Weekly};
ghost use Rattle.rules.specs.declared.Standing.TheVariants.{Regular};
ghost use Rattle.rules_items.specs.Items.{compensation_at_most};
ghost use Rattle.verdict_completion.specs.Completable.{at, count, length_at};
ghost use Rattle.verdict_completion.specs.Courses.{course_of};
ghost use Rattle.verdict_completion.specs.Better.{AtRest};
ghost use Rattle.verdict_steps.specs.Steps.{Says};
ghost use Rattle.verdict_search.specs.Search.{Before};
ghost use Rattle.verdict_merging.specs.Merging.{nothing, Ready, SameRoom, StaysEmpty, ToldIf};
ghost use Rattle.verdict_choosing.specs.Choices.{CanBeRead, CanBeDaily, CanBeWeekly, FirstChoice, FirstOf, CanHold, Carries, CanHave};

use rules::Kind;
use verdict_completion::{Course, State};
use verdict_merging::Room;

// A week in which a weekly rest is counted, and the number of its carrier, or 0.
#[derive(Clone, Copy, Debug, PartialEq, Eq)]
pub struct Choice {
    pub week: u32,
    pub carrier: usize,
}

// How many minutes a weekly rest of so many minutes, with a compensation, lacks to be regular: its reduction.
pub fn lacking(minutes: u32, compensation: u32) -> u32
    requires { compensation ≤ compensation_at_most }
    ensures { result ≡ regular_minutes + compensation - minutes }
{
    let standing = rules_items::standing_of(minutes, compensation);
    rules_items::reduction(Kind::Weekly(standing))
}

// Whether the rest of index j can be daily.
pub fn can_be_daily(course: &Course, room: &mut Room, j: usize, here: State) -> bool
    requires ready { Ready (course_of course.now) room.old }
    requires rest { AtRest (course_of course.now) j here }
    requires net { let c = course_of course.now in least_net Daily + at c.compensations j ≤ length_at c j }
    ensures told { let c = course_of course.now in ToldIf (CanBeRead c j here (nothing c)) (CanBeDaily c j here (nothing c)) result (Ready c room.new) }
    ensures lent { SameRoom room.old room.new }
    ensures empty { StaysEmpty (course_of course.now) room.old room.new }
{
    let rests = course.rests;
    let short = verdict_steps::is_short(
        rests.ends[j] - rests.starts[j],
        rests.nets[j],
        course.compensations[j],
    );
    let next = here.after_daily(short);
    if rules_items::SHORTENED_AT_MOST < next.short {
        return false;
    }
    verdict_merging::completes_beside(course, course, room, j, here, next, 0)
}

// Whether x can be the carrier of the rest of index j, weekly and counted in week w, and has room for its reduction.
fn carries(course: &Course, j: usize, w: u32, x: usize) -> bool
    requires within { j < count (course_of course.now) }
    requires week { week_start w < at course.now.rests.ends.now j }
    requires number { x ≤ count (course_of course.now) }
    requires later { 0 < x → j + 1 < x }
    ensures { Says (Carries (course_of course.now) j w x) result }
{
    let rests = course.rests;
    let deadline = recording::WEEK_MINUTES * (w + rules_items::WEEKS_TO_COMPENSATE);
    let less = lacking(rests.ends[j] - rests.starts[j], course.compensations[j]);
    if x == 0 {
        if less == 0 {
            return true;
        }
        return rests.judged < deadline;
    }
    if less == 0 {
        return false;
    }
    let i = x - 1;
    if deadline < rests.ends[i] {
        return false;
    }
    rules_items::DAILY_NET + (course.compensations[i] + less) <= rests.ends[i] - rests.starts[i]
}

// Numbers into a list of as many, one by one, so that the library needs no memmove.
fn put_all(list: &mut [u32], numbers: &[u32])
    requires { length list.old ≡ length numbers.now }
    ensures after { list.new ≡ numbers.now }
{
    recording_list::fill(list, numbers.iter().copied());
}

// Whether the rest of index j, weekly and counted in week w, can have the carrier x; the state after it is next. `spare` is room for the compensations that
// the rests have then.
fn can_have(
    course: &Course,
    room: &mut Room,
    spare: &mut [u32],
    j: usize,
    here: State,
    w: u32,
    next: State,
    x: usize,
) -> bool
    requires ready { Ready (course_of course.now) room.old }
    requires spare { length spare.old ≡ count (course_of course.now) }
    requires rest { AtRest (course_of course.now) j here }
    requires next { Before (course_of course.now) (j + 1) next }
    requires week { week_start w < at course.now.rests.ends.now j }
    requires number { x ≤ count (course_of course.now) }
    requires later { 0 < x → j + 1 < x }
    ensures told { let c = course_of course.now in ToldIf (CanBeRead c j here (nothing c)) (CanHave c j w next (nothing c) x) result (Ready c room.new) }
    ensures holds { result ≡ true → CanHold (course_of course.now) j x }
    ensures lent { SameRoom room.old room.new }
    ensures empty { StaysEmpty (course_of course.now) room.old room.new }
{
    if !carries(course, j, w, x) {
        return false;
    }
    if x == 0 {
        return verdict_merging::completes_beside(course, course, room, j, here, next, 0);
    }
    let rests = course.rests;
    let less = lacking(rests.ends[j] - rests.starts[j], course.compensations[j]);
    put_all(spare, course.compensations);
    spare[x - 1] += less;
    let trial = Course {
        rests: course.rests,
        compensations: spare,
    };
    verdict_merging::completes_beside(course, &trial, room, j, here, next, x)
}

// The first carrier that the rest of index j, weekly and counted in week w, can have.
fn first_carrier(
    course: &Course,
    room: &mut Room,
    spare: &mut [u32],
    j: usize,
    here: State,
    w: u32,
    next: State,
) -> Option<usize>
    requires ready { Ready (course_of course.now) room.old }
    requires spare { length spare.old ≡ count (course_of course.now) }
    requires rest { AtRest (course_of course.now) j here }
    requires next { Before (course_of course.now) (j + 1) next }
    requires week { week_start w < at course.now.rests.ends.now j }
    ensures first { let c = course_of course.now in FirstOf (CanBeRead c j here (nothing c)) (CanHave c j w next (nothing c)) (CanHold c j) result }
    ensures ready { Ready (course_of course.now) room.new }
    ensures lent { SameRoom room.old room.new }
    ensures empty { StaysEmpty (course_of course.now) room.old room.new }
{
    if can_have(course, room, spare, j, here, w, next, 0) {
        return Some(0);
    }
    for x in j + 2..course.rests.starts.len() + 1 {
        if can_have(course, room, spare, j, here, w, next, x) {
            return Some(x);
        }
    }
    None
}

// The same, from the state in the week in which the rest starts.
fn carrier_in(
    course: &Course,
    room: &mut Room,
    spare: &mut [u32],
    j: usize,
    here: State,
    w: u32,
) -> Option<usize>
    requires ready { Ready (course_of course.now) room.old }
    requires spare { length spare.old ≡ count (course_of course.now) }
    requires rest { AtRest (course_of course.now) j here }
    requires net { let c = course_of course.now in least_net (Weekly Regular) + at c.compensations j ≤ length_at c j }
    requires from { at course.now.rests.starts.now j < week_start (w + 1) }
    requires week { week_start w < at course.now.rests.ends.now j }
    ensures first { let c = course_of course.now in FirstOf (CanBeRead c j here (nothing c)) (CanBeWeekly c j here (nothing c) w) (CanHold c j) result }
    ensures ready { Ready (course_of course.now) room.new }
    ensures lent { SameRoom room.old room.new }
    ensures empty { StaysEmpty (course_of course.now) room.old room.new }
{
    let rests = course.rests;
    let Some(there) = verdict_steps::advance(&rests, j + 1, here, w) else {
        return None;
    };
    let rest = rules_items::rest_week(rests.starts, rests.ends, rests.starts.len(), w);
    let regular = rules_items::REGULAR + course.compensations[j] <= rests.ends[j] - rests.starts[j];
    let next = there.after_weekly(rest, regular, rests.ends[j]);
    first_carrier(course, room, spare, j, here, w, next)
}

// The first week and carrier with which the rest of index j can be weekly.
pub fn first_weekly(
    course: &Course,
    room: &mut Room,
    spare: &mut [u32],
    j: usize,
    here: State,
) -> Option<Choice>
    requires ready { Ready (course_of course.now) room.old }
    requires spare { length spare.old ≡ count (course_of course.now) }
    requires rest { AtRest (course_of course.now) j here }
    requires net { let c = course_of course.now in least_net (Weekly Regular) + at c.compensations j ≤ length_at c j }
    ensures first { let c = course_of course.now in FirstChoice c j here (nothing c) result }
    ensures ready { Ready (course_of course.now) room.new }
    ensures lent { SameRoom room.old room.new }
    ensures empty { StaysEmpty (course_of course.now) room.old room.new }
{
    let first = course.rests.starts[j] / recording::WEEK_MINUTES;
    let last = (course.rests.ends[j] - 1) / recording::WEEK_MINUTES;
    for week in first..last + 1 {
        if let Some(carrier) = carrier_in(course, room, spare, j, here, week) {
            return Some(Choice { week, carrier });
        }
    }
    None
}
