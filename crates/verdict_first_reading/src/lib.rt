// The first lawful reading of long rests, entry by entry: for each rest the first entry with which the later rests can still be read.
#![tactic(auto)]

ghost use Rattle.std.specs.Prelude.{◌≡◌, List, ℕ, ◌+◌, ◌*◌, ◌<◌, ◌≤◌, length};
ghost use Rattle.recording.specs.Rests.{long_rests_at_most};
ghost use Rattle.rules.specs.Reading.{entry_bytes, bytes_of};
ghost use Rattle.rules_items.specs.Items.{Zeros};
ghost use Rattle.verdict_completion.specs.Completable.{count, rests_only};
ghost use Rattle.verdict_completion.specs.Courses.{course_with, course_of};
ghost use Rattle.verdict_completion.specs.Better.{AtRest};
ghost use Rattle.verdict_search.specs.Search.{Before};
ghost use Rattle.verdict_merging.specs.Merging.{Ready};
ghost use Rattle.verdict_choosing.specs.First.{Least};
ghost use Rattle.verdict_choosing.specs.Choices.{Limited, Fits, PutDaily, PutWeekly, Stepped};

use verdict_choosing::Choice;
use verdict_completion::{Course, LongRests, State};
use verdict_merging::Room;
use verdict_sweep::Fronts;

const DAILY_KIND: u8 = 0;

const WEEKLY_KIND: u8 = 1;

// The rest of index j is daily.
fn put_daily(course: &Course, reading: &mut [u8], j: usize, here: State) -> State
    requires rest { AtRest (course_of course.now) j here }
    requires size { length reading.old ≡ entry_bytes * count (course_of course.now) }
    ensures { PutDaily (course_of course.now) j here reading.old reading.new result }
{
    rules_entries::put_entry(reading, j, DAILY_KIND, 0, 0);
    let rests = course.rests;
    let short = verdict_steps::is_short(
        rests.ends[j] - rests.starts[j],
        rests.nets[j],
        course.compensations[j],
    );
    let next = here.after_daily(short);
    if rules_items::SHORTENED_AT_MOST < next.short {
        return here;
    }
    next
}

// The rest of index j is weekly, and its carrier, if it has one, is compensated for that by so much more.
fn put_weekly(
    rests: &LongRests,
    compensations: &mut [u32],
    reading: &mut [u8],
    j: usize,
    here: State,
    choice: Choice,
) -> State
    requires limited { Limited (course_with rests.now compensations.old) }
    requires rest { AtRest (course_with rests.now compensations.old) j here }
    requires size { length reading.old ≡ entry_bytes * length rests.now.starts.now }
    requires fits { Fits (course_with rests.now compensations.old) j choice.week choice.carrier }
    ensures { let c = course_with rests.now compensations.old in let d = course_with rests.now compensations.new in
        PutWeekly c d j here choice.week choice.carrier reading.old reading.new result }
{
    let Choice { week, carrier } = choice;
    let Some(there) = verdict_steps::advance(rests, j + 1, here, week) else {
        return here;
    };
    let minutes = rests.ends[j] - rests.starts[j];
    let compensation = compensations[j];
    rules_entries::put_entry(reading, j, WEEKLY_KIND, week as u8, carrier as u32);
    if carrier != 0 {
        compensations[carrier - 1] += verdict_choosing::lacking(minutes, compensation);
    }
    let rest = rules_items::rest_week(rests.starts, rests.ends, rests.starts.len(), week);
    let regular = rules_items::REGULAR + compensation <= minutes;
    there.after_weekly(rest, regular, rests.ends[j])
}

// The rest of index j is read, from a state before it.
fn place(
    rests: &LongRests,
    compensations: &mut [u32],
    room: &mut Room,
    spare: &mut [u32],
    reading: &mut [u8],
    j: usize,
    st: State,
) -> State
    requires limited { Limited (course_with rests.now compensations.old) }
    requires ready { Ready (course_with rests.now compensations.old) room.old }
    requires spare { length spare.old ≡ length rests.now.starts.now }
    requires before { Before (course_with rests.now compensations.old) j st }
    requires within { j < length rests.now.starts.now }
    requires size { length reading.old ≡ entry_bytes * length rests.now.starts.now }
    ensures { let c = course_with rests.now compensations.old in let d = course_with rests.now compensations.new in
        Stepped c d j st room.new reading.old reading.new result }
{
    let week = rests.starts[j] / recording::WEEK_MINUTES;
    let Some(here) = verdict_steps::advance(rests, j, st, week) else {
        return State::best(rests.starts[j]);
    };
    let course = Course {
        rests: *rests,
        compensations,
    };
    if rests.ends[j] - rests.starts[j] < rules_items::WEEKLY_NET + course.compensations[j] {
        return put_daily(&course, reading, j, here);
    }
    if verdict_choosing::can_be_daily(&course, room, j, here) {
        return put_daily(&course, reading, j, here);
    }
    let Some(choice) = verdict_choosing::first_weekly(&course, room, spare, j, here) else {
        return here;
    };
    let next = put_weekly(rests, compensations, reading, j, here, choice);
    let nogoods = &mut *room.nogoods;
    verdict_merging::renew(nogoods, rests.starts.len(), choice.carrier);
    next
}

// All rests are read, where no rest has a compensation.
fn write_entries(
    rests: &LongRests,
    compensations: &mut [u32],
    room: &mut Room,
    spare: &mut [u32],
    reading: &mut [u8],
)
    requires limited { Limited (course_with rests.now compensations.old) }
    requires ready { Ready (course_with rests.now compensations.old) room.old }
    requires spare { length spare.old ≡ length rests.now.starts.now }
    requires none { Zeros compensations.old }
    requires size { length reading.old ≡ entry_bytes * length rests.now.starts.now }
    ensures { let r = rests.now in let c = rests_only r.starts.now r.ends.now r.nets.now r.judged in
        (f : List ℕ) → Least c f → reading.new ≡ bytes_of f }
{
    let rest = rules_items::rest_week(rests.starts, rests.ends, rests.starts.len(), 0);
    let mut st = State::start(rest);
    for j in 0..rests.starts.len() {
        st = place(rests, compensations, room, spare, reading, j, st);
    }
}

// The first reading of the long rests that keeps rules 6 to 11, if there is one, for so many long rests or fewer. What the nogoods and the four fronts hold
// does not matter, and their room is any.
fn write_with<const RESTS: usize>(
    rests: &LongRests,
    reading: &mut [u8],
    nogoods: &mut [u32],
    front: &mut [u32],
    other: &mut [u32],
    known: &mut [u32],
    beside: &mut [u32],
)
    requires size { length reading.old ≡ entry_bytes * length rests.now.starts.now }
    requires few { length rests.now.starts.now ≤ RESTS }
    requires rests { RESTS ≤ long_rests_at_most }
    ensures { let r = rests.now in let c = rests_only r.starts.now r.ends.now r.nets.now r.judged in
        (f : List ℕ) → Least c f → reading.new ≡ bytes_of f }
{
    let k = rests.starts.len();
    let mut compensations = [0u32; RESTS];
    let mut spare = [0u32; RESTS];
    let mut slots = [0u32; RESTS];
    verdict_nogoods::clear(nogoods, k);
    let mut room = Room {
        slots: &mut slots[..k],
        nogoods,
        asked: Fronts {
            front,
            other,
            states: 0,
        },
        known: Fronts {
            front: known,
            other: beside,
            states: 0,
        },
    };
    write_entries(
        rests,
        &mut compensations[..k],
        &mut room,
        &mut spare[..k],
        reading,
    );
}

// The same by their number.
pub fn write_first(
    rests: &LongRests,
    reading: &mut [u8],
    nogoods: &mut [u32],
    front: &mut [u32],
    other: &mut [u32],
    known: &mut [u32],
    beside: &mut [u32],
)
    requires { length reading.old ≡ entry_bytes * length rests.now.starts.now }
    ensures { let r = rests.now in let c = rests_only r.starts.now r.ends.now r.nets.now r.judged in
        (f : List ℕ) → Least c f → reading.new ≡ bytes_of f }
{
    if rests.starts.len() <= recording::SHORT_RESTS {
        write_with::<{ recording::SHORT_RESTS }>(
            rests, reading, nogoods, front, other, known, beside,
        );
        return;
    }
    write_with::<{ recording::LONG_RESTS }>(rests, reading, nogoods, front, other, known, beside);
}
