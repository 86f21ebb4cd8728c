// What a state before a long rest leads to: which outstanding reductions the rest compensates for, what kind of rest it is and in which week it counts.
// Each state that follows is put into the next front; what does not fit there is asked at once by the same steps with no front, depth first.
#![tactic(auto)]

ghost use Rattle.std.specs.Prelude.{◌≡◌, ◌+◌, ◌-◌, ◌<◌, ◌≤◌, set, length};
ghost use Rattle.recording.specs.Operations.{total_at_most};
ghost use Rattle.recording.specs.Weeks.{week_start};
ghost use Rattle.rules.specs.Reading.{reduction_of};
ghost use Rattle.rules.specs.ReadingRules.{least_net};
ghost use Rattle.rules.specs.declared.Kind.TheVariants.{Daily, Weekly};
ghost use Rattle.rules.specs.declared.Standing.TheVariants.{Regular};
ghost use Rattle.rules_items.specs.Items.{standing_for, compensation_at_most};
ghost use Rattle.verdict_completion.specs.Completable.{at, count, length_at, Overdue, Compensates, Closes, ReadDaily, ReadWeekly, Counted, Reads, Tries, Completable};
ghost use Rattle.verdict_completion.specs.Courses.{course_of};
ghost use Rattle.verdict_completion.specs.Better.{AtRest};
ghost use Rattle.verdict_steps.specs.Steps.{Says, outstanding_by};
ghost use Rattle.verdict_search.specs.Search.{Found, Later, Sound, InUse, InSlots, FirstFrom, Before};
ghost use Rattle.verdict_search.specs.Leading.{Given, Leads, Kept, ReadAs, TakenAs};

use rules::{Kind, Standing};
use rules_items::LongRest;
use verdict_completion::{Course, REDUCTION_UNIT, State};

// What the search is lent: a slot for the reduction of each long rest, of which the first `used` are in use, the nogoods, and the next front, which has
// `states` states.
#[derive(Drop)]
pub struct Search<'a> {
    pub slots: &'a mut [u32],
    pub used: usize,
    pub nogoods: &'a mut [u32],
    pub next: &'a mut [u32],
    pub states: usize,
}

impl Search<'_> {
    // Whether a reduction is outstanding that was due before t.
    fn is_overdue(&self, t: u32) -> bool
        requires { let s = self.now in InUse s.used s.slots.now }
        ensures { Says (Overdue self.now.slots.now t) result }
    {
        verdict_steps::overdue(&self.slots[..self.used], t)
    }

    // The first slot from i on whose reduction fits into a rest of so many minutes, beside a compensation and what the rest needs itself.
    fn first_fit(&self, i: usize, compensation: u32, minutes: u32) -> Option<usize>
        requires used { let s = self.now in (i ≤ s.used) × InUse s.used s.slots.now }
        requires low { compensation ≤ compensation_at_most }
        ensures { let s = self.now in FirstFrom s.slots.now i s.used compensation minutes result }
    {
        let from = &self.slots[i..self.used];
        let Some(first) = verdict_steps::candidate(from, compensation, minutes) else {
            return None;
        };
        Some(i + first)
    }
}

// All rests are read: whether nothing is left to break.
fn closes(course: &Course, search: &Search, st: State) -> bool
    requires used { let s = search.now in InUse s.used s.slots.now }
    requires before { let c = course_of course.now in Before c (count c) st }
    ensures { Says (Closes (course_of course.now) st search.now.slots.now) result }
{
    let rests = &course.rests;
    if st.ended + rules_items::WEEKLY_GAP < rests.judged {
        return false;
    }
    if search.is_overdue(rests.judged + 1) {
        return false;
    }
    let week = rests.judged / recording::WEEK_MINUTES;
    verdict_steps::advance(rests, rests.starts.len(), st, week).is_some()
}

// Whether the rests from that of index j on can be read from a state in the week in which that rest starts, asked with no front for what follows. The
// first `used` slots are in use.
#[cycle(leading)]
fn at_once(
    course: &Course,
    slots: &mut [u32],
    used: usize,
    nogoods: &mut [u32],
    j: usize,
    here: State,
) -> bool
    requires slots { InSlots (course_of course.now) j used slots.old }
    requires sound { Sound (course_of course.now) nogoods.old }
    requires rest { AtRest (course_of course.now) j here }
    ensures says { let c = course_of course.now in Says (Tries c (Later c j) j here slots.old) result }
    ensures same { slots.new ≡ slots.old }
    ensures sound { Sound (course_of course.now) nogoods.new }
{
    let mut none = [0u32; 0];
    let mut alone = Search {
        slots: &mut *slots,
        used,
        nogoods: &mut *nogoods,
        next: &mut none,
        states: 0,
    };
    compensate(course, &mut alone, j, 0, course.compensations[j], here)
}

// The same, by what is remembered; a no is remembered.
#[cycle(leading)]
fn ask(
    course: &Course,
    slots: &mut [u32],
    used: usize,
    nogoods: &mut [u32],
    j: usize,
    here: State,
) -> bool
    requires slots { InSlots (course_of course.now) j used slots.old }
    requires sound { Sound (course_of course.now) nogoods.old }
    requires rest { AtRest (course_of course.now) j here }
    ensures { let c = course_of course.now in Found (Tries c (Later c j) j here slots.old) result slots.old slots.new (Sound c nogoods.new) }
{
    if verdict_nogoods::knows(nogoods, j, here, &slots[..used]) {
        return false;
    }
    if at_once(course, slots, used, nogoods, j, here) {
        return true;
    }
    verdict_nogoods::store(nogoods, j, here, &slots[..used]);
    false
}

// A state in the week in which the rest of index j starts is put into the front before that rest, or asked at once where it does not fit. Yes is the
// answer where a question was asked at once and answered so.
#[cycle(leading)]
pub fn place(course: &Course, search: &mut Search, j: usize, here: State) -> bool
    requires given { Given (course_of course.now) j j search.old }
    requires rest { AtRest (course_of course.now) j here }
    ensures leads { let c = course_of course.now in Leads c (λ o. Tries c (Later c j) j here o) j search.old search.new result }
    ensures kept { Kept search.old search.new }
{
    let used = search.used;
    let states = search.states;
    let next = &mut *search.next;
    let slots = &mut *search.slots;
    if let Some(n) = verdict_fronts::insert(next, states, here, &slots[..used]) {
        search.states = n;
        return false;
    }
    let nogoods = &mut *search.nogoods;
    ask(course, slots, used, nogoods, j, here)
}

// A state before the rest of index j is led on to that rest, or, where all rests are read, asked at once.
#[cycle(leading)]
pub fn step(course: &Course, search: &mut Search, j: usize, st: State) -> bool
    requires given { Given (course_of course.now) j j search.old }
    requires before { Before (course_of course.now) j st }
    ensures leads { let c = course_of course.now in Leads c (λ o. Completable c (count c - j) j st o) j search.old search.new result }
    ensures kept { Kept search.old search.new }
{
    let rests = &course.rests;
    if j == rests.starts.len() {
        return closes(course, search, st);
    }
    if st.ended + rules_items::WEEKLY_GAP < rests.starts[j] {
        return false;
    }
    if search.is_overdue(rests.ends[j]) {
        return false;
    }
    let week = rests.starts[j] / recording::WEEK_MINUTES;
    let Some(here) = verdict_steps::advance(rests, j, st, week) else {
        return false;
    };
    place(course, search, j, here)
}

// The rest of index j is daily, with a compensation.
#[cycle(leading)]
fn daily(course: &Course, search: &mut Search, j: usize, compensation: u32, here: State) -> bool
    requires given { Given (course_of course.now) j (j + 1) search.old }
    requires rest { AtRest (course_of course.now) j here }
    requires net { least_net Daily + compensation ≤ length_at (course_of course.now) j }
    ensures leads { let c = course_of course.now in Leads c (λ o. ReadDaily c (Later c j) j here compensation o) (j + 1) search.old search.new result }
    ensures kept { Kept search.old search.new }
{
    let rests = &course.rests;
    let minutes = rests.ends[j] - rests.starts[j];
    let short = verdict_steps::is_short(minutes, rests.nets[j], compensation);
    let after = here.after_daily(short);
    if after.short > rules_items::SHORTENED_AT_MOST {
        return false;
    }
    step(course, search, j + 1, after)
}

// It is weekly, counted in week w, and its reduction is outstanding from now on; one that is due after the judged end needs nothing.
#[cycle(leading)]
fn count_in(
    course: &Course,
    search: &mut Search,
    j: usize,
    standing: Standing,
    w: u32,
    after: State,
) -> bool
    requires given { Given (course_of course.now) j (j + 1) search.old }
    requires within { j < count (course_of course.now) }
    requires before { Before (course_of course.now) (j + 1) after }
    requires low { (reduction_of (Weekly standing) ≤ compensation_at_most) × (w < 255) }
    ensures leads { let c = course_of course.now in Leads c (λ o. Later c j after (set o j (outstanding_by standing w))) (j + 1) search.old search.new result }
    ensures kept { Kept search.old search.new }
{
    let used = search.used;
    let kept = search.slots[used];
    let reduction = verdict_steps::outstanding_of(standing, w);
    search.slots[used] = verdict_steps::needed(reduction, course.rests.judged);
    search.used = used + 1;
    let yes = step(course, search, j + 1, after);
    search.used = used;
    search.slots[used] = kept;
    yes
}

// It is weekly, in week w.
#[cycle(leading)]
fn in_week(
    course: &Course,
    search: &mut Search,
    j: usize,
    compensation: u32,
    standing: Standing,
    w: u32,
    here: State,
) -> bool
    requires given { Given (course_of course.now) j (j + 1) search.old }
    requires rest { AtRest (course_of course.now) j here }
    requires standing { standing ≡ standing_for (length_at (course_of course.now) j) compensation }
    requires net { least_net (Weekly Regular) + compensation ≤ length_at (course_of course.now) j }
    requires week { let c = course_of course.now in (at c.starts j < week_start (w + 1)) × (week_start w < at c.ends j) }
    ensures leads { let c = course_of course.now in Leads c (λ o. Counted c (Later c j) j here w compensation o) (j + 1) search.old search.new result }
    ensures kept { Kept search.old search.new }
{
    let rests = &course.rests;
    let Some(there) = verdict_steps::advance(rests, j + 1, here, w) else {
        return false;
    };
    let rest = rules_items::holds_week(rests.starts[j], rests.ends[j], w);
    let regular = verdict_steps::is_regular(standing);
    let after = there.after_weekly(rest, regular, rests.ends[j]);
    count_in(course, search, j, standing, w, after)
}

// It is weekly, in one of the weeks in which it has a minute.
#[cycle(leading)]
fn weekly(
    course: &Course,
    search: &mut Search,
    j: usize,
    compensation: u32,
    standing: Standing,
    here: State,
) -> bool
    requires given { Given (course_of course.now) j (j + 1) search.old }
    requires rest { AtRest (course_of course.now) j here }
    requires standing { standing ≡ standing_for (length_at (course_of course.now) j) compensation }
    requires net { least_net (Weekly Regular) + compensation ≤ length_at (course_of course.now) j }
    ensures leads { let c = course_of course.now in Leads c (λ o. ReadWeekly c (Later c j) j here compensation o) (j + 1) search.old search.new result }
    ensures kept { Kept search.old search.new }
{
    let first = course.rests.starts[j] / recording::WEEK_MINUTES;
    let last = (course.rests.ends[j] - 1) / recording::WEEK_MINUTES;
    for w in first..last + 1 {
        if in_week(course, search, j, compensation, standing, w, here) {
            return true;
        }
    }
    false
}

// It is read as of a kind.
#[cycle(leading)]
fn read_as(
    course: &Course,
    search: &mut Search,
    j: usize,
    compensation: u32,
    rest: LongRest,
    here: State,
) -> bool
    requires given { Given (course_of course.now) j (j + 1) search.old }
    requires rest { AtRest (course_of course.now) j here }
    requires taken { TakenAs (course_of course.now) j compensation rest.kind }
    ensures leads { let c = course_of course.now in Leads c (λ o. ReadAs c (Later c j) j here compensation rest.kind o) (j + 1) search.old search.new result }
    ensures kept { Kept search.old search.new }
{
    match rest.kind {
        Kind::Daily => daily(course, search, j, compensation, here),
        Kind::Weekly(standing) => weekly(course, search, j, compensation, standing, here),
    }
}

// It is daily or weekly, with a compensation; where it can be a regular weekly rest it need not be daily.
#[cycle(leading)]
fn choose(course: &Course, search: &mut Search, j: usize, compensation: u32, here: State) -> bool
    requires given { Given (course_of course.now) j (j + 1) search.old }
    requires rest { AtRest (course_of course.now) j here }
    requires low { compensation ≤ total_at_most }
    ensures leads { let c = course_of course.now in Leads c (λ o. Reads c (Later c j) j here compensation o) (j + 1) search.old search.new result }
    ensures kept { Kept search.old search.new }
{
    let start = course.rests.starts[j];
    let end = course.rests.ends[j];
    if end - start < rules_items::DAILY_NET + compensation {
        return false;
    }
    let weekly = verdict_steps::as_weekly(start, end, compensation);
    if rules_items::REGULAR + compensation <= end - start {
        return read_as(course, search, j, compensation, weekly, here);
    }
    let daily = verdict_steps::as_daily(start, end);
    let yes = read_as(course, search, j, compensation, daily, here);
    if yes {
        return true;
    }
    if end - start < rules_items::WEEKLY_NET + compensation {
        return false;
    }
    read_as(course, search, j, compensation, weekly, here)
}

// It has a compensation, and compensates for some of the reductions in the slots from i on.
#[cycle(leading)]
pub fn compensate(
    course: &Course,
    search: &mut Search,
    j: usize,
    i: usize,
    compensation: u32,
    here: State,
) -> bool
    requires given { Given (course_of course.now) j (j + 1) search.old }
    requires rest { AtRest (course_of course.now) j here }
    requires from { i ≤ search.old.used }
    requires low { compensation ≤ total_at_most }
    ensures leads { let c = course_of course.now in
        Leads c (λ o. Compensates (Reads c (Later c j) j here) (length_at c j) (j - i) i compensation o) (j + 1) search.old search.new result }
    ensures kept { Kept search.old search.new }
{
    let minutes = course.rests.ends[j] - course.rests.starts[j];
    let Some(d) = search.first_fit(i, compensation, minutes) else {
        return choose(course, search, j, compensation, here);
    };
    let reduction = search.slots[d];
    search.slots[d] = 0;
    let more = compensation + reduction % REDUCTION_UNIT;
    let yes = compensate(course, search, j, d + 1, more, here);
    search.slots[d] = reduction;
    if yes {
        return true;
    }
    compensate(course, search, j, d + 1, compensation, here)
}
