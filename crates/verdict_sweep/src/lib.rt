// The sweep: whether the long rests can be read, from front to front. It goes through the rests once; from each state of the front before a rest
// the search puts what follows into the next front.
#![tactic(auto)]

ghost use Rattle.std.specs.Prelude.{◌≡◌, true, false, ◌+◌, ◌-◌, ◌*◌, ◌^◌, ◌<◌, ◌≤◌, length, replicate, max};
ghost use Rattle.verdict_completion.specs.Completable.{count, Completable};
ghost use Rattle.verdict_completion.specs.Courses.{course_of};
ghost use Rattle.verdict_fronts.specs.Front.{entry_at};
ghost use Rattle.verdict_search.specs.Search.{Sound, Free, Before};
ghost use Rattle.verdict_search.specs.Leading.{Can, Any, Well, Front, SameLent};
ghost use Rattle.verdict_sweep.specs.Sweep.{SameFronts, LeadsTo, Passes, Visits, OpensTo, Opens, Told, CanBeRead};

use verdict_completion::{Course, State};
use verdict_search::Search;

// Two fronts that change roles: the first has `states` states, the other is to be the next one.
#[derive(Drop)]
pub struct Fronts<'a> {
    pub front: &'a mut [u32],
    pub other: &'a mut [u32],
    pub states: usize,
}

// How a sweep ends: yes or no; and where it is no, the rest near which no state was left. Nothing is promised of that place.
#[derive(Clone, Copy, Debug, PartialEq, Eq)]
pub struct Ending {
    pub yes: bool,
    pub at: usize,
}

// From the entry e of the front before the rest of index j; what stands in the slots is given up.
fn visit(course: &Course, search: &mut Search, front: &[u32], j: usize, e: usize) -> bool
    requires slots { length search.old.slots.now ≡ count (course_of course.now) }
    requires sound { Sound (course_of course.now) search.old.nogoods.now }
    requires within { j < count (course_of course.now) }
    requires next { Front (course_of course.now) (j + 1) search.old.next.now search.old.states }
    requires entry { (entry_at (e + 1) ≤ length front.now) × Well (course_of course.now) j front.now (entry_at e) }
    ensures visits { let c = course_of course.now in Visits c (Can c j front.now (entry_at e)) (j + 1) search.old search.new result }
    ensures lent { SameLent search.old search.new }
{
    let p = verdict_nogoods::ENTRY_WORDS * e;
    let slots = &mut *search.slots;
    verdict_fronts::outstanding_in(front, p, slots);
    let week = course.rests.starts[j] / recording::WEEK_MINUTES;
    let here = verdict_fronts::state_in(front, p, week);
    search.used = verdict_fronts::reductions_in(front, p);
    verdict_search::compensate(course, search, j, 0, course.compensations[j], here)
}

// From the first n entries of the front before the rest of index j.
fn visit_all(course: &Course, search: &mut Search, front: &[u32], n: usize, j: usize) -> bool
    requires slots { length search.old.slots.now ≡ count (course_of course.now) }
    requires sound { Sound (course_of course.now) search.old.nogoods.now }
    requires within { j < count (course_of course.now) }
    requires next { search.old.states ≡ 0 }
    requires front { Front (course_of course.now) j front.now n }
    ensures visits { let c = course_of course.now in Visits c (Any c j front.now n) (j + 1) search.old search.new result }
    ensures lent { SameLent search.old search.new }
{
    for e in 0..n {
        if visit(course, search, front, j, e) {
            return true;
        }
    }
    false
}

// The same, with slots, nogoods and a next front that are lent: how many states that has, or none where yes was found.
fn next_front(
    course: &Course,
    slots: &mut [u32],
    nogoods: &mut [u32],
    front: &[u32],
    n: usize,
    next: &mut [u32],
    j: usize,
) -> Option<usize>
    requires slots { length slots.old ≡ count (course_of course.now) }
    requires sound { Sound (course_of course.now) nogoods.old }
    requires within { j < count (course_of course.now) }
    requires front { Front (course_of course.now) j front.now n }
    ensures { LeadsTo (course_of course.now) j front.now n (j + 1) next.new nogoods.new result }
{
    let mut search = Search {
        slots: &mut *slots,
        used: 0,
        nogoods: &mut *nogoods,
        next: &mut *next,
        states: 0,
    };
    if visit_all(course, &mut search, front, n, j) {
        return None;
    }
    Some(search.states)
}

// From the front before the rest of index j to the next one. The front that is swept stays as it is.
pub fn sweep_rest(
    course: &Course,
    slots: &mut [u32],
    nogoods: &mut [u32],
    fronts: &mut Fronts,
    j: usize,
) -> bool
    requires slots { length slots.old ≡ count (course_of course.now) }
    requires sound { Sound (course_of course.now) nogoods.old }
    requires within { j < count (course_of course.now) }
    requires front { Front (course_of course.now) j fronts.old.front.now fronts.old.states }
    ensures passes { Passes (course_of course.now) j fronts.old (j + 1) fronts.new nogoods.new result }
    ensures lent { SameFronts fronts.old fronts.new }
    ensures on_yes { result ≡ true → fronts.new.front.now ≡ fronts.old.front.now }
    ensures on_no { result ≡ false → fronts.new.other.now ≡ fronts.old.front.now }
{
    let states = fronts.states;
    let front = &mut *fronts.front;
    let next = &mut *fronts.other;
    let Some(n) = next_front(course, slots, nogoods, front, states, next, j) else {
        fronts.states = 0;
        return true;
    };
    fronts.states = n;
    std::mem::swap(&mut fronts.front, &mut fronts.other);
    false
}

// From the front before the rest of index j to that before the rest of index `to`.
pub fn sweep_to(
    course: &Course,
    slots: &mut [u32],
    nogoods: &mut [u32],
    fronts: &mut Fronts,
    j: usize,
    to: usize,
) -> bool
    requires slots { length slots.old ≡ count (course_of course.now) }
    requires sound { Sound (course_of course.now) nogoods.old }
    requires within { (j ≤ to) × (to ≤ count (course_of course.now)) }
    requires front { Front (course_of course.now) j fronts.old.front.now fronts.old.states }
    ensures passes { Passes (course_of course.now) j fronts.old to fronts.new nogoods.new result }
    ensures lent { SameFronts fronts.old fronts.new }
{
    for i in j..to {
        if sweep_rest(course, slots, nogoods, fronts, i) {
            fronts.states = 0;
            return true;
        }
    }
    false
}

// From the front before the rest of index j to the end.
pub fn sweep_on(
    course: &Course,
    slots: &mut [u32],
    nogoods: &mut [u32],
    fronts: &mut Fronts,
    j: usize,
) -> Ending
    requires slots { length slots.old ≡ count (course_of course.now) }
    requires sound { Sound (course_of course.now) nogoods.old }
    requires within { j ≤ count (course_of course.now) + 1 }
    requires front { Front (course_of course.now) j fronts.old.front.now fronts.old.states }
    ensures told { let c = course_of course.now in Told (Any c j fronts.old.front.now fronts.old.states) result.yes (Sound c nogoods.new) }
    ensures lent { SameFronts fronts.old fronts.new }
{
    let end = course.rests.starts.len();
    for i in j..end {
        if sweep_rest(course, slots, nogoods, fronts, i) {
            return Ending { yes: true, at: i };
        }
        if fronts.states == 0 {
            return Ending { yes: false, at: i };
        }
    }
    Ending {
        yes: false,
        at: end,
    }
}

// The first rest from that of index j on that lies past the rest of number x.
pub fn past_carrier(j: usize, x: usize) -> usize
    ensures { result ≡ max j x }
{
    j.max(x)
}

// From a state before the rest of index j to a first front, which is lent with slots where nothing is outstanding: how many states that has, or none where yes
// was found.
fn first_front(
    course: &Course,
    slots: &mut [u32],
    nogoods: &mut [u32],
    front: &mut [u32],
    j: usize,
    st: State,
) -> Option<usize>
    requires free { Free (course_of course.now) slots.old }
    requires sound { Sound (course_of course.now) nogoods.old }
    requires before { Before (course_of course.now) j st }
    ensures leads { let c = course_of course.now in OpensTo c (Completable c (count c - j) j st slots.old) j front.new nogoods.new result }
    ensures same { slots.new ≡ slots.old }
{
    let mut search = Search {
        slots: &mut *slots,
        used: 0,
        nogoods: &mut *nogoods,
        next: &mut *front,
        states: 0,
    };
    if verdict_search::step(course, &mut search, j, st) {
        return None;
    }
    Some(search.states)
}

// The same, where the first of two fronts is lent.
pub fn begin(
    course: &Course,
    slots: &mut [u32],
    nogoods: &mut [u32],
    fronts: &mut Fronts,
    j: usize,
    st: State,
) -> bool
    requires free { Free (course_of course.now) slots.old }
    requires sound { Sound (course_of course.now) nogoods.old }
    requires before { Before (course_of course.now) j st }
    ensures opens { let c = course_of course.now in Opens c (Completable c (count c - j) j st slots.old) j fronts.new nogoods.new result }
    ensures same { slots.new ≡ slots.old }
    ensures lent { SameFronts fronts.old fronts.new }
{
    let front = &mut *fronts.front;
    let Some(n) = first_front(course, slots, nogoods, front, j, st) else {
        fronts.states = 0;
        return true;
    };
    fronts.states = n;
    false
}

// Whether no more than so many long rests can be read, with nogoods that are emptied first.
fn possible_in<const RESTS: usize>(
    course: &Course,
    nogoods: &mut [u32],
    fronts: &mut Fronts,
) -> Ending
    requires few { count (course_of course.now) ≤ RESTS }
    requires room { RESTS ≤ 2 ^ 20 }
    ensures told { let c = course_of course.now in Told (CanBeRead c (replicate (count c) 0)) result.yes (Sound c nogoods.new) }
    ensures lent { SameFronts fronts.old fronts.new }
{
    let rests = &course.rests;
    let k = rests.starts.len();
    let mut room = [0u32; RESTS];
    let slots = &mut room[..k];
    verdict_nogoods::clear(nogoods, k);
    let rest = rules_items::rest_week(rests.starts, rests.ends, k, 0);
    if begin(course, slots, nogoods, fronts, 0, State::start(rest)) {
        return Ending { yes: true, at: 0 };
    }
    sweep_on(course, slots, nogoods, fronts, 0)
}

// Whether the long rests can be read at all, where nothing is outstanding before the first. The room of the fronts is any, none too.
pub fn possible(course: &Course, nogoods: &mut [u32], fronts: &mut Fronts) -> Ending
    ensures told { let c = course_of course.now in Told (CanBeRead c (replicate (count c) 0)) result.yes (Sound c nogoods.new) }
    ensures lent { SameFronts fronts.old fronts.new }
{
    if course.rests.starts.len() <= recording::SHORT_RESTS {
        return possible_in::<{ recording::SHORT_RESTS }>(course, nogoods, fronts);
    }
    possible_in::<{ recording::LONG_RESTS }>(course, nogoods, fronts)
}
