// A question of the first reading, swept beside a front that is known to lead to a reading. It ends where each state of that front is matched by one of
// the question's.
#![tactic(auto)]

ghost use Rattle.std.specs.Prelude.{◌≡◌, ◌+◌, ◌-◌, ◌<◌, ◌≤◌, length};
ghost use Rattle.verdict_completion.specs.Completable.{count, Completable, Tries};
ghost use Rattle.verdict_completion.specs.Courses.{course_of};
ghost use Rattle.verdict_completion.specs.Better.{AtRest};
ghost use Rattle.verdict_fronts.specs.Front.{entry_at};
ghost use Rattle.verdict_search.specs.Search.{Later, Sound, Free, Before};
ghost use Rattle.verdict_sweep.specs.Sweep.{SameFronts, OpensTo};
ghost use Rattle.verdict_merging.specs.Merging.{nothing, Ready, SameRoom, Abreast, AnyAsked, Trusted, ToldIf, Besides, Reaches, Knows, Trial, Renewed, Matched};

use verdict_completion::{Course, State};
use verdict_search::Search;
use verdict_sweep::Fronts;

// What a question is lent to find its answer in: a slot for each long rest, the nogoods, the question's two fronts and the two known ones.
#[derive(Drop)]
pub struct Room<'a> {
    pub slots: &'a mut [u32],
    pub nogoods: &'a mut [u32],
    pub asked: Fronts<'a>,
    pub known: Fronts<'a>,
}

// The nogoods of k rests are emptied for a course in which the rest of number x, if that is one, has another compensation.
pub fn renew(nogoods: &mut [u32], k: usize, x: usize)
    ensures { Renewed k x nogoods.old nogoods.new }
{
    if x != 0 {
        verdict_nogoods::clear(nogoods, k);
    }
}

// Whether something is known, and each known state is matched by one of the question's.
fn all_matched(room: &Room) -> bool
    requires known { entry_at room.now.known.states ≤ length room.now.known.front.now }
    requires asked { entry_at room.now.asked.states ≤ length room.now.asked.front.now }
    ensures { Matched room.now result }
{
    let known = &*room.known.front;
    let asked = &*room.asked.front;
    let g = room.known.states;
    let n = room.asked.states;
    verdict_fronts::all_matched(known, g, asked, n)
}

// From two fronts before the rest of index j, the question's and the known one, to the next two: whether the question is answered yes.
fn beside_rest(course: &Course, room: &mut Room, j: usize) -> bool
    requires ready { Ready (course_of course.now) room.old }
    requires within { j < count (course_of course.now) }
    requires abreast { Abreast (course_of course.now) j room.old }
    ensures besides { Besides (course_of course.now) j room.old (j + 1) room.new result }
    ensures lent { SameRoom room.old room.new }
{
    let slots = &mut *room.slots;
    let nogoods = &mut *room.nogoods;
    let asked = &mut room.asked;
    if verdict_sweep::sweep_rest(course, slots, nogoods, asked, j) {
        room.known.states = 0;
        return true;
    }
    if room.asked.states == 0 || room.known.states == 0 {
        room.known.states = 0;
        return false;
    }
    let slots = &mut *room.slots;
    let nogoods = &mut *room.nogoods;
    let known = &mut room.known;
    if verdict_sweep::sweep_rest(course, slots, nogoods, known, j) {
        room.known.states = 0;
        return false;
    }
    all_matched(room)
}

// So many rests a question goes beside the known front: those that merge mostly do so soon, and the known front costs as much as the question's.
const BESIDE: usize = 16;

// From two fronts before the rest of index j to the first rest at which they merge; past so many rests the question goes on alone, to the end.
fn merge_on(course: &Course, room: &mut Room, j: usize) -> bool
    requires ready { Ready (course_of course.now) room.old }
    requires within { j ≤ count (course_of course.now) }
    requires abreast { Abreast (course_of course.now) j room.old }
    ensures told { let c = course_of course.now in ToldIf (Trusted c j room.old) (AnyAsked c j room.old) result (Ready c room.new) }
    ensures lent { SameRoom room.old room.new }
{
    if all_matched(room) {
        return true;
    }
    let last = course.rests.starts.len().min(j + BESIDE);
    for i in j..last {
        if beside_rest(course, room, i) {
            return true;
        }
        if room.asked.states == 0 {
            return false;
        }
    }
    let slots = &mut *room.slots;
    let nogoods = &mut *room.nogoods;
    let asked = &mut room.asked;
    let ending = verdict_sweep::sweep_on(course, slots, nogoods, asked, last);
    ending.yes
}

// From a state before the rest of index j, where nothing is outstanding, to the front before that of index `to`: whether it is answered yes on the way.
fn ask_to(
    course: &Course,
    slots: &mut [u32],
    nogoods: &mut [u32],
    fronts: &mut Fronts,
    j: usize,
    st: State,
    to: usize,
) -> bool
    requires slots { length slots.old ≡ count (course_of course.now) }
    requires sound { Sound (course_of course.now) nogoods.old }
    requires before { Before (course_of course.now) j st }
    requires on { j ≤ to }
    requires within { to ≤ count (course_of course.now) }
    ensures reaches { let c = course_of course.now in Reaches c (Completable c (count c - j) j st (nothing c)) to fronts.new nogoods.new result }
    ensures lent { SameFronts fronts.old fronts.new }
{
    slots.fill(0);
    verdict_sweep::begin(course, slots, nogoods, fronts, j, st)
        || verdict_sweep::sweep_to(course, slots, nogoods, fronts, j, to)
}

// From a state at the rest of index j to a first front, with slots where nothing is outstanding: how many states it has, or none where one was found good.
fn first_known(
    course: &Course,
    slots: &mut [u32],
    nogoods: &mut [u32],
    front: &mut [u32],
    j: usize,
    here: State,
) -> Option<usize>
    requires free { Free (course_of course.now) slots.old }
    requires sound { Sound (course_of course.now) nogoods.old }
    requires rest { AtRest (course_of course.now) j here }
    ensures { let c = course_of course.now in OpensTo c (Tries c (Later c j) j here slots.old) j front.new nogoods.new result }
{
    let mut search = Search {
        slots: &mut *slots,
        used: 0,
        nogoods: &mut *nogoods,
        next: &mut *front,
        states: 0,
    };
    if verdict_search::place(course, &mut search, j, here) {
        return None;
    }
    Some(search.states)
}

// From a state at the rest of index j, where nothing is outstanding, to the front before that of index `to`. It has no state where one was found good on the
// way: nothing is known of the front then.
fn know_to(
    course: &Course,
    slots: &mut [u32],
    nogoods: &mut [u32],
    fronts: &mut Fronts,
    j: usize,
    here: State,
    to: usize,
)
    requires slots { length slots.old ≡ count (course_of course.now) }
    requires sound { Sound (course_of course.now) nogoods.old }
    requires rest { AtRest (course_of course.now) j here }
    requires on { j ≤ to }
    requires within { to ≤ count (course_of course.now) }
    ensures knows { let c = course_of course.now in Knows c (Tries c (Later c j) j here (nothing c)) to fronts.new nogoods.new }
    ensures lent { SameFronts fronts.old fronts.new }
{
    slots.fill(0);
    let front = &mut *fronts.front;
    let Some(states) = first_known(course, slots, nogoods, front, j, here) else {
        fronts.states = 0;
        return;
    };
    fronts.states = states;
    if verdict_sweep::sweep_to(course, slots, nogoods, fronts, j, to) {
        fronts.states = 0;
    }
}

// The question of `completes_beside`. What stands in the slots is given up.
fn asks_beside<'a>(
    course: &Course<'a>,
    trial: &Course<'a>,
    room: &mut Room,
    j: usize,
    here: State,
    next: State,
    x: usize,
) -> bool
    requires ready { Ready (course_of course.now) room.old }
    requires trial { Trial (course_of course.now) (course_of trial.now) x }
    requires rest { AtRest (course_of course.now) j here }
    requires next { Before (course_of trial.now) (j + 1) next }
    requires number { x ≤ count (course_of course.now) }
    ensures told { let c = course_of course.now in let d = course_of trial.now in
        ToldIf (Tries c (Later c j) j here (nothing c)) (Later d j next (nothing d)) result (Ready c room.new) }
    ensures lent { SameRoom room.old room.new }
{
    let k = course.rests.starts.len();
    let to = verdict_sweep::past_carrier(j + 1, x);
    let slots = &mut *room.slots;
    let nogoods = &mut *room.nogoods;
    let asked = &mut room.asked;
    renew(nogoods, k, x);
    let good = ask_to(trial, slots, nogoods, asked, j + 1, next, to);
    renew(nogoods, k, x);
    if good {
        return true;
    }
    if asked.states == 0 {
        return false;
    }
    let known = &mut room.known;
    know_to(course, slots, nogoods, known, j, here, to);
    renew(nogoods, k, x);
    let merges = merge_on(trial, room, to);
    let nogoods = &mut *room.nogoods;
    renew(nogoods, k, x);
    merges
}

// Whether the rests from that of index j + 1 on can be read from the state `next` in a trial of the course, in which the rest of number x has another
// compensation (0 is none), where nothing is outstanding. A yes may rest on that the rests from that of index j on can be read from the state `here` at that
// rest in the course itself: past the rest of number x, where each state that this can lead to is matched by one that `next` leads to, the answer is yes.
// Afterwards nothing is outstanding in the slots.
pub fn completes_beside<'a>(
    course: &Course<'a>,
    trial: &Course<'a>,
    room: &mut Room,
    j: usize,
    here: State,
    next: State,
    x: usize,
) -> bool
    requires ready { Ready (course_of course.now) room.old }
    requires trial { Trial (course_of course.now) (course_of trial.now) x }
    requires rest { AtRest (course_of course.now) j here }
    requires next { Before (course_of trial.now) (j + 1) next }
    requires number { x ≤ count (course_of course.now) }
    ensures told { let c = course_of course.now in let d = course_of trial.now in
        ToldIf (Tries c (Later c j) j here (nothing c)) (Later d j next (nothing d)) result (Ready c room.new) }
    ensures lent { SameRoom room.old room.new }
    ensures empty { room.new.slots.now ≡ nothing (course_of course.now) }
{
    let good = asks_beside(course, trial, room, j, here, next, x);
    room.slots.fill(0);
    good
}
