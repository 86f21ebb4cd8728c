// Fronts: the states before a rest that no other makes needless, in one lent slice. An entry has the words of one in the table of nogoods; its week
// is that in which the rest starts. The first n entries are in use; the slice may have any length, and holds as many as it has room for.
#![tactic(auto)]

ghost use Rattle.std.specs.Prelude.{◌≡◌, true, ◌+◌, ◌<◌, ◌≤◌, length, MatchOption};
ghost use Rattle.verdict_nogoods.specs.Table.{reductions_at_most, entry_words, reductions_of};
ghost use Rattle.verdict_fronts.specs.Front.{entry_at, outstanding_in, Copied, Dominates, Dominated, AllDominated, Removed, Placed, Inserted};

use verdict_completion::State;
pub use verdict_nogoods::state_in;
use verdict_nogoods::{ENTRY_WORDS, REDUCTIONS_AT, REDUCTIONS_AT_MOST, reductions_at};

// The entry at p of a is at least as good as the entry at q of b. One with more reductions is not; that is seen first. None is where b's says
// that it has more reductions than words for them.
fn dominates(a: &[u32], p: usize, b: &[u32], q: usize) -> bool
    requires { (p + entry_words ≤ length a.now) × (q + entry_words ≤ length b.now) }
    ensures { result ≡ true → Dominates a.now p b.now q }
{
    a[p + REDUCTIONS_AT] <= b[q + REDUCTIONS_AT]
        && verdict_nogoods::is_better(a, p, b, q)
        && b[q + REDUCTIONS_AT] as usize <= REDUCTIONS_AT_MOST
        && verdict_nogoods::all_lie_within(reductions_at(a, p), reductions_at(b, q))
}

// One of the first n entries of a front is at least as good as the entry at q of another slice. None is where that says that it has more
// reductions than words for them.
fn dominated(front: &[u32], n: usize, other: &[u32], q: usize) -> bool
    requires { (entry_at n ≤ length front.now) × (q + entry_words ≤ length other.now) }
    ensures { result ≡ true → Dominated front.now n other.now q }
{
    other[q + REDUCTIONS_AT] as usize <= REDUCTIONS_AT_MOST
        && verdict_nogoods::one_is_as_good(front, n, other, q, reductions_at(other, q))
}

/// Whether something is known, and for each of the first g known entries one of the first n of a front is at least as good.
pub fn all_matched(known: &[u32], g: usize, front: &[u32], n: usize) -> bool
    requires { (entry_at g ≤ length known.now) × (entry_at n ≤ length front.now) }
    ensures { result ≡ true → (0 < g) × AllDominated known.now g front.now n }
{
    for e in 0..g {
        if !dominated(front, n, known, ENTRY_WORDS * e) {
            return false;
        }
    }
    0 < g
}

// The entry at p also stands at q. It goes by way of an array, so that its length is known where it is copied.
fn move_entry(front: &mut [u32], p: usize, q: usize)
    requires { (p + entry_words ≤ length front.old) × (q + entry_words ≤ length front.old) }
    ensures { Copied front.old front.new front.old p q }
{
    let mut entry = [0; ENTRY_WORDS];
    entry.copy_from_slice(&front[p..p + ENTRY_WORDS]);
    front[q..q + ENTRY_WORDS].copy_from_slice(&entry);
}

// The entries that the new one is at least as good as are removed, the others move up; how many are left.
fn remove_dominated(front: &mut [u32], n: usize, new: &[u32]) -> usize
    requires { (entry_at n ≤ length front.old) × (entry_words ≤ length new.now) }
    ensures { Removed front.old front.new new.now n result }
{
    let mut r = 0;
    for i in 0..n {
        let p = ENTRY_WORDS * i;
        if dominates(new, 0, front, p) {
            continue;
        }
        if r < i {
            move_entry(front, p, ENTRY_WORDS * r);
        }
        r += 1;
    }
    r
}

// Puts the new entry into a front of n entries: dropped where one of them is at least as good; otherwise those that it is at least as good as are
// removed, and it comes last, if there is room. Where it does not fit nothing is removed. How many there are then.
fn put_entry(front: &mut [u32], n: usize, new: &[u32]) -> Option<usize>
    requires { (entry_at n ≤ length front.old) × (length new.now ≡ entry_words) }
    ensures { MatchOption result (front.new ≡ front.old) (λ k. Placed front.old front.new new.now n k) }
{
    if dominated(front, n, new, 0) {
        return Some(n);
    }
    let left = remove_dominated(front, n, new);
    if front.len() / ENTRY_WORDS <= left {
        return None;
    }
    let p = ENTRY_WORDS * left;
    front[p..p + ENTRY_WORDS].copy_from_slice(new);
    Some(left + 1)
}

/// The same, of a state and what is outstanding. It does not fit either where there are too many reductions, or no room for any entry.
pub fn insert(front: &mut [u32], n: usize, here: State, outstanding: &[u32]) -> Option<usize>
    requires { entry_at n ≤ length front.old }
    ensures { MatchOption result (front.new ≡ front.old) (λ k. Inserted front.old front.new outstanding.now here n k) }
{
    if front.len() < ENTRY_WORDS || REDUCTIONS_AT_MOST < verdict_nogoods::reductions(outstanding) {
        return None;
    }
    let mut new = [0; ENTRY_WORDS];
    verdict_nogoods::write(&mut new, 0, here, outstanding);
    put_entry(front, n, &new)
}

/// How many reductions the entry at p has.
pub fn reductions_in(front: &[u32], p: usize) -> usize
    requires { (p + entry_words ≤ length front.now) × (reductions_of front.now p ≤ reductions_at_most) }
    ensures { result ≡ reductions_of front.now p }
{
    reductions_at(front, p).len()
}

/// Writes what is outstanding in the entry at p into slots.
pub fn outstanding_in(front: &[u32], p: usize, outstanding: &mut [u32])
    requires { (p + entry_words ≤ length front.now) × (reductions_of front.now p ≤ reductions_at_most) × (reductions_of front.now p ≤ length outstanding.old) }
    ensures { outstanding.new ≡ outstanding_in front.now p (length outstanding.old) }
{
    outstanding.fill(0);
    recording_list::fill(outstanding, reductions_at(front, p).iter().copied());
}
