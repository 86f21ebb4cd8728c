// Nogoods: the states that the search found cannot be completed, in one lent slice of any length: a level for each long rest, as far as it reaches.
// What is outstanding is told by a slice of reductions, of which some may be 0: there is none.
#![tactic(auto)]

ghost use Rattle.std.specs.Prelude.{◌≡◌, true, ℕ, ◌+◌, ◌*◌, ◌<◌, ◌≤◌, length, count_by};
ghost use Rattle.verdict_completion.specs.Better.{Within, Better};
ghost use Rattle.verdict_nogoods.specs.Table.{reductions_at_most, entry_words, state_words, words_of, state_in, reductions_at, Paired, Dominates, OneDominates};
ghost use Rattle.verdict_nogoods.specs.Table.{Known, Remembered, Empty, is_reduction, stated, PutAll, Written};

use verdict_completion::{Counts, REDUCTION_UNIT, State};

// A level has a word that says how many states were stored, and a ring of so many entries.
const RING: u32 = 16;

// An entry has a state's six numbers and the number of its reductions; so many reductions at the most.
pub const REDUCTIONS_AT: usize = 6;

const REDUCTION_AT: usize = 7;

pub const REDUCTIONS_AT_MOST: usize = 8;

pub const ENTRY_WORDS: usize = REDUCTION_AT + REDUCTIONS_AT_MOST;

pub const LEVEL_WORDS: usize = 1 + RING as usize * ENTRY_WORDS;

// A table for the long rests of any year that can pass: with 3 rests of 540 minutes or more and the others of 660 or more between weekly rests, there are
// fewer. Later rests have no level.
const LEVELS: usize = 832;

pub const TABLE_WORDS: usize = LEVELS * LEVEL_WORDS;

/// The first k levels are emptied, as far as the table reaches.
pub fn clear(table: &mut [u32], k: usize)
    ensures { Empty table.new k }
{
    for i in 0..k.min(table.len().div_ceil(LEVEL_WORDS)) {
        table[LEVEL_WORDS * i] = 0;
    }
}

/// The state of the entry at p, in week w.
#[inline]
pub fn state_in(words: &[u32], p: usize, w: u32) -> State
    requires { p + entry_words ≤ length words.now }
    ensures { result ≡ state_in words.now p w }
{
    State {
        ended: words[p],
        short: words[p + 1],
        week: w,
        before: Counts {
            weekly: words[p + 2],
            regular: words[p + 3],
        },
        current: Counts {
            weekly: words[p + 4],
            regular: words[p + 5],
        },
    }
}

/// Its reductions, no more than it has words for.
#[inline]
pub fn reductions_at(words: &[u32], p: usize) -> &[u32]
    requires { p + entry_words ≤ length words.now }
    ensures { result.now ≡ reductions_at words.now p }
{
    let count = (words[p + REDUCTIONS_AT] as usize).min(REDUCTIONS_AT_MOST);
    &words[p + REDUCTION_AT..p + REDUCTION_AT + count]
}

// A stored reduction lies within a present one: that is no less, and due no later.
fn lies_within(stored: u32, present: u32) -> bool
    ensures { result ≡ true → Within stored present }
{
    if present == 0 {
        return false;
    }
    if present % REDUCTION_UNIT < stored % REDUCTION_UNIT {
        return false;
    }
    present / REDUCTION_UNIT <= stored / REDUCTION_UNIT
}

/// Each stored reduction lies within one of those present, in order: within the first that fits, after that of the reduction before. It goes through the
/// present ones with an index of the stored: no chain says it more plainly.
pub fn all_lie_within(stored: &[u32], present: &[u32]) -> bool
    ensures { result ≡ true → Paired stored.now present.now }
{
    let mut d = 0;
    for (i, &reduction) in present.iter().enumerate() {
        if d == stored.len() {
            return true;
        }
        if present.len() - i < stored.len() - d {
            return false;
        }
        if lies_within(stored[d], reduction) {
            d += 1;
        }
    }
    d == stored.len()
}

/// The six numbers of the entry at p of a are at least as good as those of the entry at q of b, in whatever week. Most entries are told apart by the first.
#[inline]
pub fn is_better(a: &[u32], p: usize, b: &[u32], q: usize) -> bool
    requires entry { p + state_words ≤ length a.now }
    requires other { q + state_words ≤ length b.now }
    ensures { result ≡ true → Better (state_in a.now p 0) (state_in b.now q 0) }
{
    b[q] <= a[p]
        && a[p + 1] <= b[q + 1]
        && b[q + 2] <= a[p + 2]
        && b[q + 3] <= a[p + 3]
        && b[q + 4] <= a[p + 4]
        && b[q + 5] <= a[p + 5]
}

// The entry at p of a is at least as good as the state of the entry at q of b with what is outstanding. One with more reductions is not; that is seen first.
// Nor is one that says more than it has words for.
#[inline]
fn is_as_good(a: &[u32], p: usize, b: &[u32], q: usize, outstanding: &[u32]) -> bool
    requires entry { p + entry_words ≤ length a.now }
    requires state { q + state_words ≤ length b.now }
    ensures { result ≡ true → Dominates a.now p (state_in b.now q 0) outstanding.now }
{
    a[p + REDUCTIONS_AT] as usize <= outstanding.len()
        && is_better(a, p, b, q)
        && a[p + REDUCTIONS_AT] as usize <= REDUCTIONS_AT_MOST
        && all_lie_within(reductions_at(a, p), outstanding)
}

/// One of the first n entries of a, which stand one after the other, is. The last ones are seen first.
pub fn one_is_as_good(a: &[u32], n: usize, b: &[u32], q: usize, outstanding: &[u32]) -> bool
    requires entries { entry_words * n ≤ length a.now }
    requires state { q + state_words ≤ length b.now }
    ensures { result ≡ true → OneDominates a.now n (state_in b.now q 0) outstanding.now }
{
    for e in (0..n).rev() {
        if is_as_good(a, ENTRY_WORDS * e, b, q, outstanding) {
            return true;
        }
    }
    false
}

// The words of a state with so many reductions, as an entry begins with them.
fn words_of(here: State, count: u32) -> [u32; REDUCTION_AT]
    ensures { result ≡ words_of here count }
{
    [
        here.ended,
        here.short,
        here.before.weekly,
        here.before.regular,
        here.current.weekly,
        here.current.regular,
        count,
    ]
}

/// An entry of level j, where that lies within the table, is at least as good as a state with what is outstanding.
pub fn knows(table: &[u32], j: usize, here: State, outstanding: &[u32]) -> bool
    ensures { result ≡ true → Known table.now j here outstanding.now }
{
    if table.len() / LEVEL_WORDS <= j {
        return false;
    }
    let level = LEVEL_WORDS * j;
    let used = table[level].min(RING) as usize;
    one_is_as_good(
        &table[level + 1..],
        used,
        &words_of(here, 0),
        0,
        outstanding,
    )
}

/// How many reductions there are.
pub fn reductions(outstanding: &[u32]) -> usize
    ensures { result ≡ count_by is_reduction outstanding.now }
{
    outstanding
        .iter()
        .filter(|reduction| 0 < **reduction)
        .count()
}

// Writes what is outstanding into the entry at p; how many reductions there are.
fn put_reductions(words: &mut [u32], p: usize, outstanding: &[u32]) -> usize
    requires entry { p + entry_words ≤ length words.old }
    requires few { count_by is_reduction outstanding.now ≤ reductions_at_most }
    ensures { PutAll words.old words.new p outstanding.now (length outstanding.now) result }
{
    let mut d = 0;
    for &reduction in outstanding {
        if reduction != 0 {
            words[p + REDUCTION_AT + d] = reduction;
            d += 1;
        }
    }
    d
}

// Writes a state with n reductions into the entry at p.
fn put_state(words: &mut [u32], p: usize, here: State, n: usize)
    requires entry { p + entry_words ≤ length words.old }
    requires few { n ≤ reductions_at_most }
    ensures { words.new ≡ stated words.old p here n }
{
    words[p..p + REDUCTION_AT].copy_from_slice(&words_of(here, n as u32));
}

/// Writes a state and what is outstanding as the entry at p.
pub fn write(words: &mut [u32], p: usize, here: State, outstanding: &[u32])
    requires entry { p + entry_words ≤ length words.old }
    requires few { count_by is_reduction outstanding.now ≤ reductions_at_most }
    ensures { Written words.old words.new p here outstanding.now }
{
    let n = put_reductions(words, p, outstanding);
    put_state(words, p, here, n);
}

// One more was stored. The count goes up to the last of a second round of the ring, and from there back to a full ring.
fn one_more(n: u32) -> u32
    ensures { result ≤ n + 1 }
{
    if n < 2 * RING - 1 { n + 1 } else { RING }
}

/// Stores a state of level j with what is outstanding, if the level lies within the table and there are few enough reductions; the oldest is given up where
/// the level is full.
pub fn store(table: &mut [u32], j: usize, here: State, outstanding: &[u32])
    ensures { Remembered table.old table.new j here outstanding.now }
{
    if table.len() / LEVEL_WORDS <= j || REDUCTIONS_AT_MOST < reductions(outstanding) {
        return;
    }
    let level = LEVEL_WORDS * j;
    let stored = table[level];
    let e = (stored % RING) as usize;
    write(table, level + 1 + ENTRY_WORDS * e, here, outstanding);
    table[level] = one_more(stored);
}
