// The spans of weeks that are a breach by themselves while no shorter span inside them is one. A breach from a Monday on stays one when the end moves
// later, so one verdict from each Monday gives the last week of the shortest breach from there. The Mondays are taken from the last to the first: a span
// is one of those to list unless one that begins later ends no later.
#![tactic(auto)]

ghost use Rattle.std.specs.Prelude.{◌≡◌, ◌-◌, ◌^◌, ◌≤◌, ◌<◌, length, drop};
ghost use Rattle.recording.specs.Words.{minutes_in, activity_in, minutes_of};
ghost use Rattle.recording.specs.Answers.{answered, counted, filled, answer_of};
ghost use Rattle.recording.specs.Operations.{total_at_most};
ghost use Rattle.rules.specs.Verdict.{verdict};
ghost use Rattle.rules.specs.Operations.{finding_of};
ghost use Rattle.rules.specs.Spans.{weeks_begun, breach_spans, spans_given};
ghost use Rattle.verdict_sweep.specs.Sweep.{SameFronts};
ghost use Rattle.verdict_judging.specs.Judgements.{finding_by};
ghost use Rattle.verdict_spans.specs.Mondays.{Sound, last_by, Seated, Reaches};
ghost use Rattle.verdict_spans.specs.Listing.{spans_in, spans_by};

pub use listed::Spans;
use recording::{Recording, Refusal};
use rules::Weeks;
use verdict::{
    FEW_NOGOODS, FEW_STATES, MANY_NOGOODS, MANY_STATES, MOST_NOGOODS, MOST_STATES, PLENTY_NOGOODS,
    PLENTY_STATES, SOME_NOGOODS, SOME_STATES,
};
use verdict_judging::Verdict;
use verdict_sweep::Fronts;

mod listed;

/// The most weeks that a recording can begin.
pub const WEEKS: usize = (recording::TOTAL_AT_MOST / recording::WEEK_MINUTES) as usize;

/// Where a minute lies: the index of its word, and the minute at which that word begins.
#[derive(Clone, Copy)]
pub struct Seat {
    pub index: usize,
    pub start: u32,
}

// The weeks that so many minutes begin.
fn weeks_begun(minutes: u32) -> u32
    requires { minutes ≤ total_at_most }
    ensures { result ≡ weeks_begun minutes }
{
    (minutes + (recording::WEEK_MINUTES - 1)) / recording::WEEK_MINUTES
}

// The word that is left of one once its first minutes are taken away.
fn word_after(word: u32, minutes: u32) -> u32
    requires { minutes ≤ minutes_in word }
    ensures { (minutes_in result ≡ minutes_in word - minutes) × (activity_in result ≡ activity_in word) }
{
    word - 4 * minutes
}

// Where a minute lies, sought from a place after it towards the start.
fn seat_before(words: &[u32], from: Seat, minute: u32) -> Seat
    requires { Reaches words.now minute from × (minute < length (minutes_of words.now)) }
    ensures { Seated words.now minute result }
{
    let mut index = from.index;
    let mut start = from.start;
    // The walk goes back as far as it has to: no chain says it more plainly.
    while minute < start {
        index -= 1;
        start -= words[index] / 4;
    }
    Seat { index, start }
}

// The verdict on the recording from a minute on, which lies at this seat.
fn verdict_at(
    words: &[u32],
    total: u32,
    seat: Seat,
    minute: u32,
    nogoods: &mut [u32],
    fronts: &mut Fronts,
) -> Result<Verdict, Refusal>
    requires { (length (minutes_of words.now) ≤ total_at_most) × (total ≡ length (minutes_of words.now)) × Seated words.now minute seat }
    ensures answer { finding_by result ≡ answered (finding_of (verdict (drop minute (minutes_of words.now)))) }
    ensures lent { SameFronts fronts.old fronts.new }
{
    let index = seat.index;
    let head = word_after(words[index], minute - seat.start);
    let recording = Recording {
        head,
        words: &words[index + 1..],
    };
    verdict::verdict_from(recording, total - minute, nogoods, fronts)
}

// The last week of the shortest breach from the Monday of a week on, by the verdict from there; or the number of weeks where there is none.
fn last_week(weeks: u32, first: u32, found: Result<Verdict, Refusal>) -> u32
    requires { (first ≤ total_at_most) × Sound (finding_by found) }
    ensures { result ≡ last_by weeks first (finding_by found) }
{
    match found {
        Ok(Verdict::Breach(breach)) => first + (breach.minute - 1) / recording::WEEK_MINUTES,
        Ok(Verdict::Pass) => weeks,
        Err(_) => weeks,
    }
}

// The spans of a recording of so many minutes. The nogoods and the fronts are room for the search, of any length; every verdict
// takes the same.
fn spans_within(words: &[u32], total: u32, nogoods: &mut [u32], fronts: &mut Fronts) -> Spans
    requires { (length (minutes_of words.now) ≤ total_at_most) × (total ≡ length (minutes_of words.now)) }
    ensures spans { spans_in result ≡ breach_spans (minutes_of words.now) }
    ensures lent { SameFronts fronts.old fronts.new }
{
    let weeks = weeks_begun(total);
    let mut spans = [Weeks { first: 0, last: 0 }; WEEKS];
    let mut place = WEEKS;
    let mut seat = Seat {
        index: words.len(),
        start: total,
    };
    let mut first = weeks;
    let mut nearest = weeks;
    // From the last Monday to the first, with a seat that each step moves: no chain says it more plainly.
    while 0 < first {
        first -= 1;
        let monday = recording::WEEK_MINUTES * first;
        seat = seat_before(words, seat, monday);
        let found = verdict_at(words, total, seat, monday, nogoods, fronts);
        let last = last_week(weeks, first, found);
        if last < nearest {
            place -= 1;
            spans[place] = Weeks { first, last };
            nearest = last;
        }
    }
    Spans {
        weeks: spans,
        place,
    }
}

// The same with room of so many words for the nogoods and for each front.
fn spans_with<const NOGOODS: usize, const STATES: usize>(words: &[u32], total: u32) -> Spans
    requires words { (length (minutes_of words.now) ≤ total_at_most) × (total ≡ length (minutes_of words.now)) }
    requires small { (NOGOODS ≤ 2 ^ 20) × (STATES ≤ 2 ^ 20) }
    ensures { spans_in result ≡ breach_spans (minutes_of words.now) }
{
    let mut nogoods = [0u32; NOGOODS];
    let mut fronts = Fronts {
        front: &mut [0u32; STATES],
        other: &mut [0u32; STATES],
        states: 0,
    };
    spans_within(words, total, &mut nogoods, &mut fronts)
}

// The same with room by the number of long rests of the whole. No part of it has more.
fn spans_in_room(words: &[u32], total: u32, count: u32) -> Spans
    requires { (length (minutes_of words.now) ≤ total_at_most) × (total ≡ length (minutes_of words.now)) }
    ensures { spans_in result ≡ breach_spans (minutes_of words.now) }
{
    if count <= verdict::FEW {
        return spans_with::<FEW_NOGOODS, FEW_STATES>(words, total);
    }
    if count <= verdict::SOME {
        return spans_with::<SOME_NOGOODS, SOME_STATES>(words, total);
    }
    if count <= verdict::MANY {
        return spans_with::<MANY_NOGOODS, MANY_STATES>(words, total);
    }
    if count <= verdict::PLENTY {
        return spans_with::<PLENTY_NOGOODS, PLENTY_STATES>(words, total);
    }
    spans_with::<MOST_NOGOODS, MOST_STATES>(words, total)
}

/// The spans for a list of `room` records: weighing's refusals, or that of a list with too few.
pub fn spans_of(words: &[u32], room: usize) -> Result<Spans, Refusal>
    ensures { spans_by result ≡ spans_given words.now room }
{
    let weighing = recording::weigh(words);
    let Ok(measure) = weighing else {
        return Err(weighing.unwrap_err());
    };
    let spans = spans_in_room(words, measure.total, measure.count);
    let count = spans.list().len();
    if room < count {
        return Err(Refusal::ShortSpanList);
    }
    Ok(spans)
}

/// The spans that are a breach while no shorter span inside them is one, into a lent list, one record each: weighing's refusals, or that of a list with
/// too few.
pub fn breach_spans(words: &[u32], list: &mut [Weeks]) -> Result<u32, Refusal>
    ensures answer { answer_of result ≡ counted (spans_given words.now (length list.old)) }
    ensures list_after { list.new ≡ filled (spans_given words.now (length list.old)) list.old }
{
    let spans = spans_of(words, list.len())?;
    let count = recording_list::fill(list, spans.list().iter().copied());
    Ok(count as u32)
}
