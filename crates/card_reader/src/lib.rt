// The card's own day record: reading it into words. What is said of it stands in specs/.
#![tactic(auto)]

ghost use Rattle.std.specs.Prelude.{◌≡◌, ◌+◌, ◌≤◌, ◌<◌, length};
ghost use Rattle.std.specs.Iterator.{YieldsFirst, item_count};
ghost use Rattle.std.proofs.lemmas.List.Edits.{sets};
ghost use Rattle.recording.specs.Answers.{answer_of, counted, filled};
ghost use Rattle.card_reader.specs.Form.{activity_place};
ghost use Rattle.card_reader.specs.Reading.{changes_in, is_unknown, follows, end_before, words_of, card_read};
ghost use Rattle.card_reader.specs.Passes.{slice_places, begun, after_change, judged_from};

use recording::Refusal;

/// The changes of a record, one after another.
#[derive(Clone, Copy)]
pub struct Changes<'a> {
    bytes: &'a [u8],
}

/// What the first pass over a record finds: whether each change follows the one before, whether each activity is known, how many
/// days begin; and the minute of the last change.
#[derive(Clone, Copy, Debug, PartialEq, Eq)]
pub struct Judgement {
    pub ordered: bool,
    pub known: bool,
    pub days: usize,
    pub minute: u32,
}

pub const DAY_MINUTES: u32 = 1440;

const DAYS_AT_MOST: usize = (recording::TOTAL_AT_MOST / DAY_MINUTES) as usize;

// What one is worth in a change at the places of its crew bit, its card-out bit and its activity; below stands the minute.
const CREW: u32 = 16384;

const CARD_OUT: u32 = 8192;

pub const ACTIVITY: u32 = 2048;

impl<'a> Iterator for Changes<'a> {
    type Item = u32;

    ghost next_gives = { YieldsFirst (λ changes. changes_in changes.bytes.now) };

    ghost remaining = { item_count (λ changes. changes_in changes.bytes.now) };

    // The high byte stands first.
    fn next(&mut self) -> Option<u32> {
        let [high, low, rest @ ..] = self.bytes else {
            return None;
        };
        self.bytes = rest;
        Some(256 * u32::from(*high) + u32::from(*low))
    }
}

// Whether a change at this minute may stand after one at the minute before: it begins a day, or its minute is a later one of the day.
fn may_follow(before: u32, minute: u32) -> bool
    ensures { result ≡ follows before minute }
{
    minute == 0 || (minute < DAY_MINUTES && before < minute)
}

// Whether a change has an unknown activity: card out, and c zero.
fn is_unknown(change: u32) -> bool
    ensures { result ≡ is_unknown change }
{
    change / CARD_OUT % 2 == 1 && change / CREW % 2 != 1
}

impl Judgement {
    // Before the first change, after which nothing but minute 0 follows.
    fn begun() -> Judgement
        ensures { result ≡ begun }
    {
        Judgement {
            ordered: true,
            known: true,
            days: 0,
            minute: DAY_MINUTES - 1,
        }
    }

    // What is found after another change.
    fn after(self, change: u32) -> Judgement
        requires { self.days < slice_places }
        ensures { result ≡ after_change self change }
    {
        let minute = change % ACTIVITY;
        Judgement {
            ordered: self.ordered && may_follow(self.minute, minute),
            known: self.known && !is_unknown(change),
            days: self.days + usize::from(minute == 0),
            minute,
        }
    }
}

// The first pass over a record, change by change.
fn judge(bytes: &[u8]) -> Judgement
    ensures { result ≡ judged_from begun (changes_in bytes.now) }
{
    let mut found = Judgement::begun();
    for change in (Changes { bytes }) {
        found = found.after(change);
    }
    found
}

// Where the activity ends of a change that stands before these: at the day's next change, or with the day.
fn end_before(mut changes: Changes) -> u32
    ensures { (result ≡ end_before (changes_in changes.entry.bytes.now)) × (result ≤ activity_place) }
{
    if let Some(change) = changes.next() {
        let minute = change % ACTIVITY;
        if minute != 0 {
            return minute;
        }
    }
    DAY_MINUTES
}

// The second pass: a word for each change, as far as the words reach.
fn put_words(bytes: &[u8], words: &mut [u32])
    ensures { words.new ≡ sets words.old 0 (words_of (changes_in bytes.now)) }
{
    let mut changes = Changes { bytes };
    let mut at = 0;
    while let Some(change) = changes.next() {
        let minutes = end_before(changes).saturating_sub(change % ACTIVITY);
        let code = change / ACTIVITY % 4;
        recording::put(words, at, 4 * minutes + code);
        at += 1;
    }
}

/// Reading a day record: refusal 11, not of the form; 12, an unknown activity; 2, the total passes the limit; 9, too few words; or the
/// count of words, one a change.
pub fn read_card(bytes: &[u8], words: &mut [u32]) -> Result<u32, Refusal>
    ensures answer { answer_of result ≡ counted (card_read bytes.now (length words.old)) }
    ensures words_after { words.new ≡ filled (card_read bytes.now (length words.old)) words.old }
{
    let found = judge(bytes);
    let size = bytes.len();
    if size % 2 != 0 || !found.ordered {
        return Err(Refusal::NotWholeDays);
    }
    if !found.known {
        return Err(Refusal::UnknownActivity);
    }
    if found.days > DAYS_AT_MOST {
        return Err(Refusal::TooLong);
    }
    if words.len() < size / 2 {
        return Err(Refusal::TooFewWords);
    }
    put_words(bytes, words);
    Ok((size / 2) as u32)
}
