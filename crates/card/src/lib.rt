// The card's own day record: writing words as days. What is said of it stands in specs/, of its form in card_reader/specs.
#![tactic(auto)]

ghost use Rattle.std.specs.Prelude.{◌≡◌, ◌*◌, ◌≤◌, ◌<◌, length};
ghost use Rattle.std.proofs.lemmas.List.Edits.{sets};
ghost use Rattle.recording.specs.Answers.{answer_of, counted, filled};
ghost use Rattle.recording.specs.Words.{code_of, minutes_of};
ghost use Rattle.recording.specs.Operations.{total_at_most};
ghost use Rattle.card_reader.specs.Form.{byte_values, day_minutes};
ghost use Rattle.card.specs.Writing.{change_of, is_written, record_of_minutes, card_written};
ghost use Rattle.card.specs.Sizes.{changes_in_run, changes_counted};

use card_reader::{ACTIVITY, DAY_MINUTES};
use recording::{Activity, Refusal, Run};

// Whether a change is written at this minute of a day: at minute 0, and where the activity differs from the one before.
fn is_written(minute: u32, before: Activity, activity: Activity) -> bool
    ensures { result ≡ is_written minute (code_of before) (code_of activity) }
{
    minute == 0 || activity != before
}

// The changes of a run that begins at this minute of a day.
fn changes_in_run(minute: u32, before: Activity, run: Run) -> u32
    requires { (minute < day_minutes) × (1 ≤ run.minutes) × (run.minutes ≤ total_at_most) }
    ensures { result ≡ changes_in_run minute (code_of before) (code_of run.activity) run.minutes }
{
    let midnights = (minute + run.minutes - 1) / DAY_MINUTES;
    midnights + u32::from(is_written(minute, before, run.activity))
}

// The first pass over the words: weighing's refusals; 11, not whole days; or how many changes are written.
fn count_changes(words: &[u32]) -> Result<u32, Refusal>
    ensures { answer_of result ≡ changes_counted words.now }
{
    let mut sum = 0;
    let mut before = Activity::Rest;
    let mut changes = 0;
    for &word in words {
        let total = recording::total_after(sum, word)?;
        let run = Run::from(word);
        changes += changes_in_run(sum % DAY_MINUTES, before, run);
        sum = total;
        before = run.activity;
    }
    if sum % DAY_MINUTES != 0 {
        return Err(Refusal::NotWholeDays);
    }
    Ok(changes)
}

// A change of this activity, with s, c and p zero.
#[tactic(auto, unfolding(crate::specs::Writing::change_of))]
fn change_of(activity: Activity, minute: u32) -> u32
    requires { minute < day_minutes }
    ensures { (result ≡ change_of (code_of activity) minute) × (result < byte_values * byte_values) }
{
    match activity {
        Activity::Rest => minute,
        Activity::Availability => ACTIVITY + minute,
        Activity::OtherWork => 2 * ACTIVITY + minute,
        Activity::Driving => 3 * ACTIVITY + minute,
    }
}

// The day record of a recording, as far as the bytes reach: each run is cut at midnight, and a part has one change or none.
fn put_days(words: &[u32], bytes: &mut [u8])
    requires { length (minutes_of words.now) ≤ total_at_most }
    ensures { bytes.new ≡ sets bytes.old 0 (record_of_minutes (minutes_of words.now)) }
{
    let mut at = 0;
    let mut minute = 0;
    let mut before = Activity::Rest;
    for &word in words {
        let run = Run::from(word);
        let mut left = run.minutes;
        while left != 0 {
            if is_written(minute, before, run.activity) {
                let change = change_of(run.activity, minute);
                recording::put(bytes, at, (change / 256) as u8);
                recording::put(bytes, at + 1, (change % 256) as u8);
                at += 2;
            }
            let part = left.min(DAY_MINUTES - minute);
            minute = (minute + part) % DAY_MINUTES;
            before = run.activity;
            left -= part;
        }
    }
}

/// Writing a day record: refusals 1 and 2; 11, not whole days; 10, too few bytes; or the count of bytes.
pub fn write_card(words: &[u32], bytes: &mut [u8]) -> Result<u32, Refusal>
    ensures answer { answer_of result ≡ counted (card_written words.now (length bytes.old)) }
    ensures bytes_after { bytes.new ≡ filled (card_written words.now (length bytes.old)) bytes.old }
{
    let counting = count_changes(words);
    let Ok(changes) = counting else {
        return Err(counting.unwrap_err());
    };
    let length = 2 * changes;
    if bytes.len() < length as usize {
        return Err(Refusal::TooFewBytes);
    }
    put_days(words, bytes);
    Ok(length)
}
