// Bracket text: reading it into words, and writing words as text. What is said of it stands in specs/ and in crates/text_lines/specs.
#![tactic(auto)]

ghost use Rattle.std.specs.Prelude.{◌≡◌, [], ◌+◌, ◌≤◌, ◌<◌, length, MatchOption};
ghost use Rattle.std.specs.Bool.{then_some};
ghost use Rattle.std.proofs.lemmas.List.Edits.{sets};
ghost use Rattle.recording.specs.Answers.{answer_of, counted, filled};
ghost use Rattle.recording.specs.Words.{code_of, word_of, minutes_of};
ghost use Rattle.recording.specs.Operations.{total_at_most};
ghost use Rattle.text_lines.specs.Form.{text_of_lines};
ghost use Rattle.text_lines.specs.Reading.{lines_in, is_text, words_of, text_read};
ghost use Rattle.text.specs.Writing.{text_of_minutes, text_written};
ghost use Rattle.text.specs.Page.{places, Puts};
ghost use Rattle.text.specs.Passes.{roomy, FirstRun, part_lines, left_after, Writable};

pub use page::Page;
use recording::{Activity, Refusal, Run};
use text_lines::{Line, Stage};
use text_reader::Reader;

mod page;

// ---- reading

// How many run lines a text has, if it is of the form. What follows a wrong line is not read.
fn runs_of(text: &[u8]) -> Option<usize>
    ensures { result ≡ then_some (is_text text.now) (length (words_of (lines_in text.now))) }
{
    let mut stage = Stage::Before;
    let mut runs = 0;
    for line in Reader::new(text) {
        stage = stage.after(line);
        if let Stage::Wrong = stage {
            return None;
        }
        if let Line::Run(_) = line {
            runs += 1;
        }
    }
    match stage {
        Stage::Over => Some(runs),
        _ => None,
    }
}

// A word for each run line, as far as the words reach.
fn put_words(text: &[u8], words: &mut [u32])
    ensures { words.new ≡ sets words.old 0 (words_of (lines_in text.now)) }
{
    // Not every line has a word, so the words' own index is counted.
    let mut at = 0;
    for line in Reader::new(text) {
        if let Line::Run(word) = line {
            recording::put(words, at, word);
            at += 1;
        }
    }
}

/// Reading text: refusal 8, not of the form; 9, too few words; or the count of words, one a run line.
pub fn read_text(text: &[u8], words: &mut [u32]) -> Result<u32, Refusal>
    ensures answer { answer_of result ≡ counted (text_read text.now (length words.old)) }
    ensures words_after { words.new ≡ filled (text_read text.now (length words.old)) words.old }
{
    let Some(runs) = runs_of(text) else {
        return Err(Refusal::NotText);
    };
    if words.len() < runs {
        return Err(Refusal::TooFewWords);
    }
    put_words(text, words);
    Ok(runs as u32)
}

// ---- writing

// A run that the week can take, with the week's own lines where it begins or ends there.
fn put_part(page: &mut Page, left: u32, run: Run)
    requires { page.old.len ≤ roomy }
    ensures { Puts page.old (text_of_lines (part_lines left run.minutes (word_of run.minutes (code_of run.activity)))) page.new }
{
    if left == recording::WEEK_MINUTES {
        page.put(b"(week\n");
    }
    page.put(text_lines::run_name(run.activity));
    page.put_number(run.minutes);
    page.put(b")\n");
    if left == run.minutes {
        page.put(b")\n");
    }
}

// What the week can take after n minutes; the next week's minutes where it is full.
fn left_after(left: u32, n: u32) -> u32
    requires { n ≤ left }
    ensures { result ≡ left_after left n }
{
    if left == n {
        return recording::WEEK_MINUTES;
    }
    left - n
}

// The run that the words in front make together, all of one activity, and the words after them.
fn split_run(words: &[u32]) -> Option<(Run, &[u32])>
    requires { length (minutes_of words.now) ≤ total_at_most }
    ensures { MatchOption result (words.now ≡ []) (λ found. FirstRun words.now found.0 found.1.now) }
{
    let (&first, _) = words.split_first()?;
    let activity = Run::from(first).activity;
    let mut minutes = 0;
    let mut rest = words;
    while let Some((&word, after)) = rest.split_first() {
        let run = Run::from(word);
        if run.activity != activity {
            break;
        }
        minutes += run.minutes;
        rest = after;
    }
    Some((Run { activity, minutes }, rest))
}

// The text of a recording: neighbours of one activity are joined, and the run that they make is put part by part, cut where a
// week is full.
fn put_recording(words: &[u32], page: &mut Page)
    requires { Writable words.now × (page.old.len ≡ 0) }
    ensures text { Puts page.old (text_of_minutes (minutes_of words.now)) page.new }
    ensures fits { page.new.len < places }
{
    page.put(b"(recording\n");
    let mut left = recording::WEEK_MINUTES;
    let mut rest = words;
    while let Some((run, after)) = split_run(rest) {
        rest = after;
        let mut minutes = run.minutes;
        while minutes != 0 {
            let part = Run {
                minutes: minutes.min(left),
                ..run
            };
            put_part(page, left, part);
            left = left_after(left, part.minutes);
            minutes -= part.minutes;
        }
    }
    if left != recording::WEEK_MINUTES {
        page.put(b")\n");
    }
    page.put(b")\n");
}

/// Writing text: refusals 1 and 2; 10, too few bytes; or the text's length.
pub fn write_text(words: &[u32], text: &mut [u8]) -> Result<u32, Refusal>
    ensures answer { answer_of result ≡ counted (text_written words.now (length text.old)) }
    ensures text_after { text.new ≡ filled (text_written words.now (length text.old)) text.old }
{
    let weighing = recording::weigh(words);
    let Ok(_) = weighing else {
        return Err(weighing.unwrap_err());
    };
    let mut measured = Page::new(&mut []);
    put_recording(words, &mut measured);
    let length = measured.len;
    if text.len() < length {
        return Err(Refusal::TooFewBytes);
    }
    put_recording(words, &mut Page::new(text));
    Ok(length as u32)
}
