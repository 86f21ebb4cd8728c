// What the desk program prints, composed on a page. What is said of it stands in specs/.
#![tactic(auto)]

ghost use Rattle.std.specs.Prelude.{◌≡◌, true, false, List, ℕ, ◌+◌, ◌*◌, ◌≤◌, length};
ghost use Rattle.recording.specs.Answers.{answer_of, refused, counted, filled, number_of};
ghost use Rattle.recording.specs.Words.{minutes_of};
ghost use Rattle.recording.specs.Operations.{total_at_most};
ghost use Rattle.rules.specs.Numbers.{number_of_article};
ghost use Rattle.rules.specs.Verdict.{pass, breach};
ghost use Rattle.rules.specs.Operations.{first_reading_given};
ghost use Rattle.text.specs.Page.{Put, Puts};
ghost use Rattle.text.specs.Passes.{roomy};
ghost use Rattle.verdict_spans.specs.Mondays.{weeks_at_most};
ghost use Rattle.desk_report.specs.Printed.{is_card, shows_spans, verdict_text, input_at_most, desk_text, card_text, into_room};
ghost use Rattle.desk_report.specs.Printed.{weeks_lines, spans_page, spans_text, desk_spans_text, card_spans_text, input_text};
ghost use Rattle.desk_report.specs.Composing.{line_at_most, rest_bytes, reading_room, Fits, Roomy, Within, Readable};
ghost use Rattle.desk_report.specs.Composing.{Read, rests_of, refusal_page, page_of, pass_head, words_text, read_text};

use recording::{Recording, Refusal, Span};
use rules::{Article, Weeks};
use text::Page;
use verdict_judging::Verdict;

/// What an input is: bracket text, or a card's day record.
#[derive(Clone, Copy, Debug, PartialEq, Eq)]
pub enum Format {
    Text,
    Card,
}

/// What is printed of a recording: its verdict, or its spans of weeks.
#[derive(Clone, Copy, Debug, PartialEq, Eq)]
pub enum Shown {
    Verdict,
    Spans,
}

// The most bytes of a line, and of what stands around the lines of the rests.
const LINE_BYTES: usize = 37;

const AROUND_BYTES: usize = 55;

/// Bytes enough for whatever is printed.
pub const PAGE_BYTES: usize = LINE_BYTES * recording::LONG_RESTS + AROUND_BYTES;

/// Bytes enough for whatever is printed of a short recording.
pub const SHORT_PAGE_BYTES: usize = LINE_BYTES * recording::SHORT_RESTS + AROUND_BYTES;

/// The same with twice as many long rests.
pub const MIDDLE_PAGE_BYTES: usize = LINE_BYTES * (2 * recording::SHORT_RESTS) + AROUND_BYTES;

// Bytes enough for what is printed of the spans of weeks.
const SPANS_BYTES: usize = LINE_BYTES * verdict_spans::WEEKS + AROUND_BYTES;

// The bytes of a run line and of a change, and the words of a long rest, at least: one of rest and one of another activity after it.
const RUN_LINE_BYTES: usize = 9;

const CHANGE_BYTES: usize = 2;

const REST_WORDS: usize = 2;

/// The most bytes of an input that are read.
pub const INPUT_BYTES: usize = 65536;

// Words enough for any text of that size: a run line has at least nine bytes.
const TEXT_WORDS: usize = 7282;

// Words enough for any day record of that size: a change has two bytes.
const CARD_WORDS: usize = 32768;

// Bytes enough for any reading: an entry for each long rest.
const READING_BYTES: usize = rules_entries::ENTRY_BYTES * recording::LONG_RESTS;

// The same for a short recording.
const SHORT_READING_BYTES: usize = rules_entries::ENTRY_BYTES * recording::SHORT_RESTS;

// ---- lines of a list

// The lines of all rests. A loop of one index for two arrays and the entries of four bytes beside them: no chain says it more plainly.
fn put_rests(page: &mut Page, starts: &[u32], ends: &[u32], reading: &[u8])
    requires { Readable page.old starts.now ends.now reading.now }
    ensures { Puts page.old (rests_of starts.now ends.now reading.now) page.new }
{
    for i in 0..starts.len() {
        let entry = rules_entries::ENTRY_BYTES * i;
        let kind = u32::from(reading[entry]);
        let week = u32::from(reading[entry + 1]);
        let carrier = rules_entries::carrier_of(reading[entry + 2], reading[entry + 3]);
        let rest = Span {
            start: starts[i],
            end: ends[i],
        };
        desk_lines::put_rest(page, rest, kind, week, carrier);
    }
}

// The lines of spans of weeks.
fn put_spans(page: &mut Page, spans: &[Weeks])
    requires { (page.old.len + line_at_most * weeks_at_most ≤ roomy) × (length spans.now ≤ weeks_at_most) }
    ensures { Puts page.old (weeks_lines spans.now) page.new }
{
    for &weeks in spans {
        desk_lines::put_weeks(page, weeks);
    }
}

// ---- pages

// What is printed for a refusal.
fn refusal_page(page: &mut Page, refusal: Refusal)
    requires { page.old.len ≡ 0 }
    ensures { Puts page.old (refusal_page (number_of refusal)) page.new }
{
    page.put(b"(verdict\n");
    desk_lines::put_numbered(page, b"(refused", u32::from(refusal));
    page.put(b")\n");
}

// What is printed for a breach.
fn breach_page(page: &mut Page, words: &[u32], minute: u32, article: Article)
    requires { (page.old.len ≡ 0) × (length (minutes_of words.now) ≤ total_at_most) }
    ensures { Puts page.old (page_of (minutes_of words.now) (breach minute (number_of_article article))) page.new }
{
    let place = recording::place_of(words);
    page.put(b"(verdict\n");
    desk_lines::put_numbered(page, b"(minutes", place.now);
    desk_lines::put_breach(page, minute, article);
    page.put(b")\n");
}

// What stands before the rests of a pass.
fn begin_pass(page: &mut Page, total: u32, judged: u32)
    requires { page.old.len ≡ 0 }
    ensures { Puts page.old (pass_head total judged) page.new }
{
    page.put(b"(verdict\n");
    desk_lines::put_numbered(page, b"(minutes", total);
    desk_lines::put_numbered(page, b"(judged", judged);
    page.put(b"(reading\n");
}

// What is printed for a pass, with room for so many long rests.
fn pass_with<const RESTS: usize>(page: &mut Page, words: &[u32], reading: &[u8])
    requires { (page.old.len ≡ 0) × Read words.now reading.now × Roomy words.now RESTS }
    ensures { Puts page.old (page_of (minutes_of words.now) (pass reading.now)) page.new }
{
    let mut starts = [0u32; RESTS];
    let mut ends = [0u32; RESTS];
    let recording = Recording::new(words);
    let place = recording::scan(recording, &mut starts, &mut ends);
    let count = place.count as usize;
    begin_pass(page, place.now, place.from);
    put_rests(page, &starts[..count], &ends[..count], reading);
    page.put(b")\n)\n");
}

// The same with room by the reading's bytes.
fn pass_page(page: &mut Page, words: &[u32], reading: &[u8])
    requires { (page.old.len ≡ 0) × Read words.now reading.now }
    ensures { Puts page.old (page_of (minutes_of words.now) (pass reading.now)) page.new }
{
    if reading.len() <= SHORT_READING_BYTES {
        return pass_with::<{ recording::SHORT_RESTS }>(page, words, reading);
    }
    pass_with::<{ recording::LONG_RESTS }>(page, words, reading)
}

// What is printed for a recording whose first reading is refused: its breach, or that refusal. It is never a pass.
fn unread_page(page: &mut Page, words: &[u32], refusal: Refusal)
    requires { (page.old.len ≡ 0) × (first_reading_given words.now reading_room ≡ refused (number_of refusal)) }
    ensures { Puts page.old (verdict_text words.now) page.new }
{
    match verdict::verdict(words) {
        Ok(Verdict::Breach(found)) => breach_page(page, words, found.minute, found.article),
        Ok(Verdict::Pass) => refusal_page(page, refusal),
        Err(_) => refusal_page(page, refusal),
    }
}

// What is printed for a recording, with so many bytes for its reading: its first reading, a breach, or a refusal. The reading is asked for first, so that a
// pass is found once.
fn verdict_with<const BYTES: usize>(page: &mut Page, words: &[u32])
    requires { (page.old.len ≡ 0) × Fits words.now BYTES }
    ensures { Puts page.old (verdict_text words.now) page.new }
{
    let mut reading = [0u8; BYTES];
    match verdict::first_reading(words, &mut reading) {
        Err(refusal) => unread_page(page, words, refusal),
        Ok(n) => pass_page(page, words, &reading[..n as usize]),
    }
}

// The same with room by the number of words.
fn verdict_page(page: &mut Page, words: &[u32])
    requires { page.old.len ≡ 0 }
    ensures { Puts page.old (verdict_text words.now) page.new }
{
    if words.len() <= REST_WORDS * recording::SHORT_RESTS {
        return verdict_with::<SHORT_READING_BYTES>(page, words);
    }
    verdict_with::<READING_BYTES>(page, words)
}

// What is printed for spans that were found.
fn list_page(page: &mut Page, spans: &[Weeks])
    requires { (page.old.len ≡ 0) × (length spans.now ≤ weeks_at_most) }
    ensures { Puts page.old (spans_page spans.now) page.new }
{
    page.put(b"(spans\n");
    put_spans(page, spans);
    page.put(b")\n");
}

// What is printed of a recording's spans of weeks: a line for each, or a refusal.
fn spans_page(page: &mut Page, words: &[u32])
    requires { page.old.len ≡ 0 }
    ensures { Puts page.old (spans_text words.now) page.new }
{
    let mut spans = [Weeks { first: 0, last: 0 }; verdict_spans::WEEKS];
    match verdict_spans::breach_spans(words, &mut spans) {
        Err(refusal) => refusal_page(page, refusal),
        Ok(n) => list_page(page, &spans[..n as usize]),
    }
}

// What is printed for a recording.
fn words_page(page: &mut Page, shown: Shown, words: &[u32])
    requires { page.old.len ≡ 0 }
    ensures { Puts page.old (words_text (shows_spans shown) words.now) page.new }
{
    match shown {
        Shown::Verdict => verdict_page(page, words),
        Shown::Spans => spans_page(page, words),
    }
}

// What is printed for what reading an input answered: that of the words that it wrote, or its refusal.
fn read_page(page: &mut Page, shown: Shown, answer: Result<u32, Refusal>, words: &[u32])
    requires { (page.old.len ≡ 0) × Within answer words.now }
    ensures { Puts page.old (read_text (shows_spans shown) (answer_of answer) words.now) page.new }
{
    match answer {
        Err(refusal) => refusal_page(page, refusal),
        Ok(n) => words_page(page, shown, &words[..n as usize]),
    }
}

// What is printed for a text that is not too long.
fn desk_page(page: &mut Page, shown: Shown, text: &[u8])
    requires { (page.old.len ≡ 0) × (length text.now ≤ input_at_most) }
    ensures { Puts page.old (input_text false (shows_spans shown) text.now) page.new }
{
    let mut words = [0u32; TEXT_WORDS];
    let answer = text::read_text(text, &mut words);
    read_page(page, shown, answer, &words)
}

// What is printed for a card's day record that is not too long.
fn card_page(page: &mut Page, shown: Shown, bytes: &[u8])
    requires { (page.old.len ≡ 0) × (length bytes.now ≤ input_at_most) }
    ensures { Puts page.old (input_text true (shows_spans shown) bytes.now) page.new }
{
    let mut words = [0u32; CARD_WORDS];
    let answer = card_reader::read_card(bytes, &mut words);
    read_page(page, shown, answer, &words)
}

// What is printed for an input.
fn input_page(page: &mut Page, format: Format, shown: Shown, input: &[u8])
    requires { page.old.len ≡ 0 }
    ensures { Puts page.old (input_text (is_card format) (shows_spans shown) input.now) page.new }
{
    if INPUT_BYTES < input.len() {
        return refusal_page(page, Refusal::TooFewWords);
    }
    match format {
        Format::Text => desk_page(page, shown, input),
        Format::Card => card_page(page, shown, input),
    }
}

// The page of an input in lent bytes, as far as they reach; and its length.
fn compose(bytes: &mut [u8], format: Format, shown: Shown, input: &[u8]) -> usize
    ensures { Put bytes.old 0 (input_text (is_card format) (shows_spans shown) input.now) result bytes.new }
{
    let mut page = Page::new(bytes);
    input_page(&mut page, format, shown, input);
    page.len
}

// The most long rests of an input of so many bytes.
fn rests_in(format: Format, bytes: usize) -> usize
    ensures { (n : ℕ) → rest_bytes (is_card format) * n ≤ bytes → n ≤ result }
{
    match format {
        Format::Text => bytes / (RUN_LINE_BYTES * REST_WORDS),
        Format::Card => bytes / (CHANGE_BYTES * REST_WORDS),
    }
}

/// Bytes enough for what is printed for any input of so many bytes.
pub fn page_room(format: Format, shown: Shown, bytes: usize) -> usize
    ensures { (input : List ℕ) → length input ≡ bytes → length (input_text (is_card format) (shows_spans shown) input) ≤ result }
{
    match shown {
        Shown::Spans => SPANS_BYTES,
        Shown::Verdict => LINE_BYTES * rests_in(format, bytes).min(recording::LONG_RESTS)
            + AROUND_BYTES,
    }
}

// Printing what is printed for an input by way of a page of its own: 10, too few bytes; or the count of bytes written.
fn print_beside(format: Format, shown: Shown, input: &[u8], out: &mut [u8]) -> Result<u32, Refusal>
    ensures answer { answer_of result ≡ counted (into_room (input_text (is_card format) (shows_spans shown) input.now) (length out.old)) }
    ensures out_after { out.new ≡ filled (into_room (input_text (is_card format) (shows_spans shown) input.now) (length out.old)) out.old }
{
    let mut bytes = [0u8; PAGE_BYTES];
    let length = compose(&mut bytes, format, shown, input);
    if out.len() < length {
        return Err(Refusal::TooFewBytes);
    }
    out[..length].copy_from_slice(&bytes[..length]);
    Ok(length as u32)
}

/// Printing what the desk program prints for an input: 10, too few bytes; or the count of bytes written. It is composed in place where the bytes that are
/// lent are surely enough. `PAGE_BYTES` are always enough.
pub fn print(format: Format, shown: Shown, input: &[u8], out: &mut [u8]) -> Result<u32, Refusal>
    ensures answer { answer_of result ≡ counted (into_room (input_text (is_card format) (shows_spans shown) input.now) (length out.old)) }
    ensures out_after { out.new ≡ filled (into_room (input_text (is_card format) (shows_spans shown) input.now) (length out.old)) out.old }
{
    let enough = page_room(format, shown, input.len());
    if out.len() < enough {
        return print_beside(format, shown, input, out);
    }
    Ok(compose(out, format, shown, input) as u32)
}

/// Printing what it prints of the verdict on a text.
pub fn print_desk(text: &[u8], out: &mut [u8]) -> Result<u32, Refusal>
    ensures answer { answer_of result ≡ counted (into_room (desk_text text.now) (length out.old)) }
    ensures out_after { out.new ≡ filled (into_room (desk_text text.now) (length out.old)) out.old }
{
    print(Format::Text, Shown::Verdict, text, out)
}

/// .. on a card's day record.
pub fn print_card(bytes: &[u8], out: &mut [u8]) -> Result<u32, Refusal>
    ensures answer { answer_of result ≡ counted (into_room (card_text bytes.now) (length out.old)) }
    ensures out_after { out.new ≡ filled (into_room (card_text bytes.now) (length out.old)) out.old }
{
    print(Format::Card, Shown::Verdict, bytes, out)
}

/// .. of the spans of weeks of a text.
pub fn print_spans(text: &[u8], out: &mut [u8]) -> Result<u32, Refusal>
    ensures answer { answer_of result ≡ counted (into_room (desk_spans_text text.now) (length out.old)) }
    ensures out_after { out.new ≡ filled (into_room (desk_spans_text text.now) (length out.old)) out.old }
{
    print(Format::Text, Shown::Spans, text, out)
}

/// .. of those of a card's day record.
pub fn print_card_spans(bytes: &[u8], out: &mut [u8]) -> Result<u32, Refusal>
    ensures answer { answer_of result ≡ counted (into_room (card_spans_text bytes.now) (length out.old)) }
    ensures out_after { out.new ≡ filled (into_room (card_spans_text bytes.now) (length out.old)) out.old }
{
    print(Format::Card, Shown::Spans, bytes, out)
}
