// The operations for callers in C: numbers and slices of numbers or of records in, one number out.
#![tactic(auto)]

ghost use Rattle.std.specs.Prelude.{◌≡◌, ℕ, ◌<◌, length};
ghost use Rattle.recording.specs.Answers.{answered, counted, filled, answer_of, number_of};
ghost use Rattle.recording.specs.Operations.{measured, listed};
ghost use Rattle.rules.specs.Numbers.{rule_or_none, place_or_none};
ghost use Rattle.rules.specs.Operations.{fixed_tested, article_tested, reading_tested, entry_at, entry_refusal, verdict_given, first_reading_given};
ghost use Rattle.rules.specs.Spans.{spans_given};
ghost use Rattle.rules_moves.specs.Moves.{reading_widened, reading_narrowed};
ghost use Rattle.text_lines.specs.Reading.{text_read};
ghost use Rattle.text.specs.Writing.{text_written};
ghost use Rattle.card_reader.specs.Reading.{card_read};
ghost use Rattle.card.specs.Writing.{card_written};
ghost use Rattle.verdict_judging.specs.Judgements.{finding};
ghost use Rattle.interface.specs.Codes.{slice_bytes, code_of, itself, measure_value, finding_value, entry_code};

use recording::{Measure, Refusal, Span};
use rules::{Article, Rule, Weeks};
use verdict_judging::Verdict;

// An answer is this and its value; less is a refusal.
const ANSWER: u64 = 72057594037927936;

// Units of S and of k in what weighing answers.
const JUDGED: u64 = 1048576;

const COUNT: u64 = 1099511627776;

// A unit of a breach's minute.
const ARTICLES: u64 = 8;

/// What is told by a number.
pub trait Value {
    ghost value_of: { Self → ℕ };

    fn value(self) -> u64
        requires { value_of self < slice_bytes }
        ensures { result ≡ value_of self };
}

/// A count by itself.
impl Value for u32 {
    ghost value_of = { itself };

    fn value(self) -> u64 {
        u64::from(self)
    }
}

/// A count by itself, also where it may be as large as a slice.
impl Value for usize {
    ghost value_of = { itself };

    fn value(self) -> u64 {
        self as u64
    }
}

/// A broken rule by its number, and 0 where there is none.
impl Value for Option<Rule> {
    ghost value_of = { rule_or_none };

    fn value(self) -> u64 {
        match self {
            Some(rule) => u64::from(u32::from(rule)),
            None => 0,
        }
    }
}

/// A broken article by its place, and 0 where there is none.
impl Value for Option<Article> {
    ghost value_of = { place_or_none };

    fn value(self) -> u64 {
        match self {
            Some(article) => u64::from(article.place()),
            None => 0,
        }
    }
}

/// A measure by N, 2^20 × S and 2^40 × k.
impl Value for Measure {
    ghost value_of = { measure_value };

    fn value(self) -> u64 {
        let minutes = u64::from(self.total) + JUDGED * u64::from(self.judged);
        minutes + COUNT * u64::from(self.count)
    }
}

/// A pass by 0; a breach by one unit more, 8 × its minute and its article.
impl Value for Verdict {
    ghost value_of = { λ verdict. finding_value (finding verdict) };

    fn value(self) -> u64 {
        match self {
            Verdict::Pass => 0,
            Verdict::Breach(breach) => ANSWER
                + ARTICLES * u64::from(breach.minute)
                + u64::from(u32::from(breach.article)),
        }
    }
}

// The number of a refusal.
fn told(refusal: Refusal) -> u64
    ensures { result ≡ number_of refusal }
{
    u64::from(u32::from(refusal))
}

/// The code of an answer: a refusal's number; or ANSWER and the value.
pub fn code_of<T: Value>(answer: Result<T, Refusal>) -> u64
    requires { (value : T) → answer_of answer ≡ answered value → T.value_of value < slice_bytes }
    ensures { result ≡ code_of T.value_of (answer_of answer) }
{
    match answer {
        Ok(value) => ANSWER + value.value(),
        Err(refusal) => told(refusal),
    }
}

/// Weighing: a refusal's number; or ANSWER, N, 2^20 × S and 2^40 × k.
pub fn desk_weigh(words: &[u32]) -> u64
    ensures { result ≡ code_of measure_value (measured words.now) }
{
    code_of(recording::weigh(words))
}

/// Listing long rests: a refusal's number; or ANSWER and their count.
pub fn desk_list(words: &[u32], list: &mut [Span]) -> u64
    ensures code { result ≡ code_of itself (counted (listed words.now (length list.old))) }
    ensures list_after { list.new ≡ filled (listed words.now (length list.old)) list.old }
{
    code_of(recording_list::list_long_rests(words, list))
}

/// Testing fixed rules for a stretch of m: a refusal's number; or ANSWER and the smallest broken rule, or 0.
pub fn desk_fixed_test(words: &[u32], m: u32) -> u64
    ensures { result ≡ code_of itself (fixed_tested words.now m) }
{
    code_of(rules_fixed::fixed_test(words, m))
}

/// The article test for a stretch of m: a refusal's number; or ANSWER and the place of the first broken article, or 0.
pub fn desk_article_test(words: &[u32], m: u32) -> u64
    ensures { result ≡ code_of itself (article_tested words.now m) }
{
    code_of(rules_fixed::article_test(words, m))
}

/// Testing a reading: a refusal's number; or ANSWER and the smallest broken rule, or 0.
pub fn desk_reading_test(words: &[u32], reading: &[u8]) -> u64
    ensures { result ≡ code_of itself (reading_tested words.now reading.now) }
{
    code_of(rules_reading::reading_test(words, reading))
}

/// Entry of a reading: a refusal's number; or ANSWER and the place of its four bytes in the reading.
pub fn desk_entry(reading: &[u8], number: usize) -> u64
    ensures { result ≡ entry_code reading.now number }
{
    if let Some(refusal) = rules_entries::entry_refusal(reading, number) {
        return told(refusal);
    }
    ANSWER + ((rules_entries::ENTRY_BYTES * (number - 1)) as u64)
}

/// Its companion: 0, or the refusal's number.
pub fn desk_entry_refusal(reading: &[u8], number: usize) -> u64
    ensures { result ≡ entry_refusal (entry_at reading.now number) }
{
    match rules_entries::entry_refusal(reading, number) {
        Some(refusal) => told(refusal),
        None => 0,
    }
}

/// Reading text: a refusal's number; or ANSWER and the count of words.
pub fn desk_read_text(text: &[u8], words: &mut [u32]) -> u64
    ensures code { result ≡ code_of itself (counted (text_read text.now (length words.old))) }
    ensures words_after { words.new ≡ filled (text_read text.now (length words.old)) words.old }
{
    code_of(text::read_text(text, words))
}

/// Writing text: a refusal's number; or ANSWER and the text's length.
pub fn desk_write_text(words: &[u32], text: &mut [u8]) -> u64
    ensures code { result ≡ code_of itself (counted (text_written words.now (length text.old))) }
    ensures text_after { text.new ≡ filled (text_written words.now (length text.old)) text.old }
{
    code_of(text::write_text(words, text))
}

/// Reading a card's day record: a refusal's number; or ANSWER and the count of words.
pub fn desk_read_card(bytes: &[u8], words: &mut [u32]) -> u64
    ensures code { result ≡ code_of itself (counted (card_read bytes.now (length words.old))) }
    ensures words_after { words.new ≡ filled (card_read bytes.now (length words.old)) words.old }
{
    code_of(card_reader::read_card(bytes, words))
}

/// Writing a card's day record: a refusal's number; or ANSWER and the count of bytes.
pub fn desk_write_card(words: &[u32], bytes: &mut [u8]) -> u64
    ensures code { result ≡ code_of itself (counted (card_written words.now (length bytes.old))) }
    ensures bytes_after { bytes.new ≡ filled (card_written words.now (length bytes.old)) bytes.old }
{
    code_of(card::write_card(words, bytes))
}

/// The verdict: a refusal's number; ANSWER for a pass; or 2 × ANSWER, 8 × the minute and the article of a breach.
pub fn desk_verdict(words: &[u32]) -> u64
    ensures { result ≡ code_of finding_value (verdict_given words.now) }
{
    code_of(verdict::verdict(words))
}

/// The first lawful reading: a refusal's number; or ANSWER and the count of its bytes.
pub fn desk_first_reading(words: &[u32], reading: &mut [u8]) -> u64
    ensures code { result ≡ code_of itself (counted (first_reading_given words.now (length reading.old))) }
    ensures reading_after { reading.new ≡ filled (first_reading_given words.now (length reading.old)) reading.old }
{
    code_of(verdict::first_reading(words, reading))
}

/// A stored reading of three bytes an entry carried over to four: a refusal's number; or ANSWER and the count of bytes.
pub fn desk_widen_reading(old: &[u8], wide: &mut [u8]) -> u64
    ensures code { result ≡ code_of itself (counted (reading_widened old.now (length wide.old))) }
    ensures wide_after { wide.new ≡ filled (reading_widened old.now (length wide.old)) wide.old }
{
    code_of(rules_moves::widen_reading(old, wide))
}

/// The same back: a refusal's number; or ANSWER and the count of bytes.
pub fn desk_narrow_reading(wide: &[u8], old: &mut [u8]) -> u64
    ensures code { result ≡ code_of itself (counted (reading_narrowed wide.now (length old.old))) }
    ensures old_after { old.new ≡ filled (reading_narrowed wide.now (length old.old)) old.old }
{
    code_of(rules_moves::narrow_reading(wide, old))
}

/// The spans of weeks that are a breach while no shorter span inside them is one: a refusal's number; or ANSWER and their count.
pub fn desk_breach_spans(words: &[u32], list: &mut [Weeks]) -> u64
    ensures code { result ≡ code_of itself (counted (spans_given words.now (length list.old))) }
    ensures list_after { list.new ≡ filled (spans_given words.now (length list.old)) list.old }
{
    code_of(verdict_spans::breach_spans(words, list))
}
