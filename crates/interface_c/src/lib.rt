// The same operations under their names for callers in C: a static library over crates/interface, with its clauses.
#![tactic(auto)]

ghost use Rattle.std.specs.Prelude.{◌≡◌, length};
ghost use Rattle.recording.specs.Answers.{counted, filled};
ghost use Rattle.recording.specs.Operations.{measured, listed};
ghost use Rattle.rules.specs.Operations.{fixed_tested, article_tested, reading_tested, entry_at, entry_refusal, verdict_given, first_reading_given};
ghost use Rattle.rules.specs.Spans.{spans_given};
ghost use Rattle.rules_moves.specs.Moves.{reading_widened, reading_narrowed};
ghost use Rattle.text_lines.specs.Reading.{text_read};
ghost use Rattle.text.specs.Writing.{text_written};
ghost use Rattle.card_reader.specs.Reading.{card_read};
ghost use Rattle.card.specs.Writing.{card_written};
ghost use Rattle.interface.specs.Codes.{code_of, itself, measure_value, finding_value, entry_code};

use recording::Span;
use rules::Weeks;

/// Weighing: a refusal's number; or ANSWER, N, 2^20 × S and 2^40 × k.
#[unsafe(no_mangle)]
pub extern "C" fn desk_weigh(words: &[u32]) -> u64
    ensures { result ≡ code_of measure_value (measured words.now) }
{
    interface::desk_weigh(words)
}

/// Listing long rests: a refusal's number; or ANSWER and their count.
#[unsafe(no_mangle)]
pub extern "C" fn desk_list(words: &[u32], list: &mut [Span]) -> u64
    ensures code { result ≡ code_of itself (counted (listed words.now (length list.old))) }
    ensures list_after { list.new ≡ filled (listed words.now (length list.old)) list.old }
{
    interface::desk_list(words, list)
}

/// Testing fixed rules for a stretch of m: a refusal's number; or ANSWER and the smallest broken rule, or 0.
#[unsafe(no_mangle)]
pub extern "C" fn desk_fixed_test(words: &[u32], m: u32) -> u64
    ensures { result ≡ code_of itself (fixed_tested words.now m) }
{
    interface::desk_fixed_test(words, m)
}

/// The article test for a stretch of m: a refusal's number; or ANSWER and the place of the first broken article, or 0.
#[unsafe(no_mangle)]
pub extern "C" fn desk_article_test(words: &[u32], m: u32) -> u64
    ensures { result ≡ code_of itself (article_tested words.now m) }
{
    interface::desk_article_test(words, m)
}

/// Testing a reading: a refusal's number; or ANSWER and the smallest broken rule, or 0.
#[unsafe(no_mangle)]
pub extern "C" fn desk_reading_test(words: &[u32], reading: &[u8]) -> u64
    ensures { result ≡ code_of itself (reading_tested words.now reading.now) }
{
    interface::desk_reading_test(words, reading)
}

/// Entry of a reading: a refusal's number; or ANSWER and the place of its four bytes in the reading.
#[unsafe(no_mangle)]
pub extern "C" fn desk_entry(reading: &[u8], number: usize) -> u64
    ensures { result ≡ entry_code reading.now number }
{
    interface::desk_entry(reading, number)
}

/// Its companion: 0, or the refusal's number.
#[unsafe(no_mangle)]
pub extern "C" fn desk_entry_refusal(reading: &[u8], number: usize) -> u64
    ensures { result ≡ entry_refusal (entry_at reading.now number) }
{
    interface::desk_entry_refusal(reading, number)
}

/// Reading text: a refusal's number; or ANSWER and the count of words.
#[unsafe(no_mangle)]
pub extern "C" fn desk_read_text(text: &[u8], words: &mut [u32]) -> u64
    ensures code { result ≡ code_of itself (counted (text_read text.now (length words.old))) }
    ensures words_after { words.new ≡ filled (text_read text.now (length words.old)) words.old }
{
    interface::desk_read_text(text, words)
}

/// Writing text: a refusal's number; or ANSWER and the text's length.
#[unsafe(no_mangle)]
pub extern "C" fn desk_write_text(words: &[u32], text: &mut [u8]) -> u64
    ensures code { result ≡ code_of itself (counted (text_written words.now (length text.old))) }
    ensures text_after { text.new ≡ filled (text_written words.now (length text.old)) text.old }
{
    interface::desk_write_text(words, text)
}

/// Reading a card's day record: a refusal's number; or ANSWER and the count of words.
#[unsafe(no_mangle)]
pub extern "C" fn desk_read_card(bytes: &[u8], words: &mut [u32]) -> u64
    ensures code { result ≡ code_of itself (counted (card_read bytes.now (length words.old))) }
    ensures words_after { words.new ≡ filled (card_read bytes.now (length words.old)) words.old }
{
    interface::desk_read_card(bytes, words)
}

/// Writing a card's day record: a refusal's number; or ANSWER and the count of bytes.
#[unsafe(no_mangle)]
pub extern "C" fn desk_write_card(words: &[u32], bytes: &mut [u8]) -> u64
    ensures code { result ≡ code_of itself (counted (card_written words.now (length bytes.old))) }
    ensures bytes_after { bytes.new ≡ filled (card_written words.now (length bytes.old)) bytes.old }
{
    interface::desk_write_card(words, bytes)
}

/// The verdict: a refusal's number; ANSWER for a pass; or 2 × ANSWER, 8 × the minute and the article of a breach.
#[unsafe(no_mangle)]
pub extern "C" fn desk_verdict(words: &[u32]) -> u64
    ensures { result ≡ code_of finding_value (verdict_given words.now) }
{
    interface::desk_verdict(words)
}

/// The first lawful reading: a refusal's number; or ANSWER and the count of its bytes.
#[unsafe(no_mangle)]
pub extern "C" fn desk_first_reading(words: &[u32], reading: &mut [u8]) -> u64
    ensures code { result ≡ code_of itself (counted (first_reading_given words.now (length reading.old))) }
    ensures reading_after { reading.new ≡ filled (first_reading_given words.now (length reading.old)) reading.old }
{
    interface::desk_first_reading(words, reading)
}

/// A stored reading of three bytes an entry carried over to four: a refusal's number; or ANSWER and the count of bytes.
#[unsafe(no_mangle)]
pub extern "C" fn desk_widen_reading(old: &[u8], wide: &mut [u8]) -> u64
    ensures code { result ≡ code_of itself (counted (reading_widened old.now (length wide.old))) }
    ensures wide_after { wide.new ≡ filled (reading_widened old.now (length wide.old)) wide.old }
{
    interface::desk_widen_reading(old, wide)
}

/// The same back: a refusal's number; or ANSWER and the count of bytes.
#[unsafe(no_mangle)]
pub extern "C" fn desk_narrow_reading(wide: &[u8], old: &mut [u8]) -> u64
    ensures code { result ≡ code_of itself (counted (reading_narrowed wide.now (length old.old))) }
    ensures old_after { old.new ≡ filled (reading_narrowed wide.now (length old.old)) old.old }
{
    interface::desk_narrow_reading(wide, old)
}

/// The spans of weeks that are a breach while no shorter span inside them is one: a refusal's number; or ANSWER and their count.
#[unsafe(no_mangle)]
pub extern "C" fn desk_breach_spans(words: &[u32], list: &mut [Weeks]) -> u64
    ensures code { result ≡ code_of itself (counted (spans_given words.now (length list.old))) }
    ensures list_after { list.new ≡ filled (spans_given words.now (length list.old)) list.old }
{
    interface::desk_breach_spans(words, list)
}
