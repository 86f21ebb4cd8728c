// The verdict and the first reading with fronts of other capacities, for tests: the answers are the same whatever room the search has.
#![tactic(auto)]

ghost use Rattle.std.specs.Prelude.{◌≡◌, ◌^◌, ◌≤◌, length};
ghost use Rattle.recording.specs.Answers.{counted, filled, answer_of};
ghost use Rattle.rules.specs.Operations.{verdict_given, first_reading_given};
ghost use Rattle.verdict_judging.specs.Judgements.{finding_by};
ghost use Rattle.interface.specs.Codes.{code_of, itself, finding_value};

use recording::Refusal;
use verdict_judging::Verdict;
use verdict_nogoods::{ENTRY_WORDS, TABLE_WORDS};
use verdict_sweep::Fronts;

// The words of three entries, and of 32.
const THREE: usize = 3 * ENTRY_WORDS;

const MORE: usize = 32 * ENTRY_WORDS;

// The verdict with fronts of so many words.
fn verdict_in<const STATES: usize>(words: &[u32]) -> Result<Verdict, Refusal>
    requires { STATES ≤ 2 ^ 20 }
    ensures { finding_by result ≡ verdict_given words.now }
{
    let mut nogoods = [0u32; TABLE_WORDS];
    let mut fronts = Fronts {
        front: &mut [0u32; STATES],
        other: &mut [0u32; STATES],
        states: 0,
    };
    verdict::verdict_lent(words, &mut nogoods, &mut fronts)
}

// The verdict with fronts of the largest capacity of 0, 1, 3 and 32 entries that is not over a number.
fn verdict_with(words: &[u32], entries: u32) -> Result<Verdict, Refusal>
    ensures { finding_by result ≡ verdict_given words.now }
{
    match entries {
        0 => verdict_in::<0>(words),
        1 | 2 => verdict_in::<ENTRY_WORDS>(words),
        3..=31 => verdict_in::<THREE>(words),
        _ => verdict_in::<MORE>(words),
    }
}

/// The same as the code of interface::desk_verdict.
#[unsafe(no_mangle)]
pub extern "C" fn capacity_verdict(words: &[u32], entries: u32) -> u64
    ensures { result ≡ code_of finding_value (verdict_given words.now) }
{
    interface::code_of(verdict_with(words, entries))
}

// The first reading with fronts of so many words.
fn reading_in<const STATES: usize>(words: &[u32], reading: &mut [u8]) -> Result<u32, Refusal>
    requires { STATES ≤ 2 ^ 20 }
    ensures answer { answer_of result ≡ counted (first_reading_given words.now (length reading.old)) }
    ensures reading_after { reading.new ≡ filled (first_reading_given words.now (length reading.old)) reading.old }
{
    let mut nogoods = [0u32; TABLE_WORDS];
    let mut fronts = Fronts {
        front: &mut [0u32; STATES],
        other: &mut [0u32; STATES],
        states: 0,
    };
    let mut known = [0u32; STATES];
    let mut beside = [0u32; STATES];
    verdict::first_reading_lent(
        words,
        reading,
        &mut nogoods,
        &mut fronts,
        &mut known,
        &mut beside,
    )
}

// The first reading with fronts of the largest capacity of 0, 1, 3 and 32 entries that is not over a number.
fn reading_with(words: &[u32], reading: &mut [u8], entries: u32) -> Result<u32, Refusal>
    ensures answer { answer_of result ≡ counted (first_reading_given words.now (length reading.old)) }
    ensures reading_after { reading.new ≡ filled (first_reading_given words.now (length reading.old)) reading.old }
{
    match entries {
        0 => reading_in::<0>(words, reading),
        1 | 2 => reading_in::<ENTRY_WORDS>(words, reading),
        3..=31 => reading_in::<THREE>(words, reading),
        _ => reading_in::<MORE>(words, reading),
    }
}

/// The same as the code of interface::desk_first_reading.
#[unsafe(no_mangle)]
pub extern "C" fn capacity_first_reading(words: &[u32], reading: &mut [u8], entries: u32) -> u64
    ensures code { result ≡ code_of itself (counted (first_reading_given words.now (length reading.old))) }
    ensures reading_after { reading.new ≡ filled (first_reading_given words.now (length reading.old)) reading.old }
{
    interface::code_of(reading_with(words, reading, entries))
}
