// Two operations on a recording: the verdict, a pass or a breach with its minute and article; and its first lawful reading.
#![tactic(auto)]

ghost use Rattle.std.specs.Prelude.{◌≡◌, ◌^◌, ◌≤◌, length};
ghost use Rattle.recording.specs.Words.{minutes_of};
ghost use Rattle.recording.specs.Scan.{words_in};
ghost use Rattle.recording.specs.Answers.{answered, counted, filled, answer_of};
ghost use Rattle.recording.specs.Operations.{measured};
ghost use Rattle.rules.specs.Verdict.{verdict};
ghost use Rattle.rules.specs.Operations.{finding_of, verdict_given, first_reading_given};
ghost use Rattle.verdict_sweep.specs.Sweep.{SameFronts};
ghost use Rattle.verdict_judging.specs.Judgements.{finding_by};

use recording::{LONG_RESTS, Measure, Recording, Refusal, SHORT_RESTS};
use verdict_judging::Verdict;
use verdict_sweep::Fronts;

/// How many long rests are few, some, many or plenty; for so many there is a level of nogoods each, and room for some states in a front.
pub const FEW: u32 = 8;

pub const FEW_NOGOODS: usize = FEW as usize * verdict_nogoods::LEVEL_WORDS;

pub const FEW_STATES: usize = 32 * verdict_nogoods::ENTRY_WORDS;

pub const SOME: u32 = 32;

pub const SOME_NOGOODS: usize = SOME as usize * verdict_nogoods::LEVEL_WORDS;

pub const SOME_STATES: usize = 64 * verdict_nogoods::ENTRY_WORDS;

pub const MANY: u32 = 96;

pub const MANY_NOGOODS: usize = MANY as usize * verdict_nogoods::LEVEL_WORDS;

pub const MANY_STATES: usize = 256 * verdict_nogoods::ENTRY_WORDS;

pub const PLENTY: u32 = 224;

pub const PLENTY_NOGOODS: usize = PLENTY as usize * verdict_nogoods::LEVEL_WORDS;

pub const PLENTY_STATES: usize = 1024 * verdict_nogoods::ENTRY_WORDS;

/// Any number of long rests: what is lent, four fronts and the nogoods, comes to 1 MiB at most.
pub const MOST_NOGOODS: usize = verdict_nogoods::TABLE_WORDS;

pub const MOST_STATES: usize = 1024 * verdict_nogoods::ENTRY_WORDS;

// ---- the verdict

/// The verdict on a recording of so many minutes, with arrays for its long rests by its length. The nogoods and the fronts are room for the search, of any length.
pub fn verdict_from(
    recording: Recording,
    total: u32,
    nogoods: &mut [u32],
    fronts: &mut Fronts,
) -> Result<Verdict, Refusal>
    requires { total ≡ length (minutes_of (words_in recording)) }
    ensures answer { finding_by result ≡ answered (finding_of (verdict (minutes_of (words_in recording.entry)))) }
    ensures lent { SameFronts fronts.old fronts.new }
{
    if total <= recording::SHORT_TOTAL {
        return verdict_judging::verdict_among::<SHORT_RESTS>(recording, total, nogoods, fronts);
    }
    verdict_judging::verdict_among::<LONG_RESTS>(recording, total, nogoods, fronts)
}

// The verdict on words with this measure.
fn verdict_within(
    words: &[u32],
    measure: Measure,
    nogoods: &mut [u32],
    fronts: &mut Fronts,
) -> Result<Verdict, Refusal>
    requires { measured words.now ≡ answered measure }
    ensures answer { finding_by result ≡ verdict_given words.now }
    ensures lent { SameFronts fronts.old fronts.new }
{
    let recording = Recording { head: 0, words };
    verdict_from(recording, measure.total, nogoods, fronts)
}

// The same with room of so many words for the nogoods and for each front.
fn verdict_with<const NOGOODS: usize, const STATES: usize>(
    words: &[u32],
    measure: Measure,
) -> Result<Verdict, Refusal>
    requires measure { measured words.now ≡ answered measure }
    requires small { (NOGOODS ≤ 2 ^ 20) × (STATES ≤ 2 ^ 20) }
    ensures { finding_by result ≡ verdict_given words.now }
{
    let mut nogoods = [0u32; NOGOODS];
    let mut fronts = Fronts {
        front: &mut [0u32; STATES],
        other: &mut [0u32; STATES],
        states: 0,
    };
    verdict_within(words, measure, &mut nogoods, &mut fronts)
}

// The same with room by the number of long rests, so that a short recording does not bear the cost of what a long one needs.
fn verdict_in_room(words: &[u32], measure: Measure) -> Result<Verdict, Refusal>
    requires { measured words.now ≡ answered measure }
    ensures { finding_by result ≡ verdict_given words.now }
{
    if measure.count <= FEW {
        return verdict_with::<FEW_NOGOODS, FEW_STATES>(words, measure);
    }
    if measure.count <= SOME {
        return verdict_with::<SOME_NOGOODS, SOME_STATES>(words, measure);
    }
    if measure.count <= MANY {
        return verdict_with::<MANY_NOGOODS, MANY_STATES>(words, measure);
    }
    if measure.count <= PLENTY {
        return verdict_with::<PLENTY_NOGOODS, PLENTY_STATES>(words, measure);
    }
    verdict_with::<MOST_NOGOODS, MOST_STATES>(words, measure)
}

/// The verdict, or weighing's refusal.
pub fn verdict(words: &[u32]) -> Result<Verdict, Refusal>
    ensures { finding_by result ≡ verdict_given words.now }
{
    let weighing = recording::weigh(words);
    let Ok(measure) = weighing else {
        return Err(weighing.unwrap_err());
    };
    verdict_in_room(words, measure)
}

/// The same with room for the search that the caller lends, of any length.
pub fn verdict_lent(
    words: &[u32],
    nogoods: &mut [u32],
    fronts: &mut Fronts,
) -> Result<Verdict, Refusal>
    ensures answer { finding_by result ≡ verdict_given words.now }
    ensures lent { SameFronts fronts.old fronts.new }
{
    let weighing = recording::weigh(words);
    let Ok(measure) = weighing else {
        return Err(weighing.unwrap_err());
    };
    verdict_within(words, measure, nogoods, fronts)
}

// ---- the first lawful reading

// The first lawful reading of words with this measure, with arrays for their long rests by their length. The nogoods and the four fronts are room for the
// search, of any length.
fn reading_within(
    words: &[u32],
    measure: Measure,
    reading: &mut [u8],
    nogoods: &mut [u32],
    fronts: &mut Fronts,
    known: &mut [u32],
    beside: &mut [u32],
) -> Result<u32, Refusal>
    requires { measured words.now ≡ answered measure }
    ensures answer { answer_of result ≡ counted (first_reading_given words.now (length reading.old)) }
    ensures reading_after { reading.new ≡ filled (first_reading_given words.now (length reading.old)) reading.old }
    ensures lent { SameFronts fronts.old fronts.new }
{
    if measure.total <= recording::SHORT_TOTAL {
        return verdict_reading::reading_among::<SHORT_RESTS>(
            words, measure, reading, nogoods, fronts, known, beside,
        );
    }
    verdict_reading::reading_among::<LONG_RESTS>(
        words, measure, reading, nogoods, fronts, known, beside,
    )
}

// The same with room of so many words for the nogoods and for each front.
fn reading_with<const NOGOODS: usize, const STATES: usize>(
    words: &[u32],
    measure: Measure,
    reading: &mut [u8],
) -> Result<u32, Refusal>
    requires measure { measured words.now ≡ answered measure }
    requires small { (NOGOODS ≤ 2 ^ 20) × (STATES ≤ 2 ^ 20) }
    ensures answer { answer_of result ≡ counted (first_reading_given words.now (length reading.old)) }
    ensures reading_after { reading.new ≡ filled (first_reading_given words.now (length reading.old)) reading.old }
{
    let mut nogoods = [0u32; NOGOODS];
    let mut fronts = Fronts {
        front: &mut [0u32; STATES],
        other: &mut [0u32; STATES],
        states: 0,
    };
    let mut known = [0u32; STATES];
    let mut beside = [0u32; STATES];
    reading_within(
        words,
        measure,
        reading,
        &mut nogoods,
        &mut fronts,
        &mut known,
        &mut beside,
    )
}

// The same with room by the number of long rests.
fn reading_in_room(words: &[u32], measure: Measure, reading: &mut [u8]) -> Result<u32, Refusal>
    requires { measured words.now ≡ answered measure }
    ensures answer { answer_of result ≡ counted (first_reading_given words.now (length reading.old)) }
    ensures reading_after { reading.new ≡ filled (first_reading_given words.now (length reading.old)) reading.old }
{
    if measure.count <= FEW {
        return reading_with::<FEW_NOGOODS, FEW_STATES>(words, measure, reading);
    }
    if measure.count <= SOME {
        return reading_with::<SOME_NOGOODS, SOME_STATES>(words, measure, reading);
    }
    if measure.count <= MANY {
        return reading_with::<MANY_NOGOODS, MANY_STATES>(words, measure, reading);
    }
    if measure.count <= PLENTY {
        return reading_with::<PLENTY_NOGOODS, PLENTY_STATES>(words, measure, reading);
    }
    reading_with::<MOST_NOGOODS, MOST_STATES>(words, measure, reading)
}

/// The first lawful reading, and the count of its bytes; or weighing's refusal, then that of too few bytes, and then that of a breach.
pub fn first_reading(words: &[u32], reading: &mut [u8]) -> Result<u32, Refusal>
    ensures answer { answer_of result ≡ counted (first_reading_given words.now (length reading.old)) }
    ensures reading_after { reading.new ≡ filled (first_reading_given words.now (length reading.old)) reading.old }
{
    let weighing = recording::weigh(words);
    let Ok(measure) = weighing else {
        return Err(weighing.unwrap_err());
    };
    reading_in_room(words, measure, reading)
}

/// The same with room for the search that the caller lends, of any length.
pub fn first_reading_lent(
    words: &[u32],
    reading: &mut [u8],
    nogoods: &mut [u32],
    fronts: &mut Fronts,
    known: &mut [u32],
    beside: &mut [u32],
) -> Result<u32, Refusal>
    ensures answer { answer_of result ≡ counted (first_reading_given words.now (length reading.old)) }
    ensures reading_after { reading.new ≡ filled (first_reading_given words.now (length reading.old)) reading.old }
    ensures lent { SameFronts fronts.old fronts.new }
{
    let weighing = recording::weigh(words);
    let Ok(measure) = weighing else {
        return Err(weighing.unwrap_err());
    };
    reading_within(words, measure, reading, nogoods, fronts, known, beside)
}
