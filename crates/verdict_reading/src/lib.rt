// The first lawful reading of a recording.
#![tactic(auto)]

ghost use Rattle.std.specs.Prelude.{◌≡◌, ◌^◌, ◌≤◌, length};
ghost use Rattle.recording.specs.Answers.{answered, counted, filled, answer_of};
ghost use Rattle.recording.specs.Words.{minutes_of};
ghost use Rattle.recording.specs.Operations.{measured};
ghost use Rattle.recording.specs.Rests.{long_rests};
ghost use Rattle.rules.specs.Operations.{first_reading_given};
ghost use Rattle.verdict_sweep.specs.Sweep.{SameFronts};

use recording::{Measure, Recording, Refusal};
use verdict_completion::LongRests;
use verdict_sweep::Fronts;

/// The first lawful reading of a recording with this measure, with arrays that have room for its long rests. It is refused where the bytes are too few, and
/// then where there is none. The nogoods and the four fronts are room for the search, of any length.
pub fn reading_among<const RESTS: usize>(
    words: &[u32],
    measure: Measure,
    reading: &mut [u8],
    nogoods: &mut [u32],
    fronts: &mut Fronts,
    known: &mut [u32],
    beside: &mut [u32],
) -> Result<u32, Refusal>
    requires { (measured words.now ≡ answered measure) × (length (long_rests (minutes_of words.now)) ≤ RESTS) × (RESTS ≤ 2 ^ 20) }
    ensures answer { answer_of result ≡ counted (first_reading_given words.now (length reading.old)) }
    ensures reading_after { reading.new ≡ filled (first_reading_given words.now (length reading.old)) reading.old }
    ensures lent { SameFronts fronts.old fronts.new }
{
    let size = rules_entries::ENTRY_BYTES * (measure.count as usize);
    if reading.len() < size {
        return Err(Refusal::ShortReading);
    }
    let mut starts = [0u32; RESTS];
    let mut ends = [0u32; RESTS];
    let mut nets = [0u32; RESTS];
    let recording = Recording { head: 0, words };
    let found = verdict_breach::rests_of(recording, &mut starts, &mut ends, &mut nets);
    let rests = LongRests {
        starts: &starts[..found.count],
        ends: &ends[..found.count],
        nets: &nets[..found.count],
        judged: found.judged,
    };
    let asked = verdict_breach::lawful_by(&rests, found.rule, nogoods, fronts);
    let pass = asked.yes;
    if !pass {
        return Err(Refusal::NoLawfulReading);
    }
    let front = &mut *fronts.front;
    let other = &mut *fronts.other;
    verdict_first_reading::write_first(
        &rests,
        &mut reading[..size],
        nogoods,
        front,
        other,
        known,
        beside,
    );
    Ok(size as u32)
}
