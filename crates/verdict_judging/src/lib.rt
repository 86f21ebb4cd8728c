// The verdict on a recording from its long rests.
#![tactic(auto)]

ghost use Rattle.std.specs.Prelude.{◌≡◌, ◌^◌, ◌≤◌, length};
ghost use Rattle.recording.specs.Words.{minutes_of};
ghost use Rattle.recording.specs.Scan.{words_in};
ghost use Rattle.recording.specs.Answers.{answered};
ghost use Rattle.recording.specs.Rests.{long_rests};
ghost use Rattle.rules.specs.Verdict.{verdict};
ghost use Rattle.rules.specs.Operations.{finding_of};
ghost use Rattle.verdict_sweep.specs.Sweep.{SameFronts};
ghost use Rattle.verdict_judging.specs.Judgements.{finding_by};

use recording::{Recording, Refusal};
use verdict_breach::Breach;
use verdict_completion::LongRests;
use verdict_sweep::Fronts;

/// The verdict on a recording: a pass where it has a lawful reading, else its breach.
#[derive(Clone, Copy, Debug, PartialEq, Eq)]
pub enum Verdict {
    Pass,
    Breach(Breach),
}

/// The verdict on a recording of so many minutes, with arrays that have room for its long rests. The nogoods and the fronts are room for the search, of any
/// length.
pub fn verdict_among<const RESTS: usize>(
    recording: Recording,
    total: u32,
    nogoods: &mut [u32],
    fronts: &mut Fronts,
) -> Result<Verdict, Refusal>
    requires { (total ≡ length (minutes_of (words_in recording))) × (length (long_rests (minutes_of (words_in recording))) ≤ RESTS)
        × (RESTS ≤ 2 ^ 20) }
    ensures answer { finding_by result ≡ answered (finding_of (verdict (minutes_of (words_in recording.entry)))) }
    ensures lent { SameFronts fronts.old fronts.new }
{
    let mut starts = [0u32; RESTS];
    let mut ends = [0u32; RESTS];
    let mut nets = [0u32; RESTS];
    let found = verdict_breach::rests_of(recording, &mut starts, &mut ends, &mut nets);
    let rests = LongRests {
        starts: &starts[..found.count],
        ends: &ends[..found.count],
        nets: &nets[..found.count],
        judged: found.judged,
    };
    let asked = verdict_breach::lawful_by(&rests, found.rule, nogoods, fronts);
    if asked.yes {
        return Ok(Verdict::Pass);
    }
    let breach = verdict_breach::breach_of(
        recording,
        &rests,
        total,
        found.first,
        asked.at,
        nogoods,
        fronts,
    );
    Ok(Verdict::Breach(breach))
}
