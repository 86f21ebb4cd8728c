// The reading test.
#![tactic(auto)]

ghost use Rattle.std.specs.Prelude.{◌≡◌, ◌*◌, ◌^◌, ◌≤◌, length};
ghost use Rattle.recording.specs.Answers.{answered};
ghost use Rattle.recording.specs.Operations.{total_at_most, measured};
ghost use Rattle.rules.specs.Broken.{unless};
ghost use Rattle.rules.specs.Numbers.{rule_or_none};
ghost use Rattle.rules.specs.Reading.{entry_bytes, fields_in, entries};
ghost use Rattle.rules.specs.ReadingRules.{rule6, in_gap};
ghost use Rattle.rules.specs.Operations.{reading_tested};
ghost use Rattle.rules_nets.specs.Nets.{counts_by};
ghost use Rattle.rules_fixed.specs.Answers.{rule_answer};
ghost use Rattle.rules_items.specs.Items.{compensation_at_most, Few, Fresh, spans_among, Zeros, Walked, rule11_with, rest_weeks, later_by};

use recording::{Measure, Recording, Refusal};
use rules::Rule;
use rules_items::{Rests, Tally, WeekCounts};

// Rule 6 of all long rests.
fn form_test(rests: Rests, reading: &[u8], compensations: &[u32]) -> bool
    requires entries { length reading.now ≡ entry_bytes * length rests.starts.now }
    requires room { length rests.starts.now ≤ length compensations.now }
    requires zeros { Zeros compensations.now }
    ensures { result ≡ rule6 (length rests.entry.starts.now) (entries (spans_among rests.entry) (fields_in reading.now)) }
{
    let k = rests.starts.len();
    for i in 0..k {
        let x = rules_items::item_at(rests, reading, compensations, i);
        if !x.is_formed(k as u32) {
            return false;
        }
    }
    true
}

// Rules 7 to 10, and the rests counted in each week, in one walk over the long rests; none where one breaks rule 7. What each compensates for is summed in
// `compensations` as the walk goes.
fn rest_walk(
    rests: Rests,
    reading: &[u8],
    compensations: &mut [u32],
    counts: &mut WeekCounts,
    s: u32,
) -> Option<Tally>
    requires entries { length reading.now ≡ entry_bytes * length rests.starts.now }
    requires room { length rests.starts.now ≤ length compensations.old }
    requires zeros { Zeros compensations.old }
    requires fresh { Fresh counts.old }
    ensures { Walked (counts_by rests.entry.nets.now) s (spans_among rests.entry)
        (entries (spans_among rests.entry) (fields_in reading.now)) result counts.new }
{
    let mut tally = Tally {
        rule: None,
        short: 0,
        last: 0,
    };
    for i in 0..rests.starts.len() {
        let x = rules_items::item_at(rests, reading, compensations, i);
        let r = x.as_read();
        if !r.is_long_enough(x.compensation) {
            return None;
        }
        tally = tally.after(s, rules_items::end_of(rests.ends, x.carrier), x, r);
        counts.count(r, x.week);
        rules_items::compensate(compensations, x.carrier, rules_items::reduction(r.kind));
    }
    Some(tally)
}

// Rule 11 of all pairs of weeks that end by s.
fn pairs_test(rests: Rests, counts: &WeekCounts, s: u32) -> bool
    requires judged { s ≤ total_at_most }
    requires few { Few compensation_at_most counts.now }
    ensures { result ≡ rule11_with (rest_weeks (spans_among rests.entry)) s counts.now.weekly counts.now.regular }
{
    for w in (0..s / recording::WEEK_MINUTES).rev() {
        if !rules_items::pair_kept(rests, counts, s, w) {
            return false;
        }
    }
    true
}

// Rule 10 from the last weekly rest's end to s, where that is too far.
fn gap_rule(q: u32, s: u32) -> Option<Rule>
    requires { q ≤ total_at_most }
    ensures { rule_or_none result ≡ unless (in_gap q s) 10 0 }
{
    if s <= q + rules_items::WEEKLY_GAP {
        None
    } else {
        Some(Rule::WeeklyRestGap)
    }
}

// Rules 6 to 11 of a reading, where the judged end is s: the smallest broken one. The compensations are room to sum them.
fn later_test(rests: Rests, reading: &[u8], compensations: &mut [u32], s: u32) -> Option<Rule>
    requires entries { length reading.now ≡ entry_bytes * length rests.starts.now }
    requires room { length rests.starts.now ≤ length compensations.old }
    requires zeros { Zeros compensations.old }
    requires judged { s ≤ total_at_most }
    ensures { rule_or_none result ≡ later_by rests.entry.starts.now rests.entry.ends.now rests.entry.nets.now reading.now (length rests.entry.starts.now) s }
{
    if !form_test(rests, reading, compensations) {
        return Some(Rule::EntryForm);
    }
    let mut counts = WeekCounts::none();
    let Some(tally) = rest_walk(rests, reading, compensations, &mut counts, s) else {
        return Some(Rule::NetLength);
    };
    let broken = rules_items::smaller_rule(tally.rule, gap_rule(tally.last, s));
    if broken.is_some() {
        return broken;
    }
    if pairs_test(rests, &counts, s) {
        None
    } else {
        Some(Rule::WeeklyRests)
    }
}

// The rules of a recording with this measure and of a reading with an entry for each long rest, with room for so many long rests: the smallest broken one.
fn tested_in_room<const RESTS: usize>(
    words: &[u32],
    measure: Measure,
    reading: &[u8],
) -> Option<Rule>
    requires bound { RESTS ≤ 2 ^ 20 }
    requires weighed { measured words.now ≡ answered measure }
    requires entries { length reading.now ≡ entry_bytes * measure.count }
    requires room { measure.count ≤ RESTS }
    ensures { answered (rule_or_none result) ≡ reading_tested words.now reading.now }
{
    let mut starts = [0; RESTS];
    let mut ends = [0; RESTS];
    let mut nets = [0; RESTS];
    let found = rules_fixed::survey_of(Recording::new(words), &mut starts, &mut ends, &mut nets);
    let rule = rules_limits::smallest_rule(found.account.broken);
    if rule.is_some() {
        return rule;
    }
    let count = measure.count as usize;
    let rests = Rests {
        starts: &starts[..count],
        ends: &ends[..count],
        nets: &nets[..count],
    };
    let mut compensations = [0; RESTS];
    later_test(rests, reading, &mut compensations, measure.judged)
}

/// Testing a reading: weighing's refusals, then that of a byte count that is not 4 for each long rest; else the smallest broken rule.
pub fn reading_test(words: &[u32], reading: &[u8]) -> Result<Option<Rule>, Refusal>
    ensures { rule_answer result ≡ reading_tested words.now reading.now }
{
    let weighing = recording::weigh(words);
    let Ok(measure) = weighing else {
        return Err(weighing.unwrap_err());
    };
    if reading.len() != rules_entries::ENTRY_BYTES * measure.count as usize {
        return Err(Refusal::WrongByteCount);
    }
    let rule = if measure.total <= recording::SHORT_TOTAL {
        tested_in_room::<{ recording::SHORT_RESTS }>(words, measure, reading)
    } else {
        tested_in_room::<{ recording::LONG_RESTS }>(words, measure, reading)
    };
    Ok(rule)
}
