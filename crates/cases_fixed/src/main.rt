// The edges of the fixed rules, and recordings in which several break at one minute: each line has the total, the judged end and the number of long rests,
// what the fixed test answers for the stretch before the edge and at it, and what the article test does.
#![tactic(auto)]

use recording::{Measure, Refusal};
use std::io;

fn show_weighing(out: &impl Print, weighing: Result<Measure, Refusal>) -> io::Result<()> {
    match weighing {
        Err(refusal) => {
            let number = u32::from(refusal);
            print!(out; "refused {number}")
        }
        Ok(measure) => {
            let Measure {
                total,
                judged,
                count,
            } = measure;
            print!(out; "{total} {judged} {count}")
        }
    }
}

fn show_tested(out: &impl Print, m: u32, answer: Result<u32, Refusal>) -> io::Result<()> {
    match answer {
        Err(refusal) => {
            let number = u32::from(refusal);
            print!(out; "; {m} refused {number}")
        }
        Ok(number) => print!(out; "; {m}: {number}"),
    }
}

// The number of the rule that the fixed test answers, and 0 for none.
fn rule_tested(words: &[u32], m: u32) -> Result<u32, Refusal> {
    rules_fixed::fixed_test(words, m).map(|rule| rule.map_or(0, |rule| u32::from(rule)))
}

// The place of the article that the article test answers, and 0 for none.
fn place_tested(words: &[u32], m: u32) -> Result<u32, Refusal> {
    rules_fixed::article_test(words, m).map(|article| article.map_or(0, |article| article.place()))
}

// What the recording weighs, and both tests for m minutes and for one more.
fn show(out: &impl Print, name: &str, words: &[u32], m: u32) -> io::Result<()> {
    print!(out; "{name}: ")?;
    show_weighing(out, recording::weigh(words))?;
    show_tested(out, m, rule_tested(words, m))?;
    if let Some(next) = m.checked_add(1) {
        show_tested(out, next, rule_tested(words, next))?;
    }
    print!(out; "; articles")?;
    show_tested(out, m, place_tested(words, m))?;
    if let Some(next) = m.checked_add(1) {
        show_tested(out, next, place_tested(words, next))?;
    }
    println!(out)
}

fn main(rt: HostRuntime) -> io::Result<()> {
    let d270 = [1083u32];
    show(&rt, "empty", &d270[..0], 0)?;
    show(&rt, "d270", &d270, 269)?;
    let d271 = [1087u32];
    show(&rt, "d271", &d271, 270)?;
    let split = [543u32, 60, 543, 120, 1083];
    show(&rt, "d135 r15 d135 r30 d270", &split, 584)?;
    let short_first = [543u32, 56, 543, 120, 1083];
    show(&rt, "d135 r14 d135 r30 d270", &short_first, 314)?;
    let short_second = [543u32, 120, 543, 60, 7];
    show(&rt, "d135 r30 d135 r15 d1", &short_second, 315)?;
    let available = [1083u32, 181, 7];
    show(&rt, "d270 a45 d1", &available, 315)?;
    let full = [1083u32, 180, 7];
    show(&rt, "d270 r45 d1", &full, 315)?;
    let not_full = [1083u32, 176, 7];
    show(&rt, "d270 r44 d1", &not_full, 314)?;
    let before_driving = [60u32, 1083, 120, 7];
    show(&rt, "r15 d270 r30 d1", &before_driving, 315)?;
    let after_work = [242u32, 241, 60, 1083, 120, 7];
    show(&rt, "w60 a60 r15 d270 r30 d1", &after_work, 435)?;
    let after_a_minute = [60u32, 7, 60, 1079, 120, 7];
    show(&rt, "r15 d1 r15 d269 r30 d1", &after_a_minute, 330)?;
    let too_short = [60u32, 7, 56, 1079, 120, 7];
    show(&rt, "r15 d1 r14 d269 r30 d1", &too_short, 329)?;
    let after_clearing = [7u32, 180, 242, 60, 1083, 120, 7];
    show(&rt, "d1 r45 w60 r15 d270 r30 d1", &after_clearing, 421)?;
    let before_clearing = [7u32, 60, 7, 180, 1083, 120, 7];
    show(&rt, "d1 r15 d1 r45 d270 r30 d1", &before_clearing, 362)?;
    let w900 = [3602u32];
    show(&rt, "w900", &w900, 899)?;
    let w901 = [3606u32];
    show(&rt, "w901", &w901, 900)?;
    let r539 = [3602u32, 2156, 6];
    show(&rt, "w900 r539 w1", &r539, 1439)?;
    let r540 = [3602u32, 2160, 6];
    show(&rt, "w900 r540 w1", &r540, 1440)?;
    let d600 = [1083u32, 180, 1083, 180, 247];
    show(&rt, "d270 r45 d270 r45 d61", &d600, 690)?;
    // rule 5 breaks first, then rule 1 too: the smaller is named
    let both = [3606u32, 1087];
    show(&rt, "w901 d271", &both, 1171)?;
    // several break at one minute, or one after another: the tests may name different articles
    let breaks_and_day = [1083u32, 180, 243, 180, 1087];
    show(&rt, "d270 r45 d60 r45 d271", &breaks_and_day, 690)?;
    let breaks_and_rest = [2522u32, 1087];
    show(&rt, "w630 d271", &breaks_and_rest, 900)?;
    let day_and_rest = [1083u32, 180, 1083, 1020, 247];
    show(&rt, "d270 r45 d270 r255 d61", &day_and_rest, 900)?;
    let three = [1083u32, 180, 243, 1020, 1087];
    show(&rt, "d270 r45 d60 r255 d271", &three, 900)?;
    let one_after_another = [1087u32, 1323];
    show(&rt, "d271 d330", &one_after_another, 600)?;
    let split_word = [543u32, 543, 1];
    show(&rt, "d135 d135 and a word of no minutes", &split_word, 0)?;
    let long = [240000u32, 1896962];
    show(&rt, "r60000 w474240", &long, 534240)?;
    let too_long = [240000u32, 1896966, 0];
    show(&rt, "r60000 w474241 and a word of no minutes", &too_long, 0)?;
    let huge = [4294967295u32, 4294967295];
    show(&rt, "two words of 1073741823 minutes", &huge, 0)?;
    show(&rt, "the largest m", &w900, 4294967295)
}
