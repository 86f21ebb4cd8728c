// The cases on the edge of each rule, the six worked figures, and the edges of weeks, debts and buffers, each
// with what the verdict answers. A pass shows its first reading: d is a daily rest (0/0/0), any other entry is kind/week/carrier. Last, cases of the
// spans of weeks that are a breach, each span as first-last.
#![tactic(auto)]

use recording::Refusal;
use rules::{Article, Rule, Weeks};
use std::io;
use verdict_breach::Breach;
use verdict_judging::Verdict;

// Bytes enough for any reading.
const READING_BYTES: usize = rules_entries::ENTRY_BYTES * recording::LONG_RESTS;

// The word of a letter of the shorthand, with no minutes yet; 4 for another byte.
fn activity(byte: u8) -> u32 {
    match byte {
        b'r' => 0,
        b'a' => 1,
        b'w' => 2,
        b'd' => 3,
        _ => 4,
    }
}

// A word whose minutes have one more digit.
fn with_digit(word: u32, byte: u8) -> u32 {
    if word < 100000000 {
        if b'0' <= byte {
            let digit = byte - b'0';
            return word / 4 * 40 + 4 * (digit as u32) + word % 4;
        }
    }
    word
}

// A byte of the shorthand: a letter begins the next word, a digit belongs to the last one.
fn kept(words: &mut [u32], at: usize, byte: u8) -> usize {
    if at < words.len() {
        let word = activity(byte);
        if word < 4 {
            words[at] = word;
            return at + 1;
        }
    }
    if 0 < at {
        let last = at - 1;
        if last < words.len() {
            words[last] = with_digit(words[last], byte);
        }
    }
    at
}

// Runs in the document's shorthand, as "d135 r15", into words from a place on; gives the place after them.
fn runs(words: &mut [u32], at: usize, shorthand: &[u8]) -> usize {
    let mut next = at;
    for &byte in shorthand {
        next = kept(words, next, byte);
    }
    next
}

fn times(words: &mut [u32], at: usize, count: u32, shorthand: &[u8]) -> usize {
    let mut next = at;
    for _ in 0..count {
        next = runs(words, next, shorthand);
    }
    next
}

// So many days with a daily rest of 11 hours, then these runs.
fn days(words: &mut [u32], at: usize, count: u32, then: &[u8]) -> usize {
    let next = times(words, at, count, b"w780 r660");
    runs(words, next, then)
}

// Days whose rests have no minute to spare, then these runs: three rests of 540 minutes, so that none of the others, of 660, may
// be shortened.
fn tight_days(words: &mut [u32], at: usize, count: u32, then: &[u8]) -> usize {
    let next = times(words, at, 3, b"w780 r540");
    let last = times(words, next, count, b"w720 r660");
    runs(words, last, then)
}

fn run(words: &mut [u32], at: usize, minutes: u32, activity: u32) -> usize {
    if at < words.len() {
        if minutes < 100000 {
            if activity < 4 {
                words[at] = 4 * minutes + activity;
                return at + 1;
            }
        }
    }
    at
}

// A week with one weekly rest of so many minutes, an hour after its start; then tight days, and work in its last minute. The hour
// and the three short days leave 6,060 of its minutes.
fn week(words: &mut [u32], at: usize, rest: u32) -> usize {
    if 6060 < rest {
        return at;
    }
    let left = 6060 - rest;
    let begun = runs(words, at, b"w60");
    let rested = run(words, begun, rest, 0);
    let worked = tight_days(words, rested, left / 1380, b"");
    run(words, worked, left % 1380, 2)
}

fn weeks(words: &mut [u32], at: usize, rests: &[u32]) -> usize {
    let mut next = at;
    for &rest in rests {
        next = week(words, next, rest);
    }
    next
}

fn first_words(words: &[u32], count: usize) -> &[u32] {
    if count <= words.len() {
        return &words[..count];
    }
    words
}

fn first_bytes(bytes: &[u8], count: usize) -> &[u8] {
    if count <= bytes.len() {
        return &bytes[..count];
    }
    bytes
}

// An entry of a reading: kind, week and carrier, by its four bytes.
fn show_entry(out: &impl Print, entry: &[u8]) -> io::Result<()> {
    if entry.len() < 4 {
        return Ok(());
    }
    let carrier = rules_entries::carrier_of(entry[2], entry[3]);
    if entry[0] == 0 && entry[1] == 0 && carrier == 0 {
        return print!(out; " d");
    }
    let kind = entry[0];
    let week = entry[1];
    print!(out; " {kind}/{week}/{carrier}")
}

fn show_entries(out: &impl Print, reading: &[u8]) -> io::Result<()> {
    let count = reading.len() / rules_entries::ENTRY_BYTES;
    for j in 0..count {
        show_entry(out, rules_entries::entry(reading, j + 1))?;
    }
    Ok(())
}

fn show_article(out: &impl Print, article: Article) -> io::Result<()> {
    match article {
        Article::Breaks => print!(out; "7"),
        Article::DailyDriving => print!(out; "6.1"),
        Article::WeeklyDriving => print!(out; "6.2"),
        Article::FortnightlyDriving => print!(out; "6.3"),
        Article::DailyRests => print!(out; "8.2"),
        Article::Rests => print!(out; "8"),
    }
}

// The number of a refusal.
fn show_refusal(out: &impl Print, refusal: Refusal) -> io::Result<()> {
    let number = u32::from(refusal);
    print!(out; "refused {number}")
}

fn show_verdict(out: &impl Print, answer: Result<Verdict, Refusal>) -> io::Result<()> {
    print!(out; ": ")?;
    match answer {
        Err(refusal) => show_refusal(out, refusal),
        Ok(Verdict::Pass) => print!(out; "pass"),
        Ok(Verdict::Breach(breach)) => {
            let Breach { minute, article } = breach;
            print!(out; "breach {minute}, ")?;
            show_article(out, article)
        }
    }
}

// The first reading, where there is one.
fn show_reading(out: &impl Print, words: &[u32]) -> io::Result<()> {
    let mut reading = [9u8; READING_BYTES];
    match verdict::first_reading(words, &mut reading) {
        Err(_) => Ok(()),
        Ok(n) => show_entries(out, first_bytes(&reading, n as usize)),
    }
}

fn show(out: &impl Print, name: &str, words: &[u32], count: usize) -> io::Result<()> {
    let recording = first_words(words, count);
    print!(out; "{name}")?;
    show_verdict(out, verdict::verdict(recording))?;
    show_reading(out, recording)?;
    println!(out)
}

fn show_runs(out: &impl Print, shorthand: &str) -> io::Result<()> {
    let mut words = [0u32; 16];
    let count = runs(&mut words, 0, shorthand.as_bytes());
    show(out, shorthand, &words, count)
}

fn show_times(
    out: &impl Print,
    name: &str,
    count: u32,
    shorthand: &[u8],
    then: &[u8],
) -> io::Result<()> {
    let mut words = [0u32; 64];
    let repeated = times(&mut words, 0, count, shorthand);
    let all = runs(&mut words, repeated, then);
    show(out, name, &words, all)
}

fn show_weeks(out: &impl Print, name: &str, rests: &[u32]) -> io::Result<()> {
    let mut words = [0u32; 256];
    let count = weeks(&mut words, 0, rests);
    show(out, name, &words, count)
}

// The cases of "On the edge"; the net lengths 1,440, 2,699 and 2,700 stand in show_reductions.
fn show_edges(out: &impl Print) -> io::Result<()> {
    let nothing = [0u32; 1];
    show(out, "empty", &nothing, 0)?;
    show_runs(out, "d270")?;
    show_runs(out, "d271")?;
    show_runs(out, "d135 r15 d135 r30 d270")?;
    show_runs(out, "d135 r14 d135 r30 d270")?;
    show_runs(out, "d135 r30 d135 r15 d1")?;
    show_runs(out, "d270 a45 d1")?;
    show_runs(out, "w900")?;
    show_runs(out, "w901")?;
    show_runs(out, "w900 r539 w1")?;
    show_runs(out, "w900 r540 w1")?;
    show_times(out, "3 times (w840 r600), w1", 3, b"w840 r600", b"w1")?;
    show_times(out, "4 times (w840 r600), w1", 4, b"w840 r600", b"w1")?;
    show_times(out, "6 times (w780 r660)", 6, b"w780 r660", b"")?;
    show_times(out, "6 times (w780 r660), w1", 6, b"w780 r660", b"w1")
}

// First parts: driving done since the sum was last cleared, or since minute 0, or not.
fn show_first_parts(out: &impl Print) -> io::Result<()> {
    show_runs(out, "r15 d270 r30 d1")?;
    show_runs(out, "r30 d270 r30 d1")?;
    show_runs(out, "r44 d270 r44 d1")?;
    show_runs(out, "w60 a60 r15 d270 r30 d1")?;
    show_runs(out, "r15 d1 r15 d269 r30 d1")?;
    show_runs(out, "r15 d1 r14 d269 r30 d1")?;
    show_runs(out, "d1 r45 w60 r15 d270 r30 d1")?;
    show_runs(out, "d1 r15 d1 r30 a60 r15 d270 r30 d1")?;
    show_runs(out, "d1 r45 d1 r15 d269 r30 d1")?;
    show_runs(out, "d1 r15 d1 r45 d270 r30 d1")?;
    show_runs(out, "d1 r15 d1 r30 d270 r30 d1")
}

// The first broken article in the regulation's order.
fn show_first_article(
    out: &impl Print,
    answer: Result<Option<Article>, Refusal>,
) -> io::Result<()> {
    print!(out; "; ")?;
    match answer {
        Err(refusal) => show_refusal(out, refusal),
        Ok(None) => print!(out; "first none"),
        Ok(Some(article)) => {
            print!(out; "first ")?;
            show_article(out, article)
        }
    }
}

// The verdict, and the first broken article of a stretch.
fn show_first(out: &impl Print, name: &str, words: &[u32], count: usize, m: u32) -> io::Result<()> {
    let recording = first_words(words, count);
    print!(out; "{name}")?;
    show_verdict(out, verdict::verdict(recording))?;
    show_first_article(out, rules_fixed::article_test(recording, m))?;
    println!(out)
}

// A first week with 2,040 minutes of driving, then so many days of 600 and of 540, then these runs.
fn show_fortnight(
    out: &impl Print,
    name: &str,
    longer: u32,
    ordinary: u32,
    then: &[u8],
    m: u32,
) -> io::Result<()> {
    let mut words = [0u32; 64];
    let begun = times(&mut words, 0, 3, b"d255 r45 d255 r660");
    let first = runs(&mut words, begun, b"d255 r45 d255 r5880");
    let after_longer = times(&mut words, first, longer, b"d270 r45 d270 r45 d60 r660");
    let after_ordinary = times(&mut words, after_longer, ordinary, b"d270 r45 d270 r660");
    let all = runs(&mut words, after_ordinary, then);
    show_first(out, name, &words, all, m)
}

fn show_first_of(out: &impl Print, shorthand: &str, m: u32) -> io::Result<()> {
    let mut words = [0u32; 16];
    let count = runs(&mut words, 0, shorthand.as_bytes());
    show_first(out, shorthand, &words, count, m)
}

// Fixed rules that break at one minute: the verdict's article goes by their numbers, the article test by the regulation's order.
fn show_orders(out: &impl Print) -> io::Result<()> {
    show_first_of(out, "d270 r45 d60 r45 d271", 691)?;
    show_first_of(out, "d270 r45 d270 r255 d61", 901)?;
    show_first_of(out, "w630 d271", 901)?;
    show_first_of(out, "d270 r45 d60 r255 d271", 901)?;
    show_first_of(out, "d271 d330", 600)?;
    show_first_of(out, "d271 d330", 601)?;
    show_first_of(out, "w900", 900)?;
    show_first_of(out, "w900", 901)?;
    show_fortnight(out, "6.2 and 6.3", 2, 4, b"d1", 17761)?;
    show_fortnight(out, "6.2, 6.3 and 8.2", 2, 4, b"w900 d1", 18661)?;
    show_fortnight(
        out,
        "6.2, 6.3 and 7",
        0,
        5,
        b"d270 r45 d120 r660 d271",
        17671,
    )?;
    show_fortnight(out, "all five", 1, 4, b"d270 r45 d60 r255 d271", 17311)
}

// Days with an earlier rest of 180 to 539 minutes: its edges, its day, and portion 540 by the window.
fn show_split_days(out: &impl Print) -> io::Result<()> {
    show_times(
        out,
        "4 times (w300 r180 w360 r600), w1",
        4,
        b"w300 r180 w360 r600",
        b"w1",
    )?;
    show_times(
        out,
        "4 times (w300 r179 w361 r600), w1",
        4,
        b"w300 r179 w361 r600",
        b"w1",
    )?;
    show_times(
        out,
        "4 times (w100 r539 w101 r600), w1",
        4,
        b"w100 r539 w101 r600",
        b"w1",
    )?;
    show_times(
        out,
        "4 times (w100 r540 w101 r600), w1",
        4,
        b"w100 r540 w101 r600",
        b"w1",
    )?;
    show_times(
        out,
        "4 times (w100 r180 w100 r200 w260 r600), w1",
        4,
        b"w100 r180 w100 r200 w260 r600",
        b"w1",
    )?;
    show_runs(out, "r180 w660 r600 w840 r600 w840 r600 w840 r600 w1")?;
    show_runs(out, "r179 w661 r600 w840 r600 w840 r600 w840 r600 w1")?;
    show_times(
        out,
        "3 times (w840 r600), w300 r180 w360 r600 w1",
        3,
        b"w840 r600",
        b"w300 r180 w360 r600 w1",
    )?;
    show_times(
        out,
        "3 times (w840 r600), w300 r180 w300 r660 w840 r600 w1",
        3,
        b"w840 r600",
        b"w300 r180 w300 r660 w840 r600 w1",
    )?;
    show_times(
        out,
        "4 times (w840 r600), w300 r180 w1",
        4,
        b"w840 r600",
        b"w300 r180 w1",
    )?;
    show_times(
        out,
        "4 times (w300 r180 w420 r600), w1",
        4,
        b"w300 r180 w420 r600",
        b"w1",
    )?;
    show_times(
        out,
        "4 times (w300 r180 w421 r600), w1",
        4,
        b"w300 r180 w421 r600",
        b"w1",
    )
}

// The articles that "On the edge" has no case of, and weeks of rest only.
fn show_articles(out: &impl Print) -> io::Result<()> {
    show_runs(out, "d270 r45 d270 r45 d60")?;
    show_runs(out, "d270 r45 d270 r45 d61")?;
    show_times(
        out,
        "6 times (d270 r45 d270 r660), d120",
        6,
        b"d270 r45 d270 r660",
        b"d120",
    )?;
    show_times(
        out,
        "6 times (d270 r45 d270 r660), d121",
        6,
        b"d270 r45 d270 r660",
        b"d121",
    )?;
    let mut words = [0u32; 64];
    let first = times(&mut words, 0, 4, b"d270 r45 d270 r660");
    let rested = runs(&mut words, first, b"d270 r45 d270 r4515");
    let second = times(&mut words, rested, 5, b"d270 r45 d270 r660");
    show(out, "5400 minutes of driving in two weeks", &words, second)?;
    let over = runs(&mut words, second, b"d1");
    show(out, "5401 minutes of driving in two weeks", &words, over)?;
    show_runs(out, "r20160 w1")
}

// Figure 1. Four rests of 68 hours, each over a week's end, and one of 45 hours in the sixth week. The last two weeks need two
// rests, so the fourth counts in the fifth week; then the third counts in the fourth week, and so on, and the first two weeks are
// left with one. No shorter stretch is without a reading, since the last two weeks are judged together only at their end.
fn show_figure_1(out: &impl Print) -> io::Result<()> {
    let mut words = [0u32; 128];
    let first = days(&mut words, 0, 4, b"w60 r660 w720 r4080");
    let second = days(&mut words, first, 5, b"w240 r4080");
    let third = days(&mut words, second, 4, b"w240 r4080");
    let fourth = days(&mut words, third, 4, b"w240 r4080");
    let fifth = days(&mut words, fourth, 5, b"w60 r660 w720 r2700");
    let all = days(&mut words, fifth, 4, b"w420");
    show(out, "figure 1", &words, all)
}

// Figures 2 to 6 give the hours of rest week by week: 44, then 45, but 24 in the last week but one. The source leaves daily rests
// aside; document 01 lets a daily rest pay back, so its answers are the source's where no daily rest has minutes to spare
// (tight_days), and not where one has (show_spare).
fn show_figures(out: &impl Print) -> io::Result<()> {
    // Figure 2. Of the later weeks only the third can pay the first one's hour without being reduced beside another, and only the
    // sixth could pay the third one's, reduced beside the fifth. That hour is due at the end of the sixth week, minute 60,480, and
    // the last two weeks are judged together from there on.
    let figure_2 = [2640u32, 2700, 2700, 2700, 1440, 2700];
    show_weeks(out, "figure 2", &figure_2)?;
    // Figure 3. The first five weeks pass, and so do all six where the sixth takes all that is owed, 1 hour and 21 beside its 45.
    // It need not take the 21, which are due later: with 46 hours it pays the 1 and stays regular.
    show_weeks(out, "figure 3, five weeks", &figure_2[..5])?;
    let figure_3 = [2640u32, 2700, 2700, 2700, 1440, 4020];
    show_weeks(out, "figure 3", &figure_3)?;
    let least_3 = [2640u32, 2700, 2700, 2700, 1440, 2760];
    show_weeks(out, "figure 3, 46 hours in the sixth week", &least_3)?;
    let under_3 = [2640u32, 2700, 2700, 2700, 1440, 2759];
    show_weeks(out, "figure 3, a minute less", &under_3)?;
    // Figure 4. Without the first week only the 21 hours are owed, and those are due after the end, also with a sixth week.
    show_weeks(out, "figure 4, five weeks", &figure_2[1..])?;
    let figure_4 = [2700u32, 2700, 2700, 1440, 2700, 3960];
    show_weeks(out, "figure 4", &figure_4)?;
    show_figure_5(out, &figure_2)?;
    // Figure 6. The hour of the first week passes on, by two weeks or three, and spoils the last one. Without the first week or
    // without the last the others pass.
    let figure_6 = [
        2640u32, 2700, 2700, 2700, 2700, 2700, 2700, 2700, 2700, 2700, 1440, 2700,
    ];
    show_weeks(out, "figure 6, twelve weeks", &figure_6)?;
    show_weeks(out, "figure 6 without the first week", &figure_6[1..])?;
    show_weeks(out, "figure 6 without the last week", &figure_6[..11])?;
    let eleven = [
        2640u32, 2700, 2700, 2700, 2700, 2700, 2700, 2700, 2700, 1440, 2700,
    ];
    show_weeks(out, "figure 6, eleven weeks", &eleven)
}

fn set_byte(reading: &mut [u8], at: usize, byte: u8) {
    if at < reading.len() {
        reading[at] = byte;
    }
}

// The entry of a weekly rest, from this byte on.
fn set_weekly(reading: &mut [u8], at: usize, week: u8, carrier: u8) {
    if at < READING_BYTES {
        set_byte(reading, at, 1);
        set_byte(reading, at + 1, week);
        set_byte(reading, at + 2, carrier);
    }
}

fn show_tested(
    out: &impl Print,
    name: &str,
    answer: Result<Option<Rule>, Refusal>,
) -> io::Result<()> {
    print!(out; "{name}: ")?;
    match answer {
        Err(refusal) => {
            show_refusal(out, refusal)?;
            println!(out)
        }
        Ok(None) => println!(out; "rule 0"),
        Ok(Some(rule)) => {
            let number = u32::from(rule);
            println!(out; "rule {number}")
        }
    }
}

// A reading of figure 2 in which the third week pays the first one's hour, and this rest the third one's.
fn show_attempt(out: &impl Print, name: &str, words: &[u32], carrier: u8) -> io::Result<()> {
    let mut reading = [0u8; 148];
    set_weekly(&mut reading, 0, 0, 13);
    set_weekly(&mut reading, 24, 1, 0);
    set_weekly(&mut reading, 48, 2, carrier);
    set_weekly(&mut reading, 72, 3, 0);
    set_weekly(&mut reading, 96, 4, 0);
    set_weekly(&mut reading, 124, 5, 0);
    show_tested(out, name, rules_reading::reading_test(words, &reading))
}

// Figure 5. The recording of figure 2 with attempts to pay the third week's hour: left, it breaks rule 8; by the fourth week, which
// is then reduced beside the third, rule 11; by the fifth, which has no hour to give, rule 7; by the sixth, reduced beside the
// fifth, rule 11.
fn show_figure_5(out: &impl Print, rests: &[u32]) -> io::Result<()> {
    let mut words = [0u32; 128];
    let count = weeks(&mut words, 0, rests);
    let recording = first_words(&words, count);
    show_attempt(out, "figure 5, the hour left", recording, 0)?;
    show_attempt(out, "figure 5, paid by the fourth week", recording, 19)?;
    show_attempt(out, "figure 5, paid by the fifth week", recording, 25)?;
    show_attempt(out, "figure 5, paid by the sixth week", recording, 32)
}

// Figure 2 with daily rests of 11 hours throughout: the first of them pays the hour back, and all is lawful.
fn show_spare(out: &impl Print) -> io::Result<()> {
    let mut words = [0u32; 128];
    let first = runs(&mut words, 0, b"w60 r2640");
    let second = days(&mut words, first, 5, b"w240 r2700");
    let third = days(&mut words, second, 5, b"w180 r2700");
    let fourth = days(&mut words, third, 5, b"w180 r2700");
    let fifth = days(&mut words, fourth, 5, b"w180 r1440");
    let sixth = days(&mut words, fifth, 5, b"w60 r660 w720 r2700");
    let all = days(&mut words, sixth, 5, b"w120");
    show(
        out,
        "figure 2, daily rests with minutes to spare",
        &words,
        all,
    )
}

// A rest over a week's end that must count before it, and one that must count after it.
fn show_sundays(out: &impl Print) -> io::Result<()> {
    let mut before = [0u32; 64];
    let inside = days(&mut before, 0, 5, b"w180 r2700");
    let sunday = days(&mut before, inside, 5, b"w480 r2700");
    let all = days(&mut before, sunday, 4, b"w480 r2700 w840");
    show(out, "a Sunday rest for the week before", &before, all)?;
    let mut after = [0u32; 64];
    let early = runs(&mut after, 0, b"w60 r2700");
    let over = days(&mut after, early, 4, b"w720 r2700");
    let last = days(&mut after, over, 5, b"w60 r660 w480 r2700");
    let whole = days(&mut after, last, 4, b"w60 r660 w720");
    show(out, "a Sunday rest for the week after", &after, whole)
}

// Net lengths of 1,440, 2,699 and 2,700 leave 1,260, 1 and 0 minutes. Only the fourth week can pay, and it has to stay regular.
// All are due at S, minute 40,320.
fn show_reductions(out: &impl Print) -> io::Result<()> {
    let compensated_1260 = [1440u32, 2700, 1440, 3960];
    show_weeks(out, "1440, paid from 3960", &compensated_1260)?;
    let short_1260 = [1440u32, 2700, 1440, 3959];
    show_weeks(out, "1440, paid from 3959", &short_1260)?;
    let compensated_1 = [2699u32, 2700, 1440, 2701];
    show_weeks(out, "2699, paid from 2701", &compensated_1)?;
    let short_1 = [2699u32, 2700, 1440, 2700];
    show_weeks(out, "2699, due at S", &short_1)?;
    let compensated_0 = [2700u32, 2700, 1440, 2700];
    show_weeks(out, "2700", &compensated_0)?;
    let mut words = [0u32; 128];
    let three = weeks(&mut words, 0, &short_1[..3]);
    let rested = runs(&mut words, three, b"w60 r2700");
    let all = tight_days(&mut words, rested, 2, b"w599");
    show(out, "2699, due a minute after S", &words, all)
}

// A weekly rest of 44 hours in the first week, and the only rest that can pay it at the end of the fourth: it ends at due, and
// then a minute later.
fn show_due(out: &impl Print) -> io::Result<()> {
    let mut words = [0u32; 128];
    let first = days(&mut words, 0, 4, b"w240 r2640");
    let second = tight_days(&mut words, first, 3, b"w480 r2700");
    let third = tight_days(&mut words, second, 3, b"w480 r1440");
    let timely = tight_days(&mut words, third, 2, b"w900 r2760 w1");
    show(out, "a carrier that ends at due", &words, timely)?;
    let late = tight_days(&mut words, third, 2, b"w900 r2761 w1");
    show(out, "a carrier that ends a minute late", &words, late)
}

fn show_twelve(out: &impl Print, bytes: &[u8; 12]) -> io::Result<()> {
    show_entries(out, bytes)?;
    println!(out)
}

// What the first reading answers.
fn show_written(out: &impl Print, answer: Result<u32, Refusal>) -> io::Result<()> {
    print!(out; "; ")?;
    match answer {
        Err(refusal) => show_refusal(out, refusal),
        Ok(count) => print!(out; "{count} bytes"),
    }
}

// Twelve bytes, of which so many are lent for the first reading; all are shown after its answer.
fn show_lent(out: &impl Print, shorthand: &str, lent: usize) -> io::Result<()> {
    let mut words = [0u32; 16];
    let count = runs(&mut words, 0, shorthand.as_bytes());
    let mut bytes = [9u8; 12];
    if 12 < lent {
        return Ok(());
    }
    let recording = first_words(&words, count);
    let answer = verdict::first_reading(recording, &mut bytes[0..lent]);
    print!(out; "{shorthand} into {lent}")?;
    show_verdict(out, verdict::verdict(recording))?;
    show_written(out, answer)?;
    print!(out; ",")?;
    show_twelve(out, &bytes)
}

// What the verdict and the first reading turn away, each in its order, and what is left in the buffer.
fn show_refusals(out: &impl Print) -> io::Result<()> {
    show_runs(out, "w5 r0")?;
    show_runs(out, "r0 w534241")?;
    show_runs(out, "r60000 w474240")?;
    show_runs(out, "r60000 w474241 r0")?;
    show_lent(out, "w10 r600 w10 r600 w1", 7)?;
    show_lent(out, "w10 r600 w10 r600 w1", 8)?;
    show_lent(out, "w10 r600 w10 r600 w1", 12)?;
    show_lent(out, "w10 r600 w901", 3)?;
    show_lent(out, "w10 r600 w901", 4)?;
    show_lent(out, "w10 r600 w901", 12)?;
    show_lent(out, "r15 d270 r30 d1", 0)?;
    show_lent(out, "w10 r600 w0", 3)?;
    show_lent(out, "w900", 0)
}

fn show_span(out: &impl Print, span: Weeks) -> io::Result<()> {
    let Weeks { first, last } = span;
    print!(out; " {first}-{last}")
}

// The spans of weeks that are a breach, for a list of so many records.
fn show_spans(
    out: &impl Print,
    name: &str,
    words: &[u32],
    count: usize,
    room: usize,
) -> io::Result<()> {
    let mut list = [Weeks { first: 0, last: 0 }; verdict_spans::WEEKS];
    let lent = &mut list[..room.min(verdict_spans::WEEKS)];
    print!(out; "{name} in a list of {room}: ")?;
    match verdict_spans::breach_spans(first_words(words, count), lent) {
        Err(refusal) => show_refusal(out, refusal)?,
        Ok(found) => {
            print!(out; "spans")?;
            for &span in lent.iter().take(found as usize) {
                show_span(out, span)?;
            }
        }
    }
    println!(out)
}

fn show_runs_spans(out: &impl Print, shorthand: &str, room: usize) -> io::Result<()> {
    let mut words = [0u32; 16];
    let count = runs(&mut words, 0, shorthand.as_bytes());
    show_spans(out, shorthand, &words, count, room)
}

fn show_weeks_spans(out: &impl Print, name: &str, rests: &[u32], room: usize) -> io::Result<()> {
    let mut words = [0u32; 256];
    let count = weeks(&mut words, 0, rests);
    show_spans(out, name, &words, count, room)
}

// A week of driving of 2,700 minutes and one of 2,700 or more: each lawful by itself.
fn show_fortnight_spans(out: &impl Print, name: &str, then: &[u8]) -> io::Result<()> {
    let mut words = [0u32; 64];
    let first = times(&mut words, 0, 4, b"d270 r45 d270 r660");
    let monday = runs(&mut words, first, b"d270 r45 d270 r4515");
    let second = times(&mut words, monday, 5, b"d270 r45 d270 r660");
    let all = runs(&mut words, second, then);
    show_spans(out, name, &words, all, 12)
}

// Weeks that pass alone and not together, breaches in several weeks, a rest that is cut at a Monday, parts of weeks, and lists that are short or enough.
fn show_all_spans(out: &impl Print) -> io::Result<()> {
    let nothing = [0u32; 1];
    show_spans(out, "empty", &nothing, 0, 0)?;
    let figure_2 = [2640u32, 2700, 2700, 2700, 1440, 2700];
    show_weeks_spans(out, "figure 2", &figure_2, 1)?;
    show_weeks_spans(out, "figure 2", &figure_2, 0)?;
    show_weeks_spans(out, "figure 3, five weeks", &figure_2[..5], 0)?;
    show_weeks_spans(out, "figure 4, five weeks", &figure_2[1..], 0)?;
    let twice = [
        2640u32, 2700, 2700, 2700, 1440, 2700, 2640, 2700, 2700, 2700, 1440, 2700,
    ];
    show_weeks_spans(out, "figure 2 twice", &twice, 3)?;
    show_weeks_spans(out, "figure 2 twice", &twice, 2)?;
    show_fortnight_spans(out, "5400 minutes of driving in two weeks", b"")?;
    show_fortnight_spans(out, "5401 minutes of driving in two weeks", b"d1")?;
    show_runs_spans(out, "d271 r9809 d271", 2)?;
    show_runs_spans(out, "d271 r9809 d271", 1)?;
    show_runs_spans(out, "d271 r9809 d271 r9809 d270", 12)?;
    show_runs_spans(out, "w900 r9300 w780", 0)?;
    show_runs_spans(out, "w900 r9300 w781", 1)?;
    show_runs_spans(out, "w900 r9180 w901", 1)?;
    show_runs_spans(out, "w900 r9180 w900", 0)?;
    show_runs_spans(out, "r10079 w1", 0)?;
    show_runs_spans(out, "r10079 w902", 1)?;
    show_runs_spans(out, "w901", 0)?;
    show_runs_spans(out, "w901", 1)?;
    show_runs_spans(out, "w901 r0", 0)?;
    show_runs_spans(out, "r60000 w474241", 0)
}

fn main(rt: HostRuntime) -> io::Result<()> {
    show_edges(&rt)?;
    show_first_parts(&rt)?;
    show_orders(&rt)?;
    show_split_days(&rt)?;
    show_articles(&rt)?;
    show_figure_1(&rt)?;
    show_figures(&rt)?;
    show_spare(&rt)?;
    show_sundays(&rt)?;
    show_reductions(&rt)?;
    show_due(&rt)?;
    show_refusals(&rt)?;
    show_all_spans(&rt)
}
