// Readings at the edges of rules 6 to 11 and where a fixed rule comes first, what a weekly rest is by its net length, and the entry of a reading.
#![tactic(auto)]

use recording::Refusal;
use rules::{Kind, Rule, Standing};
use rules_items::Item;
use std::io;

fn show_tested(out: &impl Print, answer: Result<Option<Rule>, Refusal>) -> io::Result<()> {
    match answer {
        Err(refusal) => {
            let n = u32::from(refusal);
            println!(out; ": refused {n}")
        }
        Ok(None) => println!(out; ": 0"),
        Ok(Some(rule)) => {
            let n = u32::from(rule);
            println!(out; ": {n}")
        }
    }
}

fn show(out: &impl Print, name: &str, words: &[u32], reading: &[u8]) -> io::Result<()> {
    print!(out; "{name}")?;
    show_tested(out, rules_reading::reading_test(words, reading))
}

fn show_kind(out: &impl Print, kind: Kind) -> io::Result<()> {
    match kind {
        Kind::Daily => println!(out; "daily"),
        Kind::Weekly(Standing::Regular) => println!(out; "regular weekly, reduced by 0"),
        Kind::Weekly(Standing::Reduced(d)) => println!(out; "reduced weekly, reduced by {d}"),
    }
}

// What a weekly rest of this net length is.
fn show_net(out: &impl Print, net: u32) -> io::Result<()> {
    if 10000 < net {
        return Ok(());
    }
    let item = Item {
        number: 1,
        before: 0,
        start: 60,
        end: 60 + net,
        net: 660,
        kind: 1,
        week: 0,
        carrier: 0,
        compensation: 0,
    };
    print!(out; "net {net}: ")?;
    show_kind(out, item.as_read().kind)
}

fn show_entry(out: &impl Print, reading: &[u8], number: usize) -> io::Result<()> {
    print!(out; "entry {number}: ")?;
    if let Some(refusal) = rules_entries::entry_refusal(reading, number) {
        let n = u32::from(refusal);
        return println!(out; "refused {n}");
    }
    out.write_all(rules_entries::entry(reading, number))?;
    println!(out)
}

// Rule 6.
fn show_forms(out: &impl Print) -> io::Result<()> {
    let w60r1440 = [242u32, 5760, 6];
    show(out, "weekly of 1440", &w60r1440, b"\x01\x00\x00\x00")?;
    let w60r1439 = [242u32, 5756, 6];
    show(out, "weekly of 1439", &w60r1439, b"\x01\x00\x00\x00")?;
    show(out, "a kind over 1", &w60r1440, b"\x02\x00\x00\x00")?;
    show(
        out,
        "a week it has no minute in",
        &w60r1440,
        b"\x01\x01\x00\x00",
    )?;
    show(
        out,
        "a carrier that is not there",
        &w60r1440,
        b"\x01\x00\x02\x00",
    )?;
    show(out, "itself its carrier", &w60r1440, b"\x01\x00\x01\x00")?;
    show(out, "daily with a week", &w60r1440, b"\x00\x01\x00\x00")?;
    show(out, "a carrier of 256", &w60r1440, b"\x01\x00\x00\x01")?;
    show(
        out,
        "daily with a carrier of 256",
        &w60r1440,
        b"\x00\x00\x00\x01",
    )?;
    show(out, "three bytes", &w60r1440, b"\x00\x00\x00")?;
    show(out, "five bytes", &w60r1440, b"\x00\x00\x00\x00\x00")
}

// Rules 7 and 8: a reduced weekly rest paid back.
fn show_compensations(out: &impl Print) -> io::Result<()> {
    let r1800 = [242u32, 5760, 242, 7200, 6];
    show(
        out,
        "paid back from 1800",
        &r1800,
        b"\x01\x00\x02\x00\x00\x00\x00\x00",
    )?;
    show(
        out,
        "paid back, the carrier 256 too many",
        &r1800,
        b"\x01\x00\x02\x01\x00\x00\x00\x00",
    )?;
    let r1799 = [242u32, 5760, 242, 7196, 6];
    show(
        out,
        "paid back from 1799",
        &r1799,
        b"\x01\x00\x02\x00\x00\x00\x00\x00",
    )?;
    let r2700 = [242u32, 10800, 242, 2164, 6];
    show(
        out,
        "a regular rest with a carrier",
        &r2700,
        b"\x01\x00\x02\x00\x00\x00\x00\x00",
    )?;
    let late = [242u32, 5760, 242, 155044, 6];
    show(
        out,
        "a carrier that ends a minute late",
        &late,
        b"\x01\x00\x02\x00\x01\x00\x00\x00",
    )?;
    let timely = [242u32, 5760, 242, 155040, 6];
    show(
        out,
        "a carrier that ends at the deadline",
        &timely,
        b"\x01\x00\x02\x00\x01\x00\x00\x00",
    )?;
    show(
        out,
        "no carrier, the deadline before S",
        &timely,
        b"\x01\x00\x00\x00\x01\x00\x00\x00",
    )
}

// Rules 9 and 10.
fn show_days(out: &impl Print) -> io::Result<()> {
    let short = [3362u32, 2400, 3362, 2400, 3362, 2400, 3362, 2400, 6];
    show(
        out,
        "four shortened daily rests",
        &short,
        b"\x00\x00\x00\x00\x00\x00\x00\x00\x00\x00\x00\x00\x00\x00\x00\x00",
    )?;
    let six = [
        3122u32, 2640, 3122, 2640, 3122, 2640, 3122, 2640, 3122, 2640, 3122, 2640, 6,
    ];
    show(
        out,
        "six days and no weekly rest",
        &six,
        b"\x00\x00\x00\x00\x00\x00\x00\x00\x00\x00\x00\x00\x00\x00\x00\x00\x00\x00\x00\x00\x00\x00\x00\x00",
    )
}

// Rule 9: a daily rest that pays back a minute, the fourth short one, by the words of an earlier rest in its day, of the work after that
// and of the rest itself.
fn show_split_day(
    out: &impl Print,
    name: &str,
    earlier: u32,
    work: u32,
    long: u32,
) -> io::Result<()> {
    let words = [
        242u32, 10796, 3362, 2400, 3362, 2400, 3362, 2400, 1202, earlier, work, long, 6,
    ];
    show(
        out,
        name,
        &words,
        b"\x01\x00\x05\x00\x00\x00\x00\x00\x00\x00\x00\x00\x00\x00\x00\x00\x00\x00\x00\x00",
    )
}

fn show_split_days(out: &impl Print) -> io::Result<()> {
    show_split_day(out, "a split day, 540 net of a minute", 720, 1442, 2164)?;
    show_split_day(out, "a split day, 539 net of a minute", 720, 1442, 2160)?;
    show_split_day(out, "a rest of 179 before it", 716, 1446, 2164)
}

// Rule 9: the least net length of a rest that begins so many minutes after P, by whether its day is split; one minute more than it
// has where none would do.
fn show_least(out: &impl Print, name: &str, net: u32) -> io::Result<()> {
    println!(out; "{name}: {net}")
}

fn show_numbers(out: &impl Print) -> io::Result<()> {
    show_least(
        out,
        "600 minutes from 900 on, split",
        rules_nets::regular_net(true, 0, 900, 1500),
    )?;
    show_least(
        out,
        "600 minutes from 901 on, split",
        rules_nets::regular_net(true, 0, 901, 1501),
    )?;
    show_least(
        out,
        "660 minutes from 780 on",
        rules_nets::regular_net(false, 0, 780, 1440),
    )?;
    show_least(
        out,
        "660 minutes from 781 on",
        rules_nets::regular_net(false, 0, 781, 1441),
    )
}

// Rule 11.
fn show_weeks(out: &impl Print) -> io::Result<()> {
    let only_one = [
        46080u32, 3122, 2640, 3122, 2640, 3122, 2640, 3122, 2640, 3122, 2640, 3122, 2160, 482,
    ];
    show(
        out,
        "a week of rest, its rest counted there",
        &only_one,
        b"\x01\x00\x00\x00\x00\x00\x00\x00\x00\x00\x00\x00\x00\x00\x00\x00\x00\x00\x00\x00\x00\x00\x00\x00\x00\x00\x00\x00",
    )?;
    show(
        out,
        "a week of rest, its rest counted in the next",
        &only_one,
        b"\x01\x01\x00\x00\x00\x00\x00\x00\x00\x00\x00\x00\x00\x00\x00\x00\x00\x00\x00\x00\x00\x00\x00\x00\x00\x00\x00\x00",
    )
}

// A fixed rule comes first, and what is turned away before any rule.
fn show_fixed_rules(out: &impl Print) -> io::Result<()> {
    let driving = [1087u32];
    show(out, "a fixed rule first", &driving, b"")?;
    let before_driving = [60u32, 1083, 120, 7, 2160, 6];
    show(
        out,
        "a quarter hour before any driving",
        &before_driving,
        b"\x00\x00\x00\x00",
    )?;
    let after_a_minute = [7u32, 60, 1079, 120, 7, 2160, 6];
    show(
        out,
        "a quarter hour after a minute of it",
        &after_a_minute,
        b"\x00\x00\x00\x00",
    )?;
    let empty = [2u32];
    show(out, "a word of no minutes", &empty, b"")
}

fn main(rt: HostRuntime) -> io::Result<()> {
    show_net(&rt, 1440)?;
    show_net(&rt, 2699)?;
    show_net(&rt, 2700)?;
    show_forms(&rt)?;
    show_compensations(&rt)?;
    show_days(&rt)?;
    show_split_days(&rt)?;
    show_numbers(&rt)?;
    show_weeks(&rt)?;
    show_fixed_rules(&rt)?;
    show_entry(&rt, b"abcdefgh", 1)?;
    show_entry(&rt, b"abcdefgh", 2)?;
    show_entry(&rt, b"abcdefgh", 3)?;
    show_entry(&rt, b"abcdefgh", 0)?;
    show_entry(&rt, b"abcdef", 0)?;
    show_entry(&rt, b"", 1)?;
    show_entry(&rt, b"abcdefgh", 18446744073709551615)
}
