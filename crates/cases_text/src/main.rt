// Reading and writing on good and damaged texts. What it writes is compared with stdout.
#![tactic(auto)]

ghost use Rattle.std.specs.Prelude.{◌≤◌};

use recording::{Activity, Refusal, Run};
use std::io;
use text::Page;

// A word: its activity and its minutes.
fn say_word(out: &impl Print, word: u32) -> io::Result<()> {
    let run = Run::from(word);
    let minutes = run.minutes;
    match run.activity {
        Activity::Rest => print!(out; " rest {minutes:05}"),
        Activity::Availability => print!(out; " avail {minutes:05}"),
        Activity::OtherWork => print!(out; " work {minutes:05}"),
        Activity::Driving => print!(out; " drive {minutes:05}"),
    }
}

fn say_words(out: &impl Print, words: &[u32]) -> io::Result<()> {
    for &word in words {
        say_word(out, word)?;
    }
    print!(out; "\n")
}

fn say(out: &impl Print, answer: Result<u32, Refusal>) -> io::Result<()> {
    match answer {
        Err(refusal) => {
            let n = u32::from(refusal);
            print!(out; "refused {n:02}\n")
        }
        Ok(n) => print!(out; "written {n:02}\n"),
    }
}

// Writes words into 96 bytes, and shows them, dots where nothing was written.
fn write(out: &impl Print, words: &[u32]) -> io::Result<()> {
    let mut text = [46u8; 96];
    say(out, text::write_text(words, &mut text))?;
    out.write_all(&text)?;
    out.write_all(b"\n")
}

// Reads a text into four words, shows them all, and writes what was read.
fn read(out: &impl Print, text: &[u8]) -> io::Result<()> {
    out.write_all(b"----\n")?;
    out.write_all(text)?;
    let mut words = [31u32; 4];
    let answer = text::read_text(text, &mut words);
    say(out, answer)?;
    say_words(out, &words)?;
    if let Ok(n) = answer {
        let count = n as usize;
        if count <= 4 {
            write(out, &words[..count])?;
        }
    }
    Ok(())
}

fn good(out: &impl Print) -> io::Result<()> {
    read(out, b"(recording\n)\n")?;
    read(
        out,
        b"(recording\n(week\n(drive 240)\n(rest 660)\n(work 60)\n)\n)\n",
    )?;
    read(
        out,
        b"(recording\n(week\n(rest 1)\n(rest 9)\n(avail 10)\n)\n)\n",
    )?;
    read(
        out,
        b"(recording\n(week\n(rest 10080)\n)\n(week\n(rest 10079)\n(work 1)\n)\n)\n",
    )?;
    read(
        out,
        b"(recording\n(week\n(rest 10080)\n)\n(week\n(rest 1)\n)\n)\n",
    )
}

fn damaged(out: &impl Print) -> io::Result<()> {
    read(out, b"")?;
    read(out, b"(recording\n)")?;
    read(out, b"(recording\r\n)\r\n")?;
    read(out, b"(recording\n)\n\n")?;
    read(out, b"(recording\n)\n)\n")?;
    read(out, b" (recording\n)\n")?;
    read(out, b"(recording\n(week\n)\n)\n")?;
    read(out, b"(recording\n(rest 1)\n)\n")?;
    read(out, b"(recording\n(week\n(rest 1)\n)\n")?;
    read(out, b"(recording\n(week\n(rest 0)\n)\n)\n")?;
    read(out, b"(recording\n(week\n(rest 01)\n)\n)\n")?;
    read(out, b"(recording\n(week\n(rest +1)\n)\n)\n")?;
    read(out, b"(recording\n(week\n(rest -1)\n)\n)\n")?;
    read(out, b"(recording\n(week\n(rest  1)\n)\n)\n")?;
    read(out, b"(recording\n(week\n(rest 1 )\n)\n)\n")?;
    read(out, b"(recording\n(week\n(rest )\n)\n)\n")?;
    read(out, b"(recording\n(week\n(rest 1))\n)\n)\n")?;
    read(out, b"(recording\n(week\n(rested 1)\n)\n)\n")?;
    read(out, b"(recording\n(week\n(Rest 1)\n)\n)\n")?;
    read(out, b"(recording\n(week\n(rest 10081)\n)\n)\n")?;
    read(
        out,
        b"(recording\n(week\n(rest 18446744073709551617)\n)\n)\n",
    )?;
    read(out, b"(recording\n(week\n(rest 10080)\n(rest 1)\n)\n)\n")?;
    read(
        out,
        b"(recording\n(week\n(rest 10079)\n)\n(week\n(rest 1)\n)\n)\n",
    )
}

// Reads the text of n weeks of rest.
fn read_weeks(out: &impl Print, n: usize) -> io::Result<()>
    requires { n ≤ 54 }
{
    let mut text = [0u8; 1147];
    let mut page = Page::new(&mut text);
    page.put(b"(recording\n");
    for _ in 0..n {
        page.put(b"(week\n(rest 10080)\n)\n");
    }
    page.put(b")\n");
    let end = page.len;
    read(out, &text[..end])
}

// Five run lines, or 53 weeks, and four words lent; then 54 weeks, which are not of the form.
fn too_many(out: &impl Print) -> io::Result<()> {
    read(
        out,
        b"(recording\n(week\n(rest 1)\n(work 1)\n(rest 1)\n(work 1)\n(rest 1)\n)\n)\n",
    )?;
    read_weeks(out, 53)?;
    read_weeks(out, 54)
}

fn written(out: &impl Print) -> io::Result<()> {
    out.write_all(b"---- words\n")?;
    let zero = [41, 2];
    write(out, &zero)?;
    let long = [40, 4 * 534240];
    write(out, &long)?;
    let longest = [4 * 534240 + 3];
    write(out, &longest)?;
    let over = [4 * 20161 + 2];
    write(out, &over)?;
    let whole = [4 * 10080, 4 * 10080 + 3];
    write(out, &whole)?;
    let joined = [41, 81, 4];
    write(out, &joined)
}

fn main(rt: HostRuntime) -> io::Result<()> {
    good(&rt)?;
    damaged(&rt)?;
    too_many(&rt)?;
    written(&rt)
}
