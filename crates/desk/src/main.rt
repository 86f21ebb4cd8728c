// The desk program: bracket text from standard input, or with `--card` a card's day record, and to standard output what is printed of its verdict, or with
// `--spans` of its spans of weeks. It reads one byte more than an input may have, so that a longer one is seen.
#![tactic(auto)]

ghost use Rattle.std.specs.Prelude.{◌^◌, ◌≤◌};

use desk_report::{Format, Shown};
use std::env::FillError;
use std::io;
use std::io::Read;
use std::rt::Env;

const ENOUGH: usize = desk_report::INPUT_BYTES + 1;

const CARD: &[u8] = b"--card";

const SPANS: &[u8] = b"--spans";

// Reads until the buffer is full or the input ends; how many bytes stand in front of the buffer.
fn read_input(source: &mut impl Read, buffer: &mut [u8]) -> io::Result<usize> {
    let mut done = 0;
    // A read gives as many bytes as it likes, so this counts them.
    while done < buffer.len() {
        let n = source.read(&mut buffer[done..])?;
        if n == 0 {
            break;
        }
        done += n;
    }
    Ok(done)
}

fn write_page(rt: &(impl Print + Eprint), page: &[u8]) {
    if rt.write_all(page).is_err() {
        let _ = eprintln!(rt; "desk: the answer cannot be written");
    }
}

// What an argument asks for.
#[derive(Clone, Copy)]
enum Argument {
    Card,
    Spans,
}

// An argument that is not known, or that stands there twice.
#[derive(Clone, Copy)]
struct Unknown;

fn known(bytes: &[u8]) -> Result<Argument, Unknown> {
    if bytes == CARD {
        return Ok(Argument::Card);
    }
    if bytes == SPANS {
        return Ok(Argument::Spans);
    }
    Err(Unknown)
}

// The argument at a place, if there is one. One that is longer than any known argument is not known.
fn argument_at(rt: &impl Env, i: usize) -> Result<Option<Argument>, Unknown> {
    let mut bytes = [0u8; 8];
    match rt.arg(i, &mut bytes) {
        Ok(n) => {
            let argument = known(&bytes[..n])?;
            Ok(Some(argument))
        }
        Err(FillError::TooLong) => Err(Unknown),
        Err(FillError::NotPresent) => Ok(None),
    }
}

// What the arguments ask for: a card's day record in place of a text, the spans of weeks in place of the verdict.
#[derive(Clone, Copy)]
struct Asked {
    format: Format,
    shown: Shown,
}

impl Asked {
    // The same with one argument more.
    fn with(self, argument: Argument) -> Result<Asked, Unknown> {
        match argument {
            Argument::Card => match self.format {
                Format::Text => Ok(Asked {
                    format: Format::Card,
                    ..self
                }),
                Format::Card => Err(Unknown),
            },
            Argument::Spans => match self.shown {
                Shown::Verdict => Ok(Asked {
                    shown: Shown::Spans,
                    ..self
                }),
                Shown::Spans => Err(Unknown),
            },
        }
    }
}

// There are two arguments at most, so a third one is not known or stands there twice.
fn what_is_asked(rt: &impl Env) -> Result<Asked, Unknown> {
    let mut asked = Asked {
        format: Format::Text,
        shown: Shown::Verdict,
    };
    for i in 1..4 {
        match argument_at(rt, i)? {
            Some(argument) => asked = asked.with(argument)?,
            None => return Ok(asked),
        }
    }
    Err(Unknown)
}

// The answer by way of a page of so many bytes.
fn answer_in<const BYTES: usize>(rt: &(impl Print + Eprint), asked: Asked, input: &[u8])
    requires { BYTES ≤ 2 ^ 20 }
{
    let mut page = [0u8; BYTES];
    if let Ok(n) = desk_report::print(asked.format, asked.shown, input, &mut page) {
        if let Some(printed) = page.get(..n as usize) {
            write_page(rt, printed);
        }
    }
}

// The same with the shortest page that is surely enough.
fn answer(rt: &(impl Print + Eprint), asked: Asked, input: &[u8]) {
    let enough = desk_report::page_room(asked.format, asked.shown, input.len());
    if enough <= desk_report::SHORT_PAGE_BYTES {
        answer_in::<{ desk_report::SHORT_PAGE_BYTES }>(rt, asked, input);
    } else if enough <= desk_report::MIDDLE_PAGE_BYTES {
        answer_in::<{ desk_report::MIDDLE_PAGE_BYTES }>(rt, asked, input);
    } else {
        answer_in::<{ desk_report::PAGE_BYTES }>(rt, asked, input);
    }
}

fn run(rt: &(impl Input + Print + Eprint), asked: Asked) {
    let mut buffer = [0u8; ENOUGH];
    match read_input(&mut rt.reader(), &mut buffer) {
        Ok(n) => {
            if let Some(input) = buffer.get(..n) {
                answer(rt, asked, input);
            }
        }
        Err(_) => {
            let _ = eprintln!(rt; "desk: standard input cannot be read");
        }
    }
}

fn main(rt: HostRuntime) {
    match what_is_asked(&rt) {
        Ok(asked) => run(&rt, asked),
        Err(Unknown) => {
            let _ = eprintln!(&rt;
                "desk: the arguments are --card, for a card's day record, and --spans, for the spans of weeks"
            );
        }
    }
}
