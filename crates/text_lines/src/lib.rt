// The lines of bracket text: what a line is, and where the reader stands after it. What is said of them stands in specs/.
#![tactic(auto)]

ghost use Rattle.std.specs.Prelude.{◌≡◌, ◌≤◌, [], MatchOption, nat_eq};
ghost use Rattle.std.specs.List.{position};
ghost use Rattle.recording.specs.Words.{code_of, word_of};
ghost use Rattle.text_lines.specs.Form.{run_name, run_at_most, line_end};
ghost use Rattle.text_lines.specs.Reading.{number_from, number_after, run_or_other, line_of, on_recording, on_week, on_run, on_closing, stage_after};
ghost use Rattle.text_lines.specs.LineByLine.{unless_0, word_unless_0, FirstLine};

use recording::Activity;

/// A line of the text; a run with its word.
#[derive(Clone, Copy, Debug, PartialEq, Eq)]
pub enum Line {
    Recording,
    Week,
    Closing,
    Run(u32),
    Other,
}

/// Where the reader stands. Between and within weeks: the minutes that the last week can still take, and the weeks that may
/// still follow.
#[derive(Clone, Copy, Debug, PartialEq, Eq)]
pub enum Stage {
    Before,
    Between(u32, u32),
    Within(u32, u32),
    Over,
    Wrong,
}

const RECORDING_LINE: &[u8] = b"(recording";

const WEEK_LINE: &[u8] = b"(week";

const CLOSING_LINE: &[u8] = b")";

const WEEKS_AT_MOST: u32 = 53;

const RUN_AT_MOST: u32 = 10080;

/// What stands before the minutes of a run.
#[tactic(auto, unfolding(crate::specs::Form::run_name))]
pub fn run_name(activity: Activity) -> &'static [u8]
    ensures { result.now ≡ run_name (code_of activity) }
{
    match activity {
        Activity::Rest => b"(rest ",
        Activity::Availability => b"(avail ",
        Activity::OtherWork => b"(work ",
        Activity::Driving => b"(drive ",
    }
}

// The number from 1 to 10080, without leading zeros, that stands before a last closing bracket.
fn number_in(bytes: &[u8]) -> Option<u32>
    ensures { result ≡ unless_0 (number_from 0 bytes.now) }
{
    let digits = bytes.strip_suffix(CLOSING_LINE)?;
    let mut value = 0;
    for &digit in digits {
        if !digit.is_ascii_digit() {
            return None;
        }
        value = value * 10 + u32::from(digit - b'0');
        if value == 0 || value > RUN_AT_MOST {
            return None;
        }
    }
    (value != 0).then_some(value)
}

// The number after a name.
fn number_after(name: &[u8], line: &[u8]) -> Option<u32>
    ensures { result ≡ unless_0 (number_after name.now line.now) }
{
    number_in(line.strip_prefix(name)?)
}

// The word of a run.
fn word_of(minutes: u32, activity: Activity) -> u32
    requires { minutes ≤ run_at_most }
    ensures { result ≡ word_of minutes (code_of activity) }
{
    let code = match activity {
        Activity::Rest => 0,
        Activity::Availability => 1,
        Activity::OtherWork => 2,
        Activity::Driving => 3,
    };
    4 * minutes + code
}

// The word of a line that is a run of this activity.
fn word_in(line: &[u8], activity: Activity) -> Option<u32>
    ensures { result ≡ word_unless_0 (number_after (run_name (code_of activity)) line.now) (code_of activity) }
{
    let minutes = number_after(run_name(activity), line)?;
    Some(word_of(minutes, activity))
}

// The run that a line is, if it is one. One question for each of the four names: no chain says it more plainly.
fn run_of(line: &[u8]) -> Line
    ensures { result ≡ run_or_other line.now }
{
    if let Some(word) = word_in(line, Activity::Rest) {
        return Line::Run(word);
    }
    if let Some(word) = word_in(line, Activity::Availability) {
        return Line::Run(word);
    }
    if let Some(word) = word_in(line, Activity::OtherWork) {
        return Line::Run(word);
    }
    if let Some(word) = word_in(line, Activity::Driving) {
        return Line::Run(word);
    }
    Line::Other
}

// What a line is.
fn line_of(line: &[u8]) -> Line
    ensures { result ≡ line_of line.now }
{
    if line == RECORDING_LINE {
        return Line::Recording;
    }
    if line == WEEK_LINE {
        return Line::Week;
    }
    if line == CLOSING_LINE {
        return Line::Closing;
    }
    run_of(line)
}

// Where the first line end stands.
fn line_end(text: &[u8]) -> Option<usize>
    ensures { result ≡ position (λ byte. nat_eq byte line_end) text.now }
{
    text.iter().position(|&byte| byte == b'\n')
}

/// The first line of a text, and where the next one begins; a last line that has no end is none of the form.
pub fn first_line(text: &[u8]) -> Option<(Line, usize)>
    ensures { MatchOption result (text.now ≡ []) (λ found. FirstLine text.now found.0 found.1) }
{
    if text.is_empty() {
        return None;
    }
    let Some(n) = line_end(text) else {
        return Some((Line::Other, text.len()));
    };
    Some((line_of(&text[..n]), n + 1))
}

impl Stage {
    // The recording's line stands at the beginning only.
    fn on_recording(self) -> Stage
        ensures { result ≡ on_recording self }
    {
        match self {
            Stage::Before => Stage::Between(0, WEEKS_AT_MOST),
            Stage::Between(_, _) | Stage::Within(_, _) | Stage::Over | Stage::Wrong => Stage::Wrong,
        }
    }

    // Another week begins after a full one only, and not after the last that may follow.
    fn on_week(self) -> Stage
        ensures { result ≡ on_week self }
    {
        match self {
            Stage::Between(left, more) => {
                if left != 0 || more == 0 {
                    return Stage::Wrong;
                }
                Stage::Within(recording::WEEK_MINUTES, more - 1)
            }
            Stage::Before | Stage::Within(_, _) | Stage::Over | Stage::Wrong => Stage::Wrong,
        }
    }

    // A run of n minutes stands within a week that can take it.
    fn on_run(self, n: u32) -> Stage
        ensures { result ≡ on_run n self }
    {
        match self {
            Stage::Within(left, more) => {
                if left < n {
                    return Stage::Wrong;
                }
                Stage::Within(left - n, more)
            }
            Stage::Before | Stage::Between(_, _) | Stage::Over | Stage::Wrong => Stage::Wrong,
        }
    }

    // A bracket closes a week that has a run, or the recording.
    fn on_closing(self) -> Stage
        ensures { result ≡ on_closing self }
    {
        match self {
            Stage::Between(_, _) => Stage::Over,
            Stage::Within(left, more) => {
                if left < recording::WEEK_MINUTES {
                    return Stage::Between(left, more);
                }
                Stage::Wrong
            }
            Stage::Before | Stage::Over | Stage::Wrong => Stage::Wrong,
        }
    }

    /// Where the reader stands after a line.
    #[tactic(auto, unfolding(crate::specs::Reading::stage_after))]
    pub fn after(self, line: Line) -> Stage
        ensures { result ≡ stage_after self line }
    {
        match line {
            Line::Recording => self.on_recording(),
            Line::Week => self.on_week(),
            Line::Closing => self.on_closing(),
            Line::Run(word) => self.on_run(word / 4),
            Line::Other => Stage::Wrong,
        }
    }
}
