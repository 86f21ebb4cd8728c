// A recording of a driver's activity, minute by minute. What is said of it stands in specs/.
#![tactic(auto)]

ghost use Rattle.std.specs.Prelude.{◌≡◌, ◌+◌, ◌-◌, ◌≤◌, leb, length, set};
ghost use Rattle.recording.specs.Answers.{answer_of, answered, number_of};
ghost use Rattle.recording.specs.Words.{code_of, as_code, IsRunOf, minutes_in, minutes_of};
ghost use Rattle.recording.specs.Rests.{long_rest_minutes};
ghost use Rattle.recording.specs.Operations.{total_at_most, fault_of, unless_fault, total_from, measured};
ghost use Rattle.recording.specs.Scan.{words_in, ends_rest, after_run, place_of, origin, refusal_in, Scanned};

pub use recorded::Recording;

mod recorded;

/// What a driver does in a minute.
#[derive(Clone, Copy, Debug, PartialEq, Eq)]
pub enum Activity {
    Rest,
    Availability,
    OtherWork,
    Driving,
}

impl Activity {
    /// The activity of a code. What is no code is other work, which is neither rest nor driving.
    pub fn from_code(code: u32) -> Activity
        ensures { code_of result ≡ as_code code }
    {
        match code {
            0 => Activity::Rest,
            1 => Activity::Availability,
            2 => Activity::OtherWork,
            3 => Activity::Driving,
            _ => Activity::OtherWork,
        }
    }
}

/// So many minutes of one activity, in a recording a word.
#[derive(Clone, Copy, Debug, PartialEq, Eq)]
pub struct Run {
    pub activity: Activity,
    pub minutes: u32,
}

impl From<u32> for Run {
    ghost from_gives = { IsRunOf };

    fn from(word: u32) -> Run {
        Run {
            activity: Activity::from_code(word % 4),
            minutes: word / 4,
        }
    }
}

/// Why an operation is turned away. Each has a number, which callers in C are given.
#[derive(Clone, Copy, Debug, PartialEq, Eq)]
pub enum Refusal {
    NoMinutes,
    TooLong,
    ShortList,
    ShortReading,
    StretchTooLong,
    WrongByteCount,
    NoSuchEntry,
    NotText,
    TooFewWords,
    TooFewBytes,
    NotWholeDays,
    UnknownActivity,
    NoLawfulReading,
    ShortSpanList,
    FieldTooLarge,
}

impl From<Refusal> for u32 {
    ghost from_gives = { λ refusal number. number ≡ number_of refusal };

    fn from(refusal: Refusal) -> u32 {
        match refusal {
            Refusal::NoMinutes => 1,
            Refusal::TooLong => 2,
            Refusal::ShortList => 3,
            Refusal::ShortReading => 4,
            Refusal::StretchTooLong => 5,
            Refusal::WrongByteCount => 6,
            Refusal::NoSuchEntry => 7,
            Refusal::NotText => 8,
            Refusal::TooFewWords => 9,
            Refusal::TooFewBytes => 10,
            Refusal::NotWholeDays => 11,
            Refusal::UnknownActivity => 12,
            Refusal::NoLawfulReading => 13,
            Refusal::ShortSpanList => 14,
            Refusal::FieldTooLarge => 15,
        }
    }
}

/// The minutes from `start` up to `end`, which is not included. Callers in C lend a list of them.
#[repr(C)]
#[derive(Clone, Copy, Debug, PartialEq, Eq)]
pub struct Span {
    pub start: u32,
    pub end: u32,
}

/// What weighing gives: the total, the judged end and the number of long rests.
#[derive(Clone, Copy, Debug, PartialEq, Eq)]
pub struct Measure {
    pub total: u32,
    pub judged: u32,
    pub count: u32,
}

/// A place in the walk over a recording: the minute reached, where the rest under way started or one could start, and the long
/// rests that have ended. That a rest starts no later than the minute reached stands in contracts and not in a field, so that places are equal where
/// their numbers are.
#[derive(Clone, Copy, Debug, PartialEq, Eq)]
pub struct Place {
    pub now: u32,
    pub from: u32,
    pub count: u32,
}

pub const TOTAL_AT_MOST: u32 = 534240;

pub const LONG_REST: u32 = 540;

pub const WEEK_MINUTES: u32 = 10080;

/// The most long rests that a recording can have.
pub const LONG_RESTS: usize = 987;

/// The same of a short recording, one of twelve weeks or less. Arrays of so many serve it, so that it does not bear the cost of what a year needs.
pub const SHORT_TOTAL: u32 = 120960;

pub const SHORT_RESTS: usize = 223;

impl Place {
    /// The place before the first minute.
    pub fn origin() -> Place
        ensures { result ≡ origin }
    {
        Place {
            now: 0,
            from: 0,
            count: 0,
        }
    }

    // Whether the rest under way is a long one.
    fn has_long_rest(self) -> bool
        requires { self.from ≤ self.now }
        ensures { result ≡ leb long_rest_minutes (self.now - self.from) }
    {
        LONG_REST <= self.now - self.from
    }

    /// Whether a run ends a long rest here.
    pub fn ends_rest(self, run: Run) -> bool
        requires { self.from ≤ self.now }
        ensures { result ≡ ends_rest self (code_of run.activity) run.minutes }
    {
        if run.minutes == 0 {
            return false;
        }
        let long = self.has_long_rest();
        match run.activity {
            Activity::Rest => false,
            Activity::Availability | Activity::OtherWork | Activity::Driving => long,
        }
    }

    /// The place after a run.
    pub fn after(self, run: Run) -> Place
        requires { (self.from ≤ self.now) × (self.count ≤ self.now) × (self.now + run.minutes ≤ total_at_most) }
        ensures { result ≡ after_run self (code_of run.activity) run.minutes }
    {
        if run.minutes == 0 {
            return self;
        }
        let now = self.now + run.minutes;
        match run.activity {
            Activity::Rest => Place { now, ..self },
            Activity::Availability | Activity::OtherWork | Activity::Driving => {
                let ended = u32::from(self.has_long_rest());
                Place {
                    now,
                    from: now,
                    count: self.count + ended,
                }
            }
        }
    }
}

/// The place after so many minutes of the activity of a code. What is no code is no rest.
#[tactic(auto, unfolding(crate::specs::Scan::after_run))]
pub fn after_run(place: Place, activity: u32, minutes: u32) -> Place
    requires { (place.from ≤ place.now) × (place.count ≤ place.now) × (place.now + minutes ≤ total_at_most) }
    ensures { result ≡ after_run place activity minutes }
{
    place.after(Run {
        activity: Activity::from_code(activity),
        minutes,
    })
}

/// An item at a place, where the list reaches that far.
pub fn put<T: Copy>(list: &mut [T], at: usize, item: T)
    ensures { list.new ≡ set list.old at item }
{
    if at < list.len() {
        list[at] = item;
    }
}

/// The total with another word, or the word's refusal: its minutes are 0, or the total passes the limit.
pub fn total_after(total: u32, word: u32) -> Result<u32, Refusal>
    requires { total ≤ total_at_most }
    ensures { answer_of result ≡ unless_fault (fault_of total word) (answered (total + minutes_in word)) }
{
    let minutes = word / 4;
    if minutes == 0 {
        return Err(Refusal::NoMinutes);
    }
    if TOTAL_AT_MOST - total < minutes {
        return Err(Refusal::TooLong);
    }
    Ok(total + minutes)
}

// The total, or the refusal of the first word at fault.
fn total_of(words: &[u32]) -> Result<u32, Refusal>
    ensures { answer_of result ≡ total_from 0 words.now }
{
    'walk: {
        let mut total: u32 = 0;
        for &word in words {
            match total_after(total, word) {
                Ok(sum) => total = sum,
                Err(refusal) => break 'walk Err(refusal),
            }
        }
        Ok(total)
    }
}

/// The place at the end of a recording; weighing asks for it, so the words are no `Recording` yet.
pub fn place_of(words: &[u32]) -> Place
    requires { length (minutes_of words.now) ≤ total_at_most }
    ensures { result ≡ place_of origin words.now }
{
    let mut place = Place::origin();
    for &word in words {
        place = place.after(Run::from(word));
    }
    place
}

/// Weighing: the total, the judged end and the number of long rests; or the refusal of the first word at fault.
pub fn weigh(words: &[u32]) -> Result<Measure, Refusal>
    ensures { answer_of result ≡ measured words.now }
{
    let total = total_of(words)?;
    let place = place_of(words);
    Ok(Measure {
        total,
        judged: place.from,
        count: place.count,
    })
}

/// The number of weighing's refusal, and 0 of a measure.
pub fn refusal_of(weighing: Result<Measure, Refusal>) -> u32
    ensures { result ≡ refusal_in weighing }
{
    weighing.map_or_else(u32::from, |_| 0)
}

/// Where each long rest starts and ends, written from the front of the lent slices as far as they reach; and the place at the end.
pub fn scan(recording: Recording, starts: &mut [u32], ends: &mut [u32]) -> Place
    ensures { Scanned (words_in recording.entry) starts.old ends.old result starts.new ends.new }
{
    let mut place = Place::origin().after(Run::from(recording.head));
    for &word in recording.words {
        let run = Run::from(word);
        if place.ends_rest(run) {
            put(starts, place.count as usize, place.from);
            put(ends, place.count as usize, place.now);
        }
        place = place.after(run);
    }
    place
}
