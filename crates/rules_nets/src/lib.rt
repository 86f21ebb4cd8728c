// What rule 9 asks of each long rest: the least net length at which it is no shortened daily rest, by the day that it ends.
#![tactic(auto)]

ghost use Rattle.std.specs.Prelude.{◌≡◌, ◌≤◌};
ghost use Rattle.std.proofs.lemmas.List.Edits.{sets};
ghost use Rattle.recording.specs.Tests.{pick};
ghost use Rattle.recording.specs.Words.{code_of, minutes_of};
ghost use Rattle.recording.specs.Operations.{total_at_most};
ghost use Rattle.recording.specs.Scan.{rest_at, words_in};
ghost use Rattle.rules_nets.specs.Nets.{regular_net, nets_of, fresh_day, closes, day_on, with_net};

use recording::{Activity, Place, Recording, Run, Span};

/// The day that runs, as rule 9 asks of it: its start P, and whether it has held a rest of 180 to 539 minutes.
#[derive(Clone, Copy, Debug, PartialEq, Eq)]
pub struct OpenDay {
    pub start: u32,
    pub held: bool,
}

// Article 8(4), rule 9: the day in which a daily rest's portion lies, a full portion, and the two periods of a regular daily rest taken as two.
const DAILY_WINDOW: u32 = 1440;

const FULL_PORTION: u32 = 660;

const FIRST_PERIOD: u32 = 180;

const SECOND_PERIOD: u32 = 540;

/// Rule 9: the least net length at which the rest from `start` to `end` is no shortened daily rest, in a day that starts at P, by
/// whether that day is split.
pub fn regular_net(split: bool, day: u32, start: u32, end: u32) -> u32
    requires { (day ≤ total_at_most) × (start ≤ end) × (end ≤ total_at_most) }
    ensures { result ≡ regular_net split day start end }
{
    if split {
        if start + SECOND_PERIOD <= day + DAILY_WINDOW {
            return SECOND_PERIOD;
        }
        return end - start + 1;
    }
    if start + FULL_PORTION <= day + DAILY_WINDOW {
        return FULL_PORTION;
    }
    end - start + 1
}

impl OpenDay {
    // The day that begins at a minute.
    fn beginning(start: u32) -> OpenDay
        ensures { result ≡ fresh_day start }
    {
        OpenDay { start, held: false }
    }

    // A rest has ended that was not open: its number by rule 9 at its index, if it is long, and the day that runs after it.
    fn after_rest(self, rest: Span, index: usize, nets: &mut [u32]) -> OpenDay
        requires { (self.start ≤ total_at_most) × (rest.start ≤ rest.end) × (rest.end ≤ total_at_most) }
        ensures day { result ≡ day_on self rest }
        ensures nets { nets.new ≡ with_net self rest index nets.old }
    {
        let minutes = rest.end - rest.start;
        if minutes < FIRST_PERIOD {
            return self;
        }
        if minutes < recording::LONG_REST {
            return OpenDay { held: true, ..self };
        }
        let net = regular_net(self.held, self.start, rest.start, rest.end);
        recording::put(nets, index, net);
        OpenDay::beginning(rest.end)
    }

    // The day that runs once a run follows: unless it is rest, it ends the rest before it.
    fn after(self, place: Place, run: Run, nets: &mut [u32]) -> OpenDay
        requires { (self.start ≤ place.from) × (place.from ≤ place.now) × (place.now ≤ total_at_most) }
        ensures day { result ≡ pick (closes (code_of run.activity) run.minutes) (day_on self (rest_at place)) self }
        ensures nets { nets.new ≡ pick (closes (code_of run.activity) run.minutes) (with_net self (rest_at place) place.count nets.old) nets.old }
    {
        if run.minutes == 0 {
            return self;
        }
        let rest = Span {
            start: place.from,
            end: place.now,
        };
        match run.activity {
            Activity::Rest => self,
            Activity::Availability | Activity::OtherWork | Activity::Driving => {
                self.after_rest(rest, place.count as usize, nets)
            }
        }
    }
}

/// The number by rule 9 of each long rest, in one walk over a recording.
pub fn put_nets(recording: Recording, nets: &mut [u32])
    ensures { nets.new ≡ sets nets.old 0 (nets_of (minutes_of (words_in recording.entry))) }
{
    // The first word ends no rest.
    let mut place = Place::origin().after(Run::from(recording.head));
    let mut day = OpenDay::beginning(0);
    for &word in recording.words {
        let run = Run::from(word);
        day = day.after(place, run, nets);
        place = place.after(run);
    }
}
