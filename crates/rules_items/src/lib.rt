// A reading's entries as items, one by one: what rules 6 to 11 ask of each, and of each week and pair of weeks.
#![tactic(auto)]

ghost use Rattle.std.specs.Prelude.{◌≡◌, ◌+◌, ◌*◌, ◌<◌, ◌≤◌, not, length, get_or, leb};
ghost use Rattle.recording.specs.Tests.{pick, ◌or◌};
ghost use Rattle.recording.specs.Weeks.{week_start, week, inside};
ghost use Rattle.recording.specs.Operations.{total_at_most};
ghost use Rattle.rules.specs.Broken.{unless};
ghost use Rattle.rules.specs.Numbers.{rule_or_none};
ghost use Rattle.rules.specs.Reading.{is_weekly, is_regular, reduction_of, entry_bytes};
ghost use Rattle.rules.specs.ReadingRules.{formed, shortened_at_most};
ghost use Rattle.rules_nets.specs.Nets.{span_of};
ghost use Rattle.rules_items.specs.Items.{entry_by, end_before, item_at, Sane, compensation_at_most, Below, rest_by, enough_by};
ghost use Rattle.rules_items.specs.Items.{end_at, time_by, gap_by, smaller, short_by, short_after, tallied, tally_by, added_to, incremented, spans_in, spans_among};
ghost use Rattle.rules_items.specs.Items.{standing_for, enough_with, rest_weeks, Fresh, Few};

pub use rests::Rests;
use rules::{Kind, Rule, Standing};

mod rests;

const WEEKLY_KIND: u32 = 1;

const DAILY_KIND: u32 = 0;

pub const REGULAR: u32 = 2700;

const WEEKLY_LENGTH: u32 = 1440;

pub const DAILY_NET: u32 = 540;

pub const WEEKLY_NET: u32 = 1440;

pub const WEEKS_TO_COMPENSATE: u32 = 4;

pub const SHORTENED_AT_MOST: u32 = 3;

pub const WEEKLY_GAP: u32 = 8640;

pub const WEEKLY_AT_LEAST: u32 = 2;

pub const REGULAR_AT_LEAST: u32 = 1;

/// A long rest with its entry: its number from 1, the end of the long rest before it or 0, its start and end, the least net length
/// at which it is no shortened daily rest, its entry's fields, and the compensation that it gives. Its bounds stand in the contracts, as definitions make
/// items of bare numbers.
#[derive(Clone, Copy)]
pub struct Item {
    pub number: u32,
    pub before: u32,
    pub start: u32,
    pub end: u32,
    pub net: u32,
    pub kind: u32,
    pub week: u32,
    pub carrier: u32,
    pub compensation: u32,
}

/// A long rest as a reading takes it.
#[derive(Clone, Copy)]
pub struct LongRest {
    pub start: u32,
    pub end: u32,
    pub kind: Kind,
}

/// What a walk over the rests keeps for rules 8 to 10: the smallest broken rule, the shortened daily rests since the last
/// weekly rest, and where that ended.
#[derive(Clone, Copy)]
pub struct Tally {
    pub rule: Option<Rule>,
    pub short: u32,
    pub last: u32,
}

/// The weekly rests that are counted in each week, and the regular ones among them.
#[derive(Drop)]
pub struct WeekCounts {
    pub weekly: [u32; 256],
    pub regular: [u32; 256],
}

// Where the long rest before the one of index i ends, or 0.
fn end_before(ends: &[u32], i: usize) -> u32
    requires { i ≤ length ends.now }
    ensures { result ≡ end_before ends.now i }
{
    if i == 0 { 0 } else { ends[i - 1] }
}

/// The item of index i.
pub fn item_at(rests: Rests, reading: &[u8], compensations: &[u32], i: usize) -> Item
    requires rest { i < length rests.starts.now }
    requires entry { entry_bytes * i + 3 < length reading.now }
    requires compensation { i < length compensations.now }
    ensures { result ≡ item_at rests.entry.starts.now rests.entry.ends.now rests.entry.nets.now reading.now compensations.now i }
{
    let at = rules_entries::ENTRY_BYTES * i;
    Item {
        number: (i + 1) as u32,
        before: end_before(rests.ends, i),
        start: rests.starts[i],
        end: rests.ends[i],
        net: rests.nets[i],
        kind: u32::from(reading[at]),
        week: u32::from(reading[at + 1]),
        carrier: rules_entries::carrier_of(reading[at + 2], reading[at + 3]),
        compensation: compensations[i],
    }
}

/// The standing of a weekly rest of so many minutes, with a compensation: regular, or reduced by what it lacks.
pub fn standing_of(minutes: u32, compensation: u32) -> Standing
    requires { compensation ≤ compensation_at_most }
    ensures { result ≡ standing_for minutes compensation }
{
    let full = REGULAR + compensation;
    if minutes < full {
        Standing::Reduced(full - minutes)
    } else {
        Standing::Regular
    }
}

impl Item {
    /// The long rest as its entry reads it: daily, regular weekly or reduced weekly with its reduction.
    pub fn as_read(self) -> LongRest
        requires { Sane self }
        ensures { result ≡ rest_by self }
    {
        let kind = if self.kind == WEEKLY_KIND {
            Kind::Weekly(standing_of(self.end - self.start, self.compensation))
        } else {
            Kind::Daily
        };
        LongRest {
            start: self.start,
            end: self.end,
            kind,
        }
    }

    /// Rule 6, among k long rests.
    pub fn is_formed(self, k: u32) -> bool
        requires { Sane self }
        ensures { result ≡ formed k (entry_by self) }
    {
        if self.kind == DAILY_KIND {
            return self.week == 0 && self.carrier == 0;
        }
        if self.kind != WEEKLY_KIND {
            return false;
        }
        WEEKLY_LENGTH <= self.end - self.start
            && self.start < recording::WEEK_MINUTES * (self.week + 1)
            && recording::WEEK_MINUTES * self.week < self.end
            && (self.carrier == 0 || self.number < self.carrier && self.carrier <= k)
    }

    // Rule 9: whether the rest counts as shortened where it is daily, by its number.
    fn is_shortened(self) -> bool
        requires { Sane self }
        ensures { result ≡ short_by self }
    {
        self.end - self.start < self.net + self.compensation
    }
}

/// Where the long rest of a number ends, or 0.
pub fn end_of(ends: &[u32], number: u32) -> u32
    ensures { result ≡ end_at ends.now (length ends.now) number }
{
    if number == 0 {
        return 0;
    }
    let i = (number - 1) as usize;
    if i < ends.len() { ends[i] } else { 0 }
}

impl LongRest {
    /// Rule 7: long enough net of the compensation that it gives.
    pub fn is_long_enough(self, compensation: u32) -> bool
        requires { (self.start ≤ self.end) × (compensation ≤ compensation_at_most) }
        ensures { result ≡ enough_by self compensation }
    {
        match self.kind {
            Kind::Daily => DAILY_NET + compensation <= self.end - self.start,
            Kind::Weekly(_) => WEEKLY_NET + compensation <= self.end - self.start,
        }
    }

    // Rule 8: compensated in time, where the carrier ends at `end` and the judged end is s.
    fn in_time(self, week: u32, carrier: u32, end: u32, s: u32) -> bool
        requires { week ≤ 255 }
        ensures { result ≡ time_by self.kind week carrier end s }
    {
        let deadline = recording::WEEK_MINUTES * (week + WEEKS_TO_COMPENSATE);
        match self.kind {
            Kind::Daily => true,
            Kind::Weekly(Standing::Regular) => carrier == 0,
            Kind::Weekly(Standing::Reduced(_)) => {
                if carrier == 0 {
                    s < deadline
                } else {
                    end <= deadline
                }
            }
        }
    }

    // Rule 10: whether it is daily or starts in time after the last weekly rest.
    fn in_gap(self, q: u32) -> bool
        requires { q ≤ total_at_most }
        ensures { result ≡ gap_by q self }
    {
        match self.kind {
            Kind::Daily => true,
            Kind::Weekly(_) => self.start <= q + WEEKLY_GAP,
        }
    }

    pub fn is_weekly(self) -> bool
        ensures { result ≡ is_weekly self.kind }
    {
        match self.kind {
            Kind::Daily => false,
            Kind::Weekly(_) => true,
        }
    }

    pub fn is_regular(self) -> bool
        ensures { result ≡ is_regular self.kind }
    {
        match self.kind {
            Kind::Daily | Kind::Weekly(Standing::Reduced(_)) => false,
            Kind::Weekly(Standing::Regular) => true,
        }
    }
}

/// The reduction of a rest of a kind.
pub fn reduction(kind: Kind) -> u32
    ensures { result ≡ reduction_of kind }
{
    match kind {
        Kind::Daily | Kind::Weekly(Standing::Regular) => 0,
        Kind::Weekly(Standing::Reduced(d)) => d,
    }
}

/// The smaller of two broken rules.
pub fn smaller_rule(a: Option<Rule>, b: Option<Rule>) -> Option<Rule>
    ensures { rule_or_none result ≡ smaller (rule_or_none a) (rule_or_none b) }
{
    let Some(x) = a else {
        return b;
    };
    let Some(y) = b else {
        return a;
    };
    if u32::from(x) <= u32::from(y) { a } else { b }
}

/// The smaller of two broken rules by their numbers, where 0 is none.
pub fn smaller_of(a: u32, b: u32) -> u32
    ensures { result ≡ smaller a b }
{
    if a == 0 || b != 0 && b < a { b } else { a }
}

// The smallest of rules 8 to 10 that a rest breaks.
fn broken_by(timely: bool, short: u32, near: bool) -> Option<Rule>
    ensures { rule_or_none result ≡ unless timely 8 (unless (leb short shortened_at_most) 9 (unless near 10 0)) }
{
    if !timely {
        return Some(Rule::CompensationInTime);
    }
    if SHORTENED_AT_MOST < short {
        return Some(Rule::ShortenedRests);
    }
    if !near {
        return Some(Rule::WeeklyRestGap);
    }
    None
}

impl Tally {
    // Rule 9: the shortened daily rests since the last weekly rest, with this one.
    fn short_after(self, x: Item, r: LongRest) -> u32
        requires { Sane x × (r ≡ rest_by x) × (self.short < 1000) }
        ensures { result ≡ short_after (short_by x) self.short (entry_by x) }
    {
        match r.kind {
            Kind::Daily => self.short + u32::from(x.is_shortened()),
            Kind::Weekly(_) => 0,
        }
    }

    // Rule 10: where the last weekly rest ended, with this one.
    fn last_after(self, r: LongRest) -> u32
        ensures { result ≡ pick (is_weekly r.kind) r.end self.last }
    {
        match r.kind {
            Kind::Daily => self.last,
            Kind::Weekly(_) => r.end,
        }
    }

    /// Rules 8 to 10 with a rest more, whose carrier ends at `end`.
    pub fn after(self, s: u32, end: u32, x: Item, r: LongRest) -> Tally
        requires { Sane x × (r ≡ rest_by x) × (self.short < 1000) × (self.last ≤ total_at_most) }
        ensures { tallied result ≡ tally_by (short_by x) s end (tallied self) (entry_by x) }
    {
        let short = self.short_after(x, r);
        let timely = r.in_time(x.week, x.carrier, end, s);
        let near = r.in_gap(self.last);
        Tally {
            rule: smaller_rule(self.rule, broken_by(timely, short, near)),
            short,
            last: self.last_after(r),
        }
    }
}

/// The reduction d is to be compensated for by the rest of number `carrier`, if that is one.
pub fn compensate(compensations: &mut [u32], carrier: u32, d: u32)
    requires { (d ≤ compensation_at_most) × Below compensation_at_most compensations.old }
    ensures { compensations.new ≡ added_to compensations.old carrier d }
{
    if carrier == 0 {
        return;
    }
    let at = (carrier - 1) as usize;
    if at < compensations.len() {
        compensations[at] += d;
    }
}

impl WeekCounts {
    /// No rest is counted.
    pub fn none() -> WeekCounts
        ensures { Fresh result }
    {
        WeekCounts {
            weekly: [0; 256],
            regular: [0; 256],
        }
    }

    /// A rest is counted in a week, as what it is.
    pub fn count(&mut self, r: LongRest, week: u32)
        requires week { week ≤ 255 }
        requires few { Few compensation_at_most self.old }
        ensures weekly { self.new.weekly ≡ incremented (is_weekly r.kind) self.old.weekly week }
        ensures regular { self.new.regular ≡ incremented (is_regular r.kind) self.old.regular week }
    {
        let at = week as usize;
        if r.is_weekly() {
            self.weekly[at] += 1;
        }
        if r.is_regular() {
            self.regular[at] += 1;
        }
    }
}

/// Whether the week w lies inside a rest.
pub fn holds_week(start: u32, end: u32, w: u32) -> bool
    requires { w < 255 }
    ensures { result ≡ inside (week w) (span_of start end) }
{
    start <= recording::WEEK_MINUTES * w && recording::WEEK_MINUTES * (w + 1) <= end
}

/// Rule 11: whether the week w is one of rest minutes only, inside one of the first k long rests.
pub fn rest_week(starts: &[u32], ends: &[u32], k: usize, w: u32) -> bool
    requires { (k ≤ length starts.now) × (k ≤ length ends.now) × (w < 255) }
    ensures { result ≡ rest_weeks (spans_in starts.now ends.now k) w }
{
    for i in 0..k {
        if holds_week(starts[i], ends[i], w) {
            return true;
        }
    }
    false
}

// The rests counted in a week: exactly one where it is of rest minutes only.
fn counted_in(rest: bool, counts: &[u32], w: u32) -> u32
    requires { w < length counts.now }
    ensures { result ≡ pick rest 1 (get_or counts.now w 0) }
{
    if rest { 1 } else { counts[w as usize] }
}

// Rule 11 of the weeks w and w + 1.
fn enough_in(rests: Rests, counts: &WeekCounts, w: u32) -> bool
    requires week { w < 254 }
    requires few { Few compensation_at_most counts.now }
    ensures { result ≡ enough_with (rest_weeks (spans_among rests.entry)) counts.now.weekly counts.now.regular w }
{
    let k = rests.starts.len();
    let next = w + 1;
    let here = rest_week(rests.starts, rests.ends, k, w);
    let there = rest_week(rests.starts, rests.ends, k, next);
    let weekly = &counts.weekly;
    let regular = &counts.regular;
    WEEKLY_AT_LEAST <= counted_in(here, weekly, w) + counted_in(there, weekly, next)
        && REGULAR_AT_LEAST <= counted_in(here, regular, w) + counted_in(there, regular, next)
}

/// Rule 11 of the weeks w and w + 1, if they end by s.
pub fn pair_kept(rests: Rests, counts: &WeekCounts, s: u32, w: u32) -> bool
    requires week { w < 254 }
    requires few { Few compensation_at_most counts.now }
    ensures { result ≡ not (leb (week_start (w + 2)) s) or enough_with (rest_weeks (spans_among rests.entry)) counts.now.weekly counts.now.regular w }
{
    s < recording::WEEK_MINUTES * (w + 2) || enough_in(rests, counts, w)
}
