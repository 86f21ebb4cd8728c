// The long rests of a recording, and what stays the same while a reading of them is searched for.
#![tactic(auto)]

ghost use Rattle.std.specs.Prelude.{◌≡◌, ℕ, ◌≤◌, ◌<◌, length};
ghost use Rattle.recording.specs.Operations.{total_at_most};
ghost use Rattle.recording.specs.Rests.{long_rests_at_most};
ghost use Rattle.verdict_completion.specs.Completable.{at, rests_only, Lies};

// Where each long rest starts and ends, the least net length at which it is no shortened daily rest, and the judged end. The rests lie in order within the limits.
#[derive(Clone, Copy)]
pub struct LongRests<'a> {
    pub starts: &'a [u32],
    pub ends: &'a [u32],
    pub nets: &'a [u32],
    pub judged: u32,
    pub ghost lies: { Lies (rests_only starts.now ends.now nets.now judged) },
    pub ghost few: { length starts.now ≤ long_rests_at_most },
    pub ghost low: { judged ≤ total_at_most },
}

// The long rests with the compensation of each.
#[derive(Clone, Copy)]
pub struct Course<'a> {
    pub rests: LongRests<'a>,
    pub compensations: &'a [u32],
    pub ghost one_each: { length compensations.now ≡ length rests.starts.now },
    pub ghost compensations_low: { (i : ℕ) → at compensations.now i ≤ total_at_most },
}
