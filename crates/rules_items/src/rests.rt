ghost use Rattle.std.specs.Prelude.{◌≡◌, ◌≤◌, ◌<◌, ℕ, length, get_or};
ghost use Rattle.recording.specs.Rests.{long_rests_at_most};
ghost use Rattle.recording.specs.Operations.{total_at_most};
ghost use Rattle.rules_nets.specs.Nets.{net_at_most};

/// The long rests of a recording: their starts, their ends and their numbers by rule 9, which are the least net length at which a daily rest is not shortened.
#[derive(Clone, Copy)]
pub struct Rests<'a> {
    pub starts: &'a [u32],
    pub ends: &'a [u32],
    pub nets: &'a [u32],
    ghost few: { length starts.now ≤ long_rests_at_most },
    ghost ends_too: { length ends.now ≡ length starts.now },
    ghost nets_too: { length nets.now ≡ length starts.now },
    ghost ordered: { (i : ℕ) → i < length starts.now → get_or starts.now i 0 ≤ get_or ends.now i 0 },
    ghost limited: { (i : ℕ) → i < length starts.now → get_or ends.now i 0 ≤ total_at_most },
    ghost numbered: { (i : ℕ) → i < length starts.now → get_or nets.now i 0 ≤ net_at_most },
}
