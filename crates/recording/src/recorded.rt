ghost use Rattle.std.specs.Prelude.{◌≡◌, ◌∷◌, ◌≤◌, length};
ghost use Rattle.recording.specs.Words.{minutes_of};
ghost use Rattle.recording.specs.Operations.{total_at_most};

/// A recording within the limit: a first word, also one of no minutes, and then words.
#[derive(Clone, Copy)]
pub struct Recording<'a> {
    pub head: u32,
    pub words: &'a [u32],
    ghost within: { length (minutes_of (head ∷ words.now)) ≤ total_at_most },
}

impl<'a> Recording<'a> {
    /// The recording of words alone.
    pub fn new(words: &'a [u32]) -> Recording<'a>
        requires { length (minutes_of words.now) ≤ total_at_most }
        ensures head { result.head ≡ 0 }
        ensures words { result.words.now ≡ words.now }
    {
        Recording { head: 0, words }
    }
}
