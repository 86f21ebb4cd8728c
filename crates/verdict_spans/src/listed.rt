ghost use Rattle.std.specs.Prelude.{◌≡◌, ◌≤◌, length, drop};

use rules::Weeks;

/// The spans of a recording, in order, in an array that holds them from a place on.
#[derive(Clone, Copy)]
pub struct Spans {
    pub weeks: [Weeks; crate::WEEKS],
    pub place: usize,
    ghost within: { place ≤ length weeks },
}

impl Spans {
    /// The spans alone.
    pub fn list(&self) -> &[Weeks]
        ensures { result.now ≡ drop self.now.place self.now.weeks }
    {
        &self.weeks[self.place..]
    }
}
