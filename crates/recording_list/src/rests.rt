ghost use Rattle.std.specs.Prelude.{◌≡◌, ◌+◌, ◌≤◌, length};
ghost use Rattle.recording.specs.Words.{minutes_of};
ghost use Rattle.recording.specs.Operations.{total_at_most};
ghost use Rattle.recording.specs.Rests.{long_rests};

use recording::{Place, Run, Span};

/// The long rests of a recording, each as it ends: the words that are left, and the place before them.
#[derive(Clone, Copy)]
pub struct LongRests<'a> {
    words: &'a [u32],
    place: Place,
    ghost from: { place.from ≤ place.now },
    ghost count: { place.count ≤ place.now },
    ghost room: { place.now + length (minutes_of words.now) ≤ total_at_most },
}

impl<'a> LongRests<'a> {
    ghost use Rattle.recording_list.specs.Records.{rests_left};

    /// Those of all words.
    pub fn new(words: &'a [u32]) -> LongRests<'a>
        requires { length (minutes_of words.now) ≤ total_at_most }
        ensures { rests_left result ≡ long_rests (minutes_of words.now) }
    {
        LongRests {
            words,
            place: Place::origin(),
        }
    }
}

impl<'a> Iterator for LongRests<'a> {
    type Item = Span;

    ghost use Rattle.std.specs.Iterator.{YieldsFirst, item_count};
    ghost use Rattle.recording_list.specs.Records.{rests_left};

    ghost next_gives = { YieldsFirst rests_left };

    ghost remaining = { item_count rests_left };

    fn next(&mut self) -> Option<Span> {
        let mut place = self.place;
        let mut words = self.words;
        while let Some((&word, others)) = words.split_first() {
            let run = Run::from(word);
            let rest = Span {
                start: place.from,
                end: place.now,
            };
            let ended = place.ends_rest(run);
            let next = place.after(run);
            if ended {
                *self = LongRests {
                    words: others,
                    place: next,
                };
                return Some(rest);
            }
            words = others;
            place = next;
        }
        *self = LongRests { words, place };
        None
    }
}
