// The long rests of a recording into a lent list of records.
#![tactic(auto)]

ghost use Rattle.std.specs.Prelude.{◌≡◌, ◌++◌, List, length, drop};
ghost use Rattle.std.specs.Iterator.{UpTo, Drains};
ghost use Rattle.recording.specs.Answers.{answer_of, counted, filled};
ghost use Rattle.recording.specs.Operations.{listed};

use recording::{Refusal, Span};
pub use rests::LongRests;

mod rests;

/// Items into a list one by one, from its start; how many they are.
pub fn fill<T: Copy, I: Iterator<Item = T> + Drop>(list: &mut [T], items: I) -> usize
    requires can { I.can_next items }
    requires room { UpTo (I.remaining items) (length list.old) }
    ensures filled { (xs : List T) × Drains I.next_gives items xs × (result ≡ length xs) × (list.new ≡ xs ++ drop (length xs) list.old) }
{
    // Counted by hand: `enumerate` gives pairs, and the contract speaks of the items.
    let mut place = 0;
    for item in items {
        list[place] = item;
        place += 1;
    }
    place
}

/// The long rests into a lent list, one record each: weighing's refusals, or that the list has too few.
pub fn list_long_rests(words: &[u32], list: &mut [Span]) -> Result<u32, Refusal>
    ensures answer { answer_of result ≡ counted (listed words.now (length list.old)) }
    ensures list_after { list.new ≡ filled (listed words.now (length list.old)) list.old }
{
    let weighing = recording::weigh(words);
    let Ok(measure) = weighing else {
        return Err(weighing.unwrap_err());
    };
    if list.len() < measure.count as usize {
        return Err(Refusal::ShortList);
    }
    let count = fill(list, LongRests::new(words));
    Ok(count as u32)
}
