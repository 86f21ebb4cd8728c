// Stored readings of three bytes an entry, carried over to the form of four bytes and back. What is said of it stands in specs/.
#![tactic(auto)]

ghost use Rattle.std.specs.Prelude.{◌≡◌, ◌<◌, ltb, length};
ghost use Rattle.recording.specs.Tests.{◌or◌};
ghost use Rattle.recording.specs.Answers.{answer_of, counted, filled};
ghost use Rattle.rules.specs.Reading.{carrier_of, fields_in};
ghost use Rattle.rules_moves.specs.Passes.{entries_counted};
ghost use Rattle.rules_moves.specs.Moves.{stored_week_at_most, stored_carrier_at_most, too_large, reading_widened, reading_narrowed};

use recording::Refusal;
use rules_entries::ENTRY_BYTES;

/// An entry of a stored reading: kind, week and carrier, a byte each.
pub const STORED_BYTES: usize = 3;

// The most that the fields of a stored reading of twelve weeks come to.
const STORED_WEEK: u8 = 11;

const STORED_CARRIER: u32 = 255;

// How many entries of this size so many bytes are, where the target has room for them; else the refusal of a count that does not divide into entries,
// or of a short target.
fn entries_in(bytes: usize, size: usize, room: usize) -> Result<usize, Refusal>
    requires { 0 < size }
    ensures { answer_of result ≡ entries_counted bytes size room }
{
    if bytes % size != 0 {
        return Err(Refusal::WrongByteCount);
    }
    if room < bytes / size {
        return Err(Refusal::ShortReading);
    }
    Ok(bytes / size)
}

/// A stored reading in the form of four bytes an entry, kind, week and carrier as they are: the count of the bytes written.
pub fn widen_reading(old: &[u8], wide: &mut [u8]) -> Result<usize, Refusal>
    ensures answer { answer_of result ≡ counted (reading_widened old.now (length wide.old)) }
    ensures wide_after { wide.new ≡ filled (reading_widened old.now (length wide.old)) wide.old }
{
    let count = entries_in(old.len(), STORED_BYTES, wide.len() / ENTRY_BYTES)?;
    // The bytes read and those written are of two sizes, so the place to write at is counted.
    let mut to = 0;
    for stored in old.chunks_exact(STORED_BYTES) {
        wide[to..to + ENTRY_BYTES].copy_from_slice(&[stored[0], stored[1], stored[2], 0]);
        to += ENTRY_BYTES;
    }
    Ok(ENTRY_BYTES * count)
}

// Whether no stored reading has an entry of this week and this carrier.
fn is_large(week: u8, low: u8, high: u8) -> bool
    ensures { result ≡ ltb stored_week_at_most week or ltb stored_carrier_at_most (carrier_of low high) }
{
    STORED_WEEK < week || STORED_CARRIER < rules_entries::carrier_of(low, high)
}

// Whether a reading has such an entry.
fn has_large(wide: &[u8]) -> bool
    ensures { result ≡ too_large (fields_in wide.now) }
{
    for bytes in wide.chunks_exact(ENTRY_BYTES) {
        if is_large(bytes[1], bytes[2], bytes[3]) {
            return true;
        }
    }
    false
}

/// The move back: also refused where a week is over 11 or a carrier over 255.
pub fn narrow_reading(wide: &[u8], old: &mut [u8]) -> Result<usize, Refusal>
    ensures answer { answer_of result ≡ counted (reading_narrowed wide.now (length old.old)) }
    ensures old_after { old.new ≡ filled (reading_narrowed wide.now (length old.old)) old.old }
{
    let count = entries_in(wide.len(), ENTRY_BYTES, old.len() / STORED_BYTES)?;
    if has_large(wide) {
        return Err(Refusal::FieldTooLarge);
    }
    // As in the move over: the place to write at is counted.
    let mut to = 0;
    for entry in wide.chunks_exact(ENTRY_BYTES) {
        old[to..to + STORED_BYTES].copy_from_slice(&entry[..STORED_BYTES]);
        to += STORED_BYTES;
    }
    Ok(STORED_BYTES * count)
}
