// The entry of a reading: the four bytes of a long rest, in the caller's own slice.
#![tactic(auto)]

ghost use Rattle.std.specs.Prelude.{◌≡◌, ◌+◌, ◌*◌, ◌<◌, length};
ghost use Rattle.rules.specs.Operations.{entry_at, EntryInReading, entry_part, entry_refusal};
ghost use Rattle.rules.specs.Order.{carrier_values};
ghost use Rattle.rules.specs.Reading.{carrier_of, entry_bytes};
ghost use Rattle.rules_entries.specs.Entries.{with_entry};
ghost use Rattle.rules_entries.specs.Refusals.{refusal_or_none};

use recording::Refusal;

/// An entry has a byte for the kind, one for the week and two for the carrier, the low one first.
pub const ENTRY_BYTES: usize = 4;

/// The values of a byte.
pub const BYTE_VALUES: u32 = 256;

/// The number of the carrier that an entry's last two bytes say.
pub fn carrier_of(low: u8, high: u8) -> u32
    ensures { result ≡ carrier_of low high }
{
    u32::from(low) + BYTE_VALUES * u32::from(high)
}

/// The entry of an index, as its four bytes.
pub fn put_entry(reading: &mut [u8], index: usize, kind: u8, week: u8, carrier: u32)
    requires { (index < 1000) × (entry_bytes * index + 3 < length reading.old) × (carrier < carrier_values) }
    ensures { reading.new ≡ with_entry reading.old index kind week carrier }
{
    let low = (carrier % BYTE_VALUES) as u8;
    let high = (carrier / BYTE_VALUES) as u8;
    let at = ENTRY_BYTES * index;
    reading[at..at + ENTRY_BYTES].copy_from_slice(&[kind, week, low, high]);
}

/// The four bytes of the entry of a number, in the caller's reading; empty on a refusal.
pub fn entry(reading: &[u8], number: usize) -> &[u8]
    ensures entry_in_reading { EntryInReading (entry_at reading.now number) number reading.entry.ref_ptr result.ref_ptr }
    ensures answer { result.now ≡ entry_part (entry_at reading.now number) }
{
    if entry_refusal(reading, number).is_some() {
        return &reading[..0];
    }
    let at = ENTRY_BYTES * (number - 1);
    let end = at + ENTRY_BYTES;
    &reading[at..end]
}

/// Why there is no such entry: the byte count is no multiple of four, or else the number is 0 or over a fourth of it.
pub fn entry_refusal(reading: &[u8], number: usize) -> Option<Refusal>
    ensures { refusal_or_none result ≡ entry_refusal (entry_at reading.now number) }
{
    if reading.len() % ENTRY_BYTES != 0 {
        return Some(Refusal::WrongByteCount);
    }
    if number == 0 || reading.len() / ENTRY_BYTES < number {
        return Some(Refusal::NoSuchEntry);
    }
    None
}
