// The exported operations. None asks anything of its arguments but that the slices are lent as C and Rust lend them.
ghost use Rattle.std.specs.Prelude.{◌≡◌};
ghost use Rattle.fst.specs.Refusal.{number_of, told};
ghost use Rattle.signal.specs.Read.{text_left};
ghost use Rattle.fst.specs.Record.{lent, lent_in, fresh, fresh_real};
ghost use Rattle.offset.specs.Offset.{look_up};
ghost use Rattle.numbers.specs.Number.{unsigned, signed, decimal};
ghost use Rattle.search.specs.Quartering.{search};
ghost use Rattle.yoksimert.specs.Flat.{encoded, told_entry, flat_made, flat_equal, flat_number, flat_signed, flat_offset};
ghost use Rattle.yoksimert.specs.Exports.{flat_read, flat_text, flat_read_number, flat_compare};

use crate::{FlatDescription, FlatEntry, FlatEqual, FlatMade, FlatNumber, FlatOffset, FlatSigned};
use equality::{Lent, compare_records};
use fst::record::{Slices, fresh, fresh_real};
use fst::{Description, Refusal, verdict_number};
use numbers::read::{read_decimal, read_signed, read_unsigned};
use offset::get_offset;
use search::search;
use signal::read::Record;

// Fresh: the empty record of a width; width 0 makes an event.
#[unsafe(no_mangle)]
pub extern "C" fn yoksimert_fresh(width: u32) -> FlatMade
    ensures { result ≡ flat_made (fresh width) }
{
    FlatMade::from(fresh(width))
}

// Fresh: the empty record of reals.
#[unsafe(no_mangle)]
pub extern "C" fn yoksimert_fresh_real() -> FlatDescription
    ensures { result ≡ encoded fresh_real }
{
    FlatDescription::from(fresh_real())
}

#[tactic(auto, unfolding(crate::specs::Exports::flat_read))]
fn read(
    flat: FlatDescription,
    bytes: &[u8],
    byte_start: usize,
    entry: u32,
) -> Result<FlatEntry, Refusal>
    ensures { told_entry result ≡ flat_read flat bytes.now byte_start entry }
{
    let description = Description::try_from(flat)?;
    let size = description.encoding.size();
    let record = Record {
        description,
        bytes,
        byte_start,
    };
    let answer = record.read_entry(entry)?;
    let end = byte_start + (entry as usize * size + size);
    let length = answer.part.len();
    Ok(FlatEntry {
        number: 0,
        kind: answer.kind as u32,
        set: u32::from(answer.states.mark()),
        start: end - length,
        length,
    })
}

// Read an entry.
#[unsafe(no_mangle)]
pub extern "C" fn yoksimert_read(
    description: FlatDescription,
    bytes: &[u8],
    byte_start: usize,
    entry: u32,
) -> FlatEntry
    ensures { result ≡ flat_read description bytes.now byte_start entry }
{
    read(description, bytes, byte_start, entry).unwrap_or_else(FlatEntry::from)
}

#[tactic(auto, unfolding(crate::specs::Exports::flat_text))]
fn text(
    flat: FlatDescription,
    bytes: &[u8],
    byte_start: usize,
    entry: u32,
    out: &mut [u8],
) -> Result<(), Refusal>
    ensures { text_left (number_of result) out.new ≡ flat_text flat bytes.now byte_start entry out.old }
{
    let description = Description::try_from(flat)?;
    let record = Record {
        description,
        bytes,
        byte_start,
    };
    record.read_text(entry, out)
}

// Text of an entry: the answer is the number alone.
#[unsafe(no_mangle)]
pub extern "C" fn yoksimert_text(
    description: FlatDescription,
    bytes: &[u8],
    byte_start: usize,
    entry: u32,
    out: &mut [u8],
) -> u32
    ensures { text_left result out.new ≡ flat_text description bytes.now byte_start entry out.old }
{
    u32::from(verdict_number(text(description, bytes, byte_start, entry, out)))
}

// An entry as an unsigned number.
#[tactic(auto, unfolding(crate::specs::Exports::flat_read_number))]
#[unsafe(no_mangle)]
pub extern "C" fn yoksimert_unsigned(
    description: FlatDescription,
    bytes: &[u8],
    byte_start: usize,
    entry: u32,
) -> FlatNumber
    ensures { result ≡ flat_number (flat_read_number unsigned description bytes.now byte_start entry) }
{
    let number = Description::try_from(description).and_then(|description| {
        let record = Record {
            description,
            bytes,
            byte_start,
        };
        read_unsigned(&record, entry)
    });
    FlatNumber::from(number)
}

// An entry as a two's complement number.
#[tactic(auto, unfolding(crate::specs::Exports::flat_read_number))]
#[unsafe(no_mangle)]
pub extern "C" fn yoksimert_signed(
    description: FlatDescription,
    bytes: &[u8],
    byte_start: usize,
    entry: u32,
) -> FlatSigned
    ensures { result ≡ flat_signed (flat_read_number signed description bytes.now byte_start entry) }
{
    let number = Description::try_from(description).and_then(|description| {
        let record = Record {
            description,
            bytes,
            byte_start,
        };
        read_signed(&record, entry)
    });
    FlatSigned::from(number)
}

// An entry as a packed decimal number.
#[tactic(auto, unfolding(crate::specs::Exports::flat_read_number))]
#[unsafe(no_mangle)]
pub extern "C" fn yoksimert_decimal(
    description: FlatDescription,
    bytes: &[u8],
    byte_start: usize,
    entry: u32,
) -> FlatNumber
    ensures { result ≡ flat_number (flat_read_number decimal description bytes.now byte_start entry) }
{
    let number = Description::try_from(description).and_then(|description| {
        let record = Record {
            description,
            bytes,
            byte_start,
        };
        read_decimal(&record, entry)
    });
    FlatNumber::from(number)
}

#[tactic(auto, unfolding(crate::specs::Exports::flat_compare))]
fn compare(
    a: FlatDescription,
    a_slices: Slices<'_>,
    b: FlatDescription,
    b_slices: Slices<'_>,
) -> Result<bool, Refusal>
    ensures { told result ≡ flat_compare a (lent_in a_slices.entry) b (lent_in b_slices.entry) }
{
    let first = Lent {
        description: Description::try_from(a)?,
        slices: a_slices,
    };
    let second = Lent {
        description: Description::try_from(b)?,
        slices: b_slices,
    };
    compare_records(&first, &second)
}

// Compare.
#[unsafe(no_mangle)]
pub extern "C" fn yoksimert_compare(
    a: FlatDescription,
    a_bytes: &[u8],
    a_byte_start: usize,
    a_indices: &[u32],
    a_index_start: usize,
    b: FlatDescription,
    b_bytes: &[u8],
    b_byte_start: usize,
    b_indices: &[u32],
    b_index_start: usize,
) -> FlatEqual
    ensures { result ≡ flat_equal (flat_compare a (lent a_bytes.now a_byte_start a_indices.now a_index_start) b (lent b_bytes.now b_byte_start b_indices.now b_index_start)) }
{
    let a_slices = Slices {
        bytes: a_bytes,
        byte_start: a_byte_start,
        indices: a_indices,
        index_start: a_index_start,
    };
    let b_slices = Slices {
        bytes: b_bytes,
        byte_start: b_byte_start,
        indices: b_indices,
        index_start: b_index_start,
    };
    FlatEqual::from(compare(a, a_slices, b, b_slices))
}

// Look up.
#[unsafe(no_mangle)]
pub extern "C" fn yoksimert_look_up(indices: &[u32], sought: u32) -> FlatOffset
    ensures { result ≡ flat_offset (look_up indices.now sought) }
{
    FlatOffset::from(get_offset(indices, sought))
}

// Search: Look up in a list that is known not to fall, which is not tried.
#[unsafe(no_mangle)]
pub extern "C" fn yoksimert_search(indices: &[u32], sought: u32) -> FlatOffset
    ensures { result ≡ flat_offset (search indices.now sought) }
{
    FlatOffset::from(search(indices, sought))
}

// The version of this interface, which the name tells too: who links another version finds no such name.
#[unsafe(no_mangle)]
pub extern "C" fn yoksimert_version_1() -> u32
    ensures { result ≡ 1 }
{
    1
}
