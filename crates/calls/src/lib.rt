// The calls of stored answers on records: each function reads what goes in from a line, makes the call, and compares what comes out with the
// rest of the line.
#![tactic(auto)]

use equality::Lent;
use fst::record::Slices;
use fst::{Description, Encoding, Refusal, verdict_number};
use lines::{Line, Otherwise, agreed};
use offset::DataOffset;
use signal::read::Record;
use signal::{Entry, Kind};
use value::States;

// More than the lists of a line that is replayed have.
const BYTES: usize = 65536;

const INDICES: usize = 4096;

// Room for the lists of a record.
#[derive(Drop)]
pub struct Room {
    pub bytes: [u8; BYTES],
    pub indices: [u32; INDICES],
}

impl Room {
    pub fn new() -> Room {
        Room {
            bytes: [0; BYTES],
            indices: [0; INDICES],
        }
    }
}

// ---- descriptions

pub fn description(line: &mut Line) -> Description {
    let kind = line.field();
    let width = line.number_32();
    let max_states = match line.number() {
        0 => States::Two,
        1 => States::Four,
        _ => States::Nine,
    };
    let count = line.number_32();
    let encoding = match kind {
        [b'e'] => Encoding::Event,
        [b'r'] => Encoding::Real,
        _ => Encoding::BitVector { width, max_states },
    };
    Description::new(encoding, count)
}

fn letter_of(kind: Kind) -> u8 {
    match kind {
        Kind::Event => b'e',
        Kind::Real => b'r',
        Kind::BitVector => b'b',
    }
}

fn expect_outcome(line: &mut Line, number: u8, description: Description) -> Result<(), Otherwise> {
    let encoding = description.encoding;
    let set = encoding.largest().mark();
    line.expect(b"=")?;
    line.expect_numbers(&[u64::from(number)])?;
    line.expect(&[letter_of(Kind::from(encoding))])?;
    line.expect_numbers(&[
        u64::from(encoding.width()),
        u64::from(set),
        u64::from(description.count),
    ])
}

// After a refusal the description is that of an empty event.
pub fn expect_made(line: &mut Line, made: Result<Description, Refusal>) -> Result<(), Otherwise> {
    match made {
        Ok(description) => expect_outcome(line, 0, description),
        Err(refusal) => {
            let nothing = Description::new(Encoding::Event, 0);
            expect_outcome(line, refusal.number(), nothing)
        }
    }
}

// ---- operations on a record

pub fn fresh(line: &mut Line) -> Result<(), Otherwise> {
    let made = fst::record::fresh(line.number_32());
    expect_made(line, made)
}

pub fn add(line: &mut Line) -> Result<(), Otherwise> {
    let mut room = Room::new();
    let mut value = [0; BYTES];
    let record = description(line);
    let bytes = line.list(&mut room.bytes)?;
    let byte_start = line.place();
    let indices = line.list(&mut room.indices)?;
    let index_start = line.place();
    let index = line.number_32();
    let added = match line.field() {
        [b'r'] => {
            let bits = line.number();
            record.add_real(bytes, byte_start, indices, index_start, index, bits)
        }
        _ => {
            let value = line.list(&mut value)?;
            record.add_change(bytes, byte_start, indices, index_start, index, value)
        }
    };
    expect_outcome(line, verdict_number(added.verdict), added.next)?;
    line.expect_list(bytes)?;
    line.expect_list(indices)
}

// ---- operations on an entry

fn record<'a>(line: &mut Line, bytes: &'a mut [u8]) -> Result<Record<'a>, Otherwise> {
    Ok(Record {
        description: description(line),
        bytes: line.list(bytes)?,
        byte_start: line.place(),
    })
}

pub fn read(line: &mut Line) -> Result<(), Otherwise> {
    let mut bytes = [0; BYTES];
    let record = record(line, &mut bytes)?;
    let entry = line.number_32();
    let (number, kind, states) = match record.read_entry(entry) {
        Ok(Entry { kind, states, .. }) => (0, kind, states),
        Err(refusal) => (refusal.number(), Kind::Event, States::Two),
    };
    line.expect(b"=")?;
    line.expect_numbers(&[u64::from(number)])?;
    line.expect(&[letter_of(kind)])?;
    line.expect_numbers(&[u64::from(states.mark())])?;
    line.expect_list(record.entry_part(entry))
}

pub fn text(line: &mut Line) -> Result<(), Otherwise> {
    let mut bytes = [0; BYTES];
    let mut out = [0; BYTES];
    let record = record(line, &mut bytes)?;
    let entry = line.number_32();
    let out = line.list(&mut out)?;
    let number = verdict_number(record.read_text(entry, out));
    line.expect(b"=")?;
    line.expect_numbers(&[u64::from(number)])?;
    line.expect_list(out)
}

// A call that reads an entry as a number without a sign.
fn number<F: Fn(&Record, u32) -> Result<u64, Refusal>>(
    line: &mut Line,
    read: F,
) -> Result<(), Otherwise>
    requires { F.IsAlwaysCallable read }
{
    let mut bytes = [0; BYTES];
    let record = record(line, &mut bytes)?;
    let (number, value) = match read(&record, line.number_32()) {
        Ok(value) => (0, value),
        Err(refusal) => (refusal.number(), 0),
    };
    line.expect(b"=")?;
    line.expect_numbers(&[u64::from(number), value])
}

pub fn unsigned(line: &mut Line) -> Result<(), Otherwise> {
    number(line, numbers::read::read_unsigned)
}

pub fn decimal(line: &mut Line) -> Result<(), Otherwise> {
    number(line, numbers::read::read_decimal)
}

// The sign is 1 below zero. How far from zero is the number in front of its field.
pub fn signed(line: &mut Line) -> Result<(), Otherwise> {
    let mut bytes = [0; BYTES];
    let record = record(line, &mut bytes)?;
    let (number, value) = match numbers::read::read_signed(&record, line.number_32()) {
        Ok(value) => (0, value),
        Err(refusal) => (refusal.number(), 0),
    };
    line.expect(b"=")?;
    line.expect_numbers(&[u64::from(number), u64::from(value < 0)])?;
    agreed(line.number() == value.unsigned_abs())
}

// ---- two records

fn lent<'a>(line: &mut Line, room: &'a mut Room) -> Result<Lent<'a>, Otherwise> {
    let Room { bytes, indices } = room;
    Ok(Lent {
        description: description(line),
        slices: Slices {
            bytes: line.list(bytes)?,
            byte_start: line.place(),
            indices: line.list(indices)?,
            index_start: line.place(),
        },
    })
}

pub fn compare(line: &mut Line) -> Result<(), Otherwise> {
    let mut a_room = Room::new();
    let mut b_room = Room::new();
    let a = lent(line, &mut a_room)?;
    let b = lent(line, &mut b_room)?;
    let (number, equal) = match equality::compare_records(&a, &b) {
        Ok(equal) => (0, equal),
        Err(refusal) => (refusal.number(), false),
    };
    line.expect(b"=")?;
    line.expect_numbers(&[u64::from(number), u64::from(equal)])
}

// ---- look-ups

fn expect_offset(line: &mut Line, offset: DataOffset) -> Result<(), Otherwise> {
    line.expect_numbers(&[
        0,
        1,
        offset.start as u64,
        u64::from(offset.elements),
        u64::from(offset.time_match),
        u64::from(offset.next_index.is_some()),
        u64::from(offset.next_index.unwrap_or(0)),
    ])
}

fn placed<F: Fn(&[u32], u32) -> Result<Option<DataOffset>, Refusal>>(
    line: &mut Line,
    find: F,
) -> Result<(), Otherwise>
    requires { F.IsAlwaysCallable find }
{
    let mut indices = [0; INDICES];
    let indices = line.list(&mut indices)?;
    let answer = find(indices, line.number_32());
    line.expect(b"=")?;
    match answer {
        Ok(Some(offset)) => expect_offset(line, offset),
        Ok(None) => line.expect_numbers(&[0; 7]),
        Err(refusal) => line.expect_numbers(&[u64::from(refusal.number()), 0, 0, 0, 0, 0, 0]),
    }
}

pub fn look_up(line: &mut Line) -> Result<(), Otherwise> {
    placed(line, offset::get_offset)
}

pub fn search(line: &mut Line) -> Result<(), Otherwise> {
    placed(line, search::search)
}
