// The twelve rows of document 01 and the documents' edges, run on the code. Each change writes a line: the number, the count, the mark of the
// largest set, the bytes and the indices, whole. Two bytes aa and three indices 46 stand before the record, and what is behind the used
// part is aa and 46 too. A look-up writes its number, start, entries, whether equal, and the next index or `-`; one among entries of one
// index, an edge of document 02, writes their number alone. Last come the codes that the match over the byte gives.
#![tactic(auto)]

use derivation::DerivedBitVecSignal;
use fst::{Added, Description, Encoding, Refusal, verdict_number};
use offset::DataOffset;
use std::alloc::Global;
use std::io;
use std::io::{BufWriter, Write};
use steps::{Input, Inputs, Sources};
use value::States;

// Each number by two digits, since none that is written here needs more.
fn write_numbers<N: Copy + Into<u32>>(out: &mut impl Write, numbers: &[N]) -> io::Result<()> {
    for number in numbers {
        let number: u32 = (*number).into();
        write!(out, " {number:02x}")?;
    }
    Ok(())
}

fn write_slices(out: &mut impl Write, bytes: &[u8], indices: &[u32]) -> io::Result<()> {
    write_numbers(out, bytes)?;
    write!(out, " |")?;
    write_numbers(out, indices)?;
    writeln!(out)
}

// ---- changes

// A record that is written to. It starts at 2 and 3.
#[derive(Clone, Copy)]
struct Record<const BYTES: usize, const INDICES: usize> {
    description: Description,
    bytes: [u8; BYTES],
    indices: [u32; INDICES],
}

impl<const BYTES: usize, const INDICES: usize> Record<BYTES, INDICES> {
    fn new(description: Description) -> Self {
        Record {
            description,
            bytes: [0xaa; BYTES],
            indices: [0x46; INDICES],
        }
    }

    fn take(&mut self, out: &mut impl Write, added: Added) -> io::Result<()> {
        self.description = added.next;
        let number = verdict_number(added.verdict);
        let count = added.next.count;
        let set = added.next.encoding.largest().mark();
        write!(out, " {number:02x} {count:02x} {set:02x} |")?;
        write_slices(out, &self.bytes, &self.indices)
    }

    fn string(&mut self, out: &mut impl Write, index: u32, value: &str) -> io::Result<()> {
        let Record {
            description,
            bytes,
            indices,
        } = self;
        let added = description.add_change(bytes, 2, indices, 3, index, value.as_bytes());
        self.take(out, added)
    }

    fn real(&mut self, out: &mut impl Write, index: u32, bits: u64) -> io::Result<()> {
        let Record {
            description,
            bytes,
            indices,
        } = self;
        let added = description.add_real(bytes, 2, indices, 3, index, bits);
        self.take(out, added)
    }

    fn strings(&mut self, out: &mut impl Write, changes: &[(u32, &str)]) -> io::Result<()> {
        for (index, value) in changes {
            self.string(out, *index, value)?;
        }
        Ok(())
    }
}

// A description of a width that stands. Of any other it is that of an event.
fn fresh(width: u32) -> Description {
    fst::record::fresh(width).unwrap_or(Description::new(Encoding::Event, 0))
}

fn rows_1_to_7(out: &mut impl Write) -> io::Result<()> {
    writeln!(out, "row 1")?;
    Record::<8, 6>::new(fresh(1)).strings(out, &[(0, "1")])?;
    writeln!(out, "row 2")?;
    Record::<8, 6>::new(fresh(1)).strings(out, &[(0, "x"), (1, "X")])?;
    writeln!(out, "rows 3 and 4")?;
    Record::<8, 6>::new(fresh(3)).strings(out, &[(0, "x01"), (0, "hz1")])?;
    writeln!(out, "row 5")?;
    Record::<8, 6>::new(fresh(4)).strings(out, &[(0, "1010"), (2, "10xz")])?;
    writeln!(out, "row 6")?;
    Record::<8, 6>::new(fresh(5)).strings(out, &[(0, "0000x")])?;
    writeln!(out, "row 7")?;
    Record::<8, 6>::new(fresh(2)).strings(out, &[(0, "u-")])
}

fn row_8(out: &mut impl Write) -> io::Result<()> {
    writeln!(out, "row 8")?;
    let changes = [(5, "0"), (10, "0"), (7, "1"), (6, "0")];
    Record::<6, 7>::new(fresh(1)).strings(out, &changes)
}

// ---- look-ups

fn write_offset(out: &mut impl Write, offset: DataOffset) -> io::Result<()> {
    let start = offset.start;
    let elements = offset.elements;
    let time_match = if offset.time_match {
        "equal"
    } else {
        "unequal"
    };
    write!(out, " 00 {start:02x} {elements:02x} {time_match}")?;
    match offset.next_index {
        Some(index) => writeln!(out, " {index:02x}"),
        None => writeln!(out, " -"),
    }
}

fn look_up(out: &mut impl Write, indices: &[u32], sought: u32) -> io::Result<()> {
    match offset::get_offset(indices, sought) {
        Ok(Some(offset)) => write_offset(out, offset),
        Ok(None) => writeln!(out, " none"),
        Err(refusal) => write_refusal(out, refusal),
    }
}

fn write_refusal(out: &mut impl Write, refusal: Refusal) -> io::Result<()> {
    let number = refusal.number();
    writeln!(out, " {number:02x}")
}

fn rows_9_to_11(out: &mut impl Write) -> io::Result<()> {
    writeln!(out, "rows 9 to 11")?;
    look_up(out, &[0, 5, 5, 9], 6)?;
    look_up(out, &[0, 5, 5, 9], 9)?;
    look_up(out, &[3], 2)
}

// ---- a derivation

// The mark of the largest set, or the number of the refusal.
fn write_made(out: &mut impl Write, made: Result<Description, Refusal>) -> io::Result<()> {
    match made {
        Ok(description) => {
            let set = description.encoding.largest().mark();
            writeln!(out, " {set:02x}")
        }
        Err(refusal) => write_refusal(out, refusal),
    }
}

// A slice of bit 0 of a record, into five bytes bb and five indices 50.
fn slice_of_bit_0(out: &mut impl Write, record: &Record<6, 7>) -> io::Result<()> {
    let mut bytes = [0xbb; 5];
    let mut indices = [0x50; 5];
    let input = Input {
        description: record.description,
        byte_start: 2,
        index_start: 3,
    };
    let inputs = Inputs {
        count: 1,
        slots: [input; 8],
    };
    let sources = Sources {
        inputs: &inputs,
        bytes: &record.bytes,
        indices: &record.indices,
    };
    let slice = DerivedBitVecSignal::new_slice(7, 0, 0).next;
    let made = transform::derive::derive(&slice, &sources, &mut bytes, &mut indices);
    write_made(out, made)?;
    write_slices(out, &bytes, &indices)
}

fn row_12(out: &mut impl Write) -> io::Result<()> {
    writeln!(out, "row 12")?;
    let mut record = Record::<6, 7>::new(fresh(2));
    record.strings(out, &[(0, "x1"), (4, "01")])?;
    slice_of_bit_0(out, &record)
}

// ---- edges

// Row 5 in 4 bytes, and then in 3 with the indices that it left.
fn edge_room(out: &mut impl Write) -> io::Result<()> {
    let changes = [(0, "1010"), (2, "10xz")];
    writeln!(out, "row 5 in 4 bytes")?;
    let mut four = Record::<6, 5>::new(fresh(4));
    four.strings(out, &changes)?;
    writeln!(out, "row 5 in 3 bytes")?;
    let mut three = Record::<5, 5>::new(fresh(4));
    three.indices = four.indices;
    three.strings(out, &changes)
}

// Two entries that overlap their new places, in full slices.
fn edge_widened(out: &mut impl Write) -> io::Result<()> {
    writeln!(out, "two entries widened")?;
    let changes = [(0, "1010"), (1, "0101"), (2, "10xz")];
    Record::<8, 6>::new(fresh(4)).strings(out, &changes)
}

fn edge_real(out: &mut impl Write) -> io::Result<()> {
    writeln!(out, "0.0, 0.0 again, -0.0, a string")?;
    let mut record = Record::<20, 6>::new(fst::record::fresh_real());
    record.real(out, 1, 0)?;
    record.real(out, 2, 0)?;
    record.real(out, 2, 0x8000000000000000)?;
    record.string(out, 3, "1")
}

fn edge_event(out: &mut impl Write) -> io::Result<()> {
    writeln!(out, "an event, a real, two bytes, no room")?;
    let mut record = Record::<3, 5>::new(fresh(0));
    record.string(out, 4, "?")?;
    record.real(out, 4, 0)?;
    record.strings(out, &[(4, "11"), (4, ""), (4, "")])
}

// A repeat that raises the set, on a byte that no writer made; a foreign character; another length.
fn edge_byte(out: &mut impl Write) -> io::Result<()> {
    writeln!(out, "42 then x, y, xx")?;
    let wire = Encoding::BitVector {
        width: 1,
        max_states: States::Two,
    };
    let mut record = Record::<3, 4>::new(Description::new(wire, 1));
    record.bytes[2] = 0x42;
    record.strings(out, &[(0x50, "x"), (0x50, "y"), (0x50, "xx")])
}

fn edge_width(out: &mut impl Write) -> io::Result<()> {
    writeln!(out, "widths 4096 and 4097")?;
    write_made(out, fst::record::fresh(4096))?;
    write_made(out, fst::record::fresh(4097))
}

// How many entries carry index 5, by four bytes, the highest first.
fn edge_equal_indices(alloc: Global, out: &mut impl Write) -> io::Result<()> {
    let indices = vec![in alloc; 5u32; 1048576]?;
    writeln!(
        out,
        "65535, 65536, 70000, 131072 and 1048576 entries on one index"
    )?;
    for count in [65535, 65536, 70000, 131072, 1048576] {
        let first = indices.get(..count).unwrap_or(&[]);
        if let Ok(Some(offset)) = offset::get_offset(first, 5) {
            write_numbers(out, &offset.elements.to_be_bytes())?;
            writeln!(out)?;
        }
    }
    Ok(())
}

fn edge_letters(out: &mut impl Write) -> io::Result<()> {
    writeln!(out, "each byte that is not foreign, and its code")?;
    for value in 0..=255 {
        if let Some(code) = value::bit_char_to_num(value) {
            writeln!(out, " {value:02x} {code:02x}")?;
        }
    }
    Ok(())
}

fn main(rt: HostRuntime) -> io::Result<()> {
    let mut out = BufWriter::new(rt.alloc(), io::writer(&rt))?;
    rows_1_to_7(&mut out)?;
    row_8(&mut out)?;
    rows_9_to_11(&mut out)?;
    row_12(&mut out)?;
    edge_room(&mut out)?;
    edge_widened(&mut out)?;
    edge_real(&mut out)?;
    edge_event(&mut out)?;
    edge_byte(&mut out)?;
    edge_width(&mut out)?;
    edge_equal_indices(rt.alloc(), &mut out)?;
    edge_letters(&mut out)?;
    out.flush()
}
