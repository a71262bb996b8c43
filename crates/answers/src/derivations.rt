// The calls of stored answers on derivations: Add a piece and Derive.
use calls::{Room, description, expect_made};
use derivation::{DerivedBitVecSignal, Joined};
use fst::{Description, Encoding, verdict_number};
use lines::{Line, Otherwise, agreed};
use steps::{Input, Inputs, Sources};

fn derivation(line: &mut Line) -> Result<DerivedBitVecSignal, Otherwise> {
    let width = line.number_32();
    let input_count = line.number_32();
    let mut inputs = [0; 8];
    line.list(&mut inputs)?;
    let piece_count = line.number_32();
    let mut bits = [0; 64];
    line.pieces(&mut bits);
    Ok(DerivedBitVecSignal {
        width,
        input_count,
        inputs,
        piece_count,
        bits,
    })
}

fn add_piece<F: FnOnce(DerivedBitVecSignal, u32, u32, u32) -> Joined>(
    line: &mut Line,
    concat: F,
) -> Result<(), Otherwise>
    requires { F.IsAlwaysCallable concat }
{
    let before = derivation(line)?;
    let joined = concat(before, line.number_32(), line.number_32(), line.number_32());
    let number = verdict_number(joined.verdict);
    let DerivedBitVecSignal {
        width,
        input_count,
        inputs,
        piece_count,
        bits,
    } = joined.next;
    line.expect(b"=")?;
    line.expect_numbers(&[u64::from(number), u64::from(width), u64::from(input_count)])?;
    line.expect_list(&inputs)?;
    line.expect_numbers(&[u64::from(piece_count)])?;
    line.expect_list(&bits)
}

pub fn left(line: &mut Line) -> Result<(), Otherwise> {
    add_piece(line, DerivedBitVecSignal::concat_left)
}

pub fn right(line: &mut Line) -> Result<(), Otherwise> {
    add_piece(line, DerivedBitVecSignal::concat_right)
}

fn input(line: &mut Line) -> Input {
    Input {
        description: description(line),
        byte_start: line.place(),
        index_start: line.place(),
    }
}

// What lies in slots past the count is free. A line with more inputs than there are slots counts as one that comes out otherwise.
fn inputs(line: &mut Line) -> Result<Inputs, Otherwise> {
    let count = line.number_32();
    let free = Input {
        description: Description::new(Encoding::Event, 0),
        byte_start: 0,
        index_start: 0,
    };
    let mut slots = [free; 8];
    let (used, _) = slots.split_at_mut_checked(count as usize).ok_or(Otherwise)?;
    for slot in used {
        *slot = input(line);
    }
    Ok(Inputs { count, slots })
}

// What is left behind the inputs is four lists, `=`, five fields and two lists. It is counted first, before room is made for it.
pub fn derive(line: &mut Line) -> Result<(), Otherwise> {
    let known = derivation(line)?;
    let inputs = inputs(line)?;
    agreed(line.has_fields(12))?;
    derive_from(line, &known, &inputs)
}

fn derive_from(
    line: &mut Line,
    known: &DerivedBitVecSignal,
    inputs: &Inputs,
) -> Result<(), Otherwise> {
    let mut lent = Room::new();
    let mut out = Room::new();
    let sources = Sources {
        inputs,
        bytes: line.list(&mut lent.bytes)?,
        indices: line.list(&mut lent.indices)?,
    };
    let out_bytes = line.list(&mut out.bytes)?;
    let out_indices = line.list(&mut out.indices)?;
    let made = transform::derive::derive(known, &sources, out_bytes, out_indices);
    expect_made(line, made)?;
    line.expect_list(out_bytes)?;
    line.expect_list(out_indices)
}
