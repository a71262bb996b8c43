// What a step of Derive yields: the levels that the pieces pick, and the largest of the sets shown.
ghost use Rattle.std.specs.Prelude.{◌≡◌, map, ◌+◌, ◌≤◌, length};
ghost use Rattle.value.specs.Slice.{part, overlay};
ghost use Rattle.value.specs.Level.{text_of};
ghost use Rattle.runs.specs.All.{All};
ghost use Rattle.signal.specs.Decode.{codes_at};
ghost use Rattle.signal.specs.Parts.{Levels};
ghost use Rattle.derivation.specs.Piece.{extract_of};
ghost use Rattle.steps.specs.Stepping.{levels_now, Showing};
ghost use Rattle.transform.specs.Derive.{picked_of};
ghost use Rattle.transform.specs.Picking.{largest_now, picked_now, Picks, Pickable};

use derivation::Extract;
use signal::packed::Packed;
use steps::step::Cursor;
use value::{States, num_to_bit_char};

// The largest of the sets that the inputs show.
pub fn step_states(cursors: &[Cursor], bytes: &[u8]) -> States
    requires { All (Showing bytes.now) cursors.now }
    ensures { result ≡ largest_now bytes.now cursors.now }
{
    cursors
        .iter()
        .map(|cursor| cursor.states(bytes))
        .fold(States::Two, States::join)
}

// Stores the characters of `count` levels, of which `first` is the number of the first, from a place on.
#[inline(always)]
fn write_levels(levels: &Packed, first: u32, count: u32, text: &mut [u8], at: usize)
    requires { (first + count ≤ levels.now.width) × (at + count ≤ length text.old) }
    ensures { text.new ≡ overlay text.old at (text_of (part first count (codes_at levels.now.width levels.now.states levels.now.bytes.now))) }
{
    for j in 0..count {
        text[at + j as usize] = num_to_bit_char(levels.code_at(first + j));
    }
}

// `write_levels` for each set apart, so that it is compiled for its own number of bits.
fn write_levels_of(levels: &Packed, first: u32, count: u32, text: &mut [u8], at: usize)
    requires { (first + count ≤ levels.now.width) × (at + count ≤ length text.old) }
    ensures { text.new ≡ overlay text.old at (text_of (part first count (codes_at levels.now.width levels.now.states levels.now.bytes.now))) }
{
    let width = levels.width;
    let bytes = levels.bytes;
    match levels.states {
        States::Two => {
            let two = Packed {
                width,
                states: States::Two,
                bytes,
            };
            write_levels(&two, first, count, text, at)
        }
        States::Four => {
            let four = Packed {
                width,
                states: States::Four,
                bytes,
            };
            write_levels(&four, first, count, text, at)
        }
        States::Nine => {
            let nine = Packed {
                width,
                states: States::Nine,
                bytes,
            };
            write_levels(&nine, first, count, text, at)
        }
    }
}

// Stores the characters of one piece from a place on.
fn write_piece(extract: Extract, cursor: &Cursor, bytes: &[u8], text: &mut [u8], at: usize)
    requires { Picks bytes.now cursor.now extract (length text.old) at }
    ensures { text.new ≡ overlay text.old at (text_of (picked_of extract (levels_now bytes.now cursor.now))) }
{
    let levels = cursor.levels(bytes);
    let count = u32::from(extract.width);
    let first = levels.width - (extract.lsb + count);
    write_levels_of(&levels, first, count, text, at);
}

// Stores the characters of all pieces.
#[tactic(auto, using(crate::proofs::Picked::pieces_done))]
pub fn write_pieces(pieces: &[u64], cursors: &[Cursor], bytes: &[u8], text: &mut [u8])
    requires { Pickable cursors.now bytes.now pieces.now (length text.old) }
    ensures { text.new ≡ overlay text.old 0 (text_of (picked_now bytes.now cursors.now (map extract_of pieces.now))) }
{
    let mut at = 0;
    for piece in pieces {
        let extract = Extract::from(*piece);
        write_piece(extract, &cursors[extract.signal as usize], bytes, text, at);
        at += extract.width as usize;
    }
}
