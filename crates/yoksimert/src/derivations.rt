// Add a piece and Derive. A derivation crosses as three numbers beside its names and its pieces, lent as arrays.
ghost use Rattle.std.specs.Prelude.{◌≡◌};
ghost use Rattle.derivation.specs.declared.Side.TheVariants.{Left, Right};
ghost use Rattle.derivation.specs.Piece.{joined_of, add_piece, add_full};
ghost use Rattle.yoksimert.specs.Derivations.{derivation_of, left_by_joined, input_of, inputs_by, made_by, flat_derive};

use crate::{FlatDerivation, FlatInput, FlatInputs, FlatJoined, FlatMade};
use derivation::{DerivedBitVecSignal, Joined};
use fst::{Description, Encoding, verdict_number};
use steps::{Input, Inputs, Sources};
use transform::derive::derive;
use value::States;

// ---- Add a piece

fn derivation_of(flat: FlatDerivation, names: &[u32; 8], pieces: &[u64; 64]) -> DerivedBitVecSignal
    ensures { result ≡ derivation_of flat names.now pieces.now }
{
    DerivedBitVecSignal {
        width: flat.width,
        input_count: flat.input_count,
        inputs: *names,
        piece_count: flat.piece_count,
        bits: *pieces,
    }
}

// Stores the names and the pieces of an answer, and gives its numbers.
fn store_joined(joined: Joined, names: &mut [u32; 8], pieces: &mut [u64; 64]) -> FlatJoined
    ensures { left_by_joined result names.new pieces.new ≡ joined_of joined }
{
    let Joined { verdict, next } = joined;
    let inputs = next.inputs;
    let bits = next.bits;
    *names = inputs;
    *pieces = bits;
    FlatJoined {
        number: u32::from(verdict_number(verdict)),
        next: FlatDerivation {
            width: next.width,
            input_count: next.input_count,
            piece_count: next.piece_count,
        },
    }
}

// Add a piece on the left, the most significant side: bits msb to lsb of an input.
#[unsafe(no_mangle)]
pub extern "C" fn yoksimert_concat_left(
    derivation: FlatDerivation,
    names: &mut [u32; 8],
    pieces: &mut [u64; 64],
    signal: u32,
    msb: u32,
    lsb: u32,
) -> FlatJoined
    ensures { left_by_joined result names.new pieces.new ≡ add_piece (derivation_of derivation names.old pieces.old) Left signal msb lsb }
{
    let known = derivation_of(derivation, names, pieces);
    store_joined(known.concat_left(signal, msb, lsb), names, pieces)
}

// Add a piece on the right, the least significant side.
#[unsafe(no_mangle)]
pub extern "C" fn yoksimert_concat_right(
    derivation: FlatDerivation,
    names: &mut [u32; 8],
    pieces: &mut [u64; 64],
    signal: u32,
    msb: u32,
    lsb: u32,
) -> FlatJoined
    ensures { left_by_joined result names.new pieces.new ≡ add_piece (derivation_of derivation names.old pieces.old) Right signal msb lsb }
{
    let known = derivation_of(derivation, names, pieces);
    store_joined(known.concat_right(signal, msb, lsb), names, pieces)
}

// Add a piece of all wires of an input on the left.
#[unsafe(no_mangle)]
pub extern "C" fn yoksimert_concat_left_full(
    derivation: FlatDerivation,
    names: &mut [u32; 8],
    pieces: &mut [u64; 64],
    signal: u32,
    width: u32,
) -> FlatJoined
    ensures { left_by_joined result names.new pieces.new ≡ add_full (derivation_of derivation names.old pieces.old) Left signal width }
{
    let known = derivation_of(derivation, names, pieces);
    store_joined(known.concat_left_full(signal, width), names, pieces)
}

// Add a piece of all wires of an input on the right.
#[unsafe(no_mangle)]
pub extern "C" fn yoksimert_concat_right_full(
    derivation: FlatDerivation,
    names: &mut [u32; 8],
    pieces: &mut [u64; 64],
    signal: u32,
    width: u32,
) -> FlatJoined
    ensures { left_by_joined result names.new pieces.new ≡ add_full (derivation_of derivation names.old pieces.old) Right signal width }
{
    let known = derivation_of(derivation, names, pieces);
    store_joined(known.concat_right_full(signal, width), names, pieces)
}

// ---- Derive

// Numbers that are no description are taken for a record that is refused with 2.
impl From<FlatInput> for Input {
    ghost from_gives = { λ flat i. i ≡ input_of flat };

    fn from(flat: FlatInput) -> Input {
        let no_width = Encoding::BitVector {
            width: 0,
            max_states: States::Two,
        };
        let description = Description::try_from(flat.description);
        Input {
            description: description.unwrap_or(Description::new(no_width, 0)),
            byte_start: flat.byte_start,
            index_start: flat.index_start,
        }
    }
}

fn inputs_of(flat: FlatInputs) -> Inputs
    ensures { result ≡ inputs_by flat }
{
    Inputs {
        count: flat.count,
        slots: flat.inputs.map(
            |input: FlatInput| -> Input
                ensures { result ≡ input_of input }
            { Input::from(input) },
        ),
    }
}

// Derive, into the front of the output slices.
#[unsafe(no_mangle)]
pub extern "C" fn yoksimert_derive(
    derivation: FlatDerivation,
    names: &[u32; 8],
    pieces: &[u64; 64],
    inputs: FlatInputs,
    bytes: &[u8],
    indices: &[u32],
    out_bytes: &mut [u8],
    out_indices: &mut [u32],
) -> FlatMade
    ensures { made_by result out_bytes.new out_indices.new ≡ flat_derive derivation names.now pieces.now inputs bytes.now indices.now out_bytes.old out_indices.old }
{
    let known = derivation_of(derivation, names, pieces);
    let sources = Sources {
        inputs: &inputs_of(inputs),
        bytes,
        indices,
    };
    FlatMade::from(derive(&known, &sources, out_bytes, out_indices))
}
