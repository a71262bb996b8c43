// A derivation, and Add a piece.
ghost use Rattle.std.specs.Prelude.{◌∷◌, ◌≡◌, ◌==◌, ◌≤◌, ◌<◌, true, false, length, map, min, take, position, sum_by};
ghost use Rattle.std.specs.List.{list_any};
ghost use Rattle.value.specs.Slice.{overlay};
ghost use Rattle.fst.specs.Refusal.{outcome};
ghost use Rattle.derivation.specs.Answer.{added_of, merges, has_no_room, Joining, Named, with_pieces, with_names};
ghost use Rattle.derivation.specs.declared.Side.TheVariants.{Left, Right};
ghost use Rattle.derivation.specs.Piece.{extract_of, pieces_of, names_of, is_bad_piece, is_bad_derivation, is_bad_range, piece_of, piece_added, name_added, add_piece, add_full, slice_of, identity_of, joined_of, empty_derivation};

use crate::{DerivedBitVecSignal, Extract, Joined, Side};
use fst::Refusal;
use fst::record::MAX_WIDTH;

const MAX_INPUTS: u32 = 8;

const MAX_PIECES: u32 = 64;

// Puts a number in front of the first `count`, which move up by one, each by itself: std's `copy_within` is compiled to a call of C's `memmove`,
// which the archive would ask for.
fn insert_first(bits: &mut [u64; 64], count: usize, value: u64)
    requires { (count < 64) × (length bits.old ≡ 64) }
    ensures { bits.new ≡ overlay bits.old 0 (value ∷ take count bits.old) }
{
    let mut moved = value;
    for i in 0..count + 1 {
        let next = bits[i];
        bits[i] = moved;
        moved = next;
    }
}

// Number 12.
#[tactic(auto, unfolding(crate::specs::Piece::is_bad_range))]
fn is_bad_range(msb: u32, lsb: u32) -> bool
    ensures { result ≡ is_bad_range msb lsb }
{
    msb < lsb || MAX_WIDTH <= msb
}

// The number of the first name that is `signal`.
fn find_input(names: &[u32], signal: u32) -> Option<usize>
    ensures { result ≡ position (λ name. name == signal) names.now }
{
    names.iter().position(|name| *name == signal)
}

// Whether one of the pieces is bad among so many inputs.
fn any_bad(pieces: &[u64], inputs: u32) -> bool
    ensures { result ≡ list_any (is_bad_piece inputs) (map extract_of pieces.now) }
{
    pieces
        .iter()
        .map(|piece| Extract::from(*piece))
        .any(|extract| extract.is_bad(inputs))
}

fn total_width(pieces: &[u64]) -> u32
    requires { length pieces.now ≤ 64 }
    ensures { result ≡ sum_by (λ piece. (extract_of piece).width) pieces.now }
{
    pieces
        .iter()
        .map(|piece| u32::from(Extract::from(*piece).width))
        .sum()
}

impl DerivedBitVecSignal {
    // The derivation of no piece.
    #[tactic(auto, unfolding(crate::specs::Piece::empty_derivation))]
    fn empty() -> DerivedBitVecSignal
        ensures { result ≡ empty_derivation }
    {
        DerivedBitVecSignal {
            width: 0,
            input_count: 0,
            inputs: [0; 8],
            piece_count: 0,
            bits: [0; 64],
        }
    }

    // The packed pieces, all 64 for a count above.
    pub fn pieces(&self) -> &[u64]
        ensures value { result.now ≡ take self.now.piece_count self.now.bits }
        ensures long { length result.now ≡ min self.now.piece_count 64 }
    {
        let count = self.bits.len().min(self.piece_count as usize);
        &self.bits[..count]
    }

    // The inputs' names, all eight for a count above.
    pub fn names(&self) -> &[u32]
        ensures { result.now ≡ take self.now.input_count self.now.inputs }
    {
        let count = self.inputs.len().min(self.input_count as usize);
        &self.inputs[..count]
    }

    // Number 14 of Add a piece.
    #[tactic(auto, using(value::proofs::Lists::any_listed, crate::proofs::Walks::width_extracts), unfolding(crate::specs::Piece::is_bad_derivation))]
    pub fn is_bad(&self) -> bool
        ensures { result ≡ is_bad_derivation self.now }
    {
        let pieces = self.pieces();
        MAX_PIECES < self.piece_count
            || MAX_INPUTS < self.input_count
            || any_bad(pieces, self.input_count)
            || self.width != total_width(pieces)
            || MAX_WIDTH < self.width
    }

    // The piece of bits msb to lsb of a name, which gets the next number where it is new.
    #[tactic(auto, using(crate::proofs::Pieces::good_range, crate::proofs::Walks::number_known, crate::proofs::Walks::number_missing))]
    fn make_extract(&self, signal: u32, msb: u32, lsb: u32) -> Extract
        requires { is_bad_range msb lsb ≡ false }
        ensures { result ≡ piece_of self.now signal msb lsb }
    {
        let names = self.names();
        let width = (msb + 1 - lsb) as u16;
        let Some(number) = find_input(names, signal) else {
            return Extract {
                signal: names.len() as u16,
                width,
                lsb,
            };
        };
        Extract {
            signal: number as u16,
            width,
            lsb,
        }
    }

    // Whether a piece merges with its neighbour.
    #[tactic(auto, using(crate::proofs::Joins::merges_empty, crate::proofs::Joins::merges_left, crate::proofs::Joins::merges_right))]
    fn merges(&self, side: Side, extract: Extract) -> bool
        ensures { result ≡ merges side extract (pieces_of self.now) }
    {
        match (side, self.pieces()) {
            (Side::Left, [low, ..]) => extract.adjoins(Extract::from(*low)),
            (Side::Right, [.., high]) => Extract::from(*high).adjoins(extract),
            (_, []) => false,
        }
    }

    // Number 13: a piece of a ninth input, one that makes the derivation too wide, or a 65th that doesn't merge.
    #[tactic(auto, unfolding(crate::specs::Answer::has_no_room))]
    fn has_no_room(&self, side: Side, extract: Extract) -> bool
        ensures { result ≡ has_no_room self.now side extract }
    {
        MAX_INPUTS <= u32::from(extract.signal)
            || u64::from(MAX_WIDTH) < u64::from(self.width) + u64::from(extract.width)
            || !self.merges(side, extract) && MAX_PIECES <= self.piece_count
    }

    // The piece and its neighbour become one.
    #[tactic(auto, using(crate::proofs::Joins::some_piece, crate::proofs::Joins::narrow_at, crate::proofs::Joins::merged_left_put, crate::proofs::Joins::merged_right_put))]
    fn merge(&mut self, side: Side, extract: Extract)
        requires joining { Joining side self.old extract }
        requires merging { merges side extract (pieces_of self.old) ≡ true }
        ensures { self.new ≡ with_pieces self.old (piece_added side extract (pieces_of self.old)) }
    {
        self.width += u32::from(extract.width);
        match side {
            Side::Left => {
                let low = Extract::from(self.bits[0]);
                self.bits[0] = u64::from(extract.merged(low));
            }
            Side::Right => {
                let last = self.piece_count as usize - 1;
                let high = Extract::from(self.bits[last]);
                self.bits[last] = u64::from(high.merged(extract));
            }
        }
    }

    // The piece takes a place of its own.
    #[tactic(auto, using(crate::proofs::Joins::left_put, crate::proofs::Joins::right_put))]
    fn insert(&mut self, side: Side, extract: Extract)
        requires joining { Joining side self.old extract }
        requires apart { merges side extract (pieces_of self.old) ≡ false }
        ensures { self.new ≡ with_pieces self.old (piece_added side extract (pieces_of self.old)) }
    {
        let count = self.piece_count as usize;
        self.width += u32::from(extract.width);
        self.piece_count += 1;
        match side {
            Side::Left => insert_first(&mut self.bits, count, u64::from(extract)),
            Side::Right => self.bits[count] = u64::from(extract),
        }
    }

    // The piece joins on its side.
    fn put(&mut self, side: Side, extract: Extract)
        requires { Joining side self.old extract }
        ensures { self.new ≡ with_pieces self.old (piece_added side extract (pieces_of self.old)) }
    {
        if self.merges(side, extract) {
            self.merge(side, extract);
        } else {
            self.insert(side, extract);
        }
    }

    // Keeps the name of an input's number, where that is the next number.
    #[tactic(auto, using(crate::proofs::Joins::name_put, crate::proofs::Joins::name_kept))]
    fn put_name(&mut self, number: u16, signal: u32)
        requires { Named self.old number signal }
        ensures { self.new ≡ with_names self.old (name_added signal (names_of self.old)) }
    {
        if u32::from(number) == self.input_count {
            self.inputs[usize::from(number)] = signal;
            self.input_count += 1;
        }
    }

    // The next derivation. The numbers are tried in the order 14, 12, 13.
    #[tactic(auto, using(crate::proofs::Pieces::refused_bad, crate::proofs::Pieces::refused_range))]
    fn with_piece(
        mut self,
        side: Side,
        signal: u32,
        msb: u32,
        lsb: u32,
    ) -> Result<DerivedBitVecSignal, Refusal>
        ensures { outcome self (added_of result) ≡ add_piece self side signal msb lsb }
    {
        if self.is_bad() {
            return Err(Refusal::BadDerivation);
        }
        if is_bad_range(msb, lsb) {
            return Err(Refusal::BadRange);
        }
        let extract = self.make_extract(signal, msb, lsb);
        if self.has_no_room(side, extract) {
            return Err(Refusal::DerivationFull);
        }
        self.put_name(extract.signal, signal);
        self.put(side, extract);
        Ok(self)
    }

    // The next derivation with all wires of a signal. No wires add nothing.
    #[tactic(auto, using(crate::proofs::Pieces::full_wide, crate::proofs::Pieces::full_none), unfolding(fst::specs::Refusal::tried))]
    fn with_wires(self, side: Side, signal: u32, width: u32) -> Result<DerivedBitVecSignal, Refusal>
        ensures { outcome self (added_of result) ≡ add_full self side signal width }
    {
        if 0 < width {
            return self.with_piece(side, signal, width - 1, 0);
        }
        if self.is_bad() {
            return Err(Refusal::BadDerivation);
        }
        Ok(self)
    }

    // After a refusal the derivation stays as it was.
    fn joined(self, added: Result<DerivedBitVecSignal, Refusal>) -> Joined
        ensures { joined_of result ≡ outcome self (added_of added) }
    {
        match added {
            Ok(next) => Joined {
                verdict: Ok(()),
                next,
            },
            Err(refusal) => Joined {
                verdict: Err(refusal),
                next: self,
            },
        }
    }

    // Add a piece on the most significant side.
    pub fn concat_left(self, signal: u32, msb: u32, lsb: u32) -> Joined
        ensures { joined_of result ≡ add_piece self Left signal msb lsb }
    {
        self.joined(self.with_piece(Side::Left, signal, msb, lsb))
    }

    pub fn concat_right(self, signal: u32, msb: u32, lsb: u32) -> Joined
        ensures { joined_of result ≡ add_piece self Right signal msb lsb }
    {
        self.joined(self.with_piece(Side::Right, signal, msb, lsb))
    }

    // Add a piece of all wires of a signal.
    pub fn concat_left_full(self, signal: u32, width: u32) -> Joined
        ensures { joined_of result ≡ add_full self Left signal width }
    {
        self.joined(self.with_wires(Side::Left, signal, width))
    }

    pub fn concat_right_full(self, signal: u32, width: u32) -> Joined
        ensures { joined_of result ≡ add_full self Right signal width }
    {
        self.joined(self.with_wires(Side::Right, signal, width))
    }

    // The derivation of one slice.
    pub fn new_slice(signal: u32, msb: u32, lsb: u32) -> Joined
        ensures { joined_of result ≡ slice_of signal msb lsb }
    {
        DerivedBitVecSignal::empty().concat_left(signal, msb, lsb)
    }

    // The derivation of all wires of a signal.
    #[tactic(auto, using(crate::proofs::Pieces::identity_wide, crate::proofs::Pieces::identity_none))]
    pub fn new_identity(signal: u32, width: u32) -> Joined
        ensures { joined_of result ≡ identity_of signal width }
    {
        if 0 < width {
            return DerivedBitVecSignal::new_slice(signal, width - 1, 0);
        }
        DerivedBitVecSignal::empty().joined(Err(Refusal::BadRange))
    }
}
