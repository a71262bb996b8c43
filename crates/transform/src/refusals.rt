// The numbers of Derive before 7. Each is tried over all inputs before the next.
ghost use Rattle.std.specs.Prelude.{true, false, List, ◌≡◌, ℕ, ◌+◌, ◌/◌, ◌≤◌, ◌<◌, length, map};
ghost use Rattle.value.specs.Slice.{any};
ghost use Rattle.value.specs.Level.{bits_of, has_no_code};
ghost use Rattle.value.specs.declared.States.{States};
ghost use Rattle.signal.specs.Parts.{Levels};
ghost use Rattle.fst.specs.Refusal.{given, told, tried};
ghost use Rattle.signal.specs.Decode.{entries_in, entry_at, levels_in, codes_at};
ghost use Rattle.derivation.specs.Piece.{end_of, extract_of, pieces_of};
ghost use Rattle.steps.specs.Inputs.{input_kept};
ghost use Rattle.steps.specs.Refusals.{its_record, its_records, kept_with};
ghost use Rattle.transform.specs.Derive.{is_unfit, is_beyond, pick_is_bad, picked_of, code_is_bad};
ghost use Rattle.transform.specs.Refusals.{Named, ReadableInput, ReadableOf, RecordPick, SourcePick, first_tests, is_uncoded};

use crate::Task;
use derivation::Extract;
use fst::{Description, Encoding, Refusal};
use signal::decode::Vector;
use signal::packed::{Packed, has_bad_byte};
use signal::read::Record;
use steps::{Input, Sources};

// Whether a piece is beyond the width of its input.
fn is_beyond(extract: Extract, inputs: &[Input]) -> bool
    requires { extract.signal < length inputs.now }
    ensures { (bytes indices : List ℕ) → result ≡ is_beyond (map (input_kept bytes indices) inputs.now) extract }
{
    let input = inputs[extract.signal as usize];
    u64::from(input.description.encoding.width()) < extract.end()
}

fn any_beyond(pieces: &[u64], inputs: &[Input]) -> bool
    requires { Named (length inputs.now) pieces.now }
    ensures { (bytes indices : List ℕ) → result ≡ any (is_beyond (map (input_kept bytes indices) inputs.now)) (map extract_of pieces.now) }
{
    pieces
        .iter()
        .any(|piece| is_beyond(Extract::from(*piece), inputs))
}

// Whether a code of the picked levels is 9 to 15.
fn any_bad_level(extract: Extract, levels: &Packed) -> bool
    requires { end_of extract ≤ levels.now.width }
    ensures { result ≡ has_no_code (picked_of extract (codes_at levels.now.width levels.now.states levels.now.bytes.now)) }
{
    let count = u32::from(extract.width);
    let from = levels.width - (extract.lsb + count);
    (0..count).any(|i| 9 <= levels.code_at(from + i))
}

// Whether the bytes of the picked levels of four bits hold a number that is no code.
fn has_bad_bytes(extract: Extract, levels: &[u8]) -> bool
    requires { (end_of extract ≤ 4096) × ((end_of extract + 1) / 2 ≤ length levels.now) }
    ensures { result ≡ false → (w : ℕ) (S : States) → 4 ≤ bits_of S → Levels w S levels.now → end_of extract ≤ w → has_no_code (picked_of extract (codes_at w S levels.now)) ≡ false }
{
    let end = extract.lsb + u32::from(extract.width);
    let from = levels.len() - ((end + 1) >> 1) as usize;
    let to = levels.len() - (extract.lsb >> 1) as usize;
    has_bad_byte(&levels[from..to])
}

// `any_bad_level` under the set Nine, where the levels are tried one by one only if their bytes hold a number that is no code.
fn has_bad_level(extract: Extract, levels: &Packed) -> bool
    requires { (end_of extract ≤ levels.now.width) × (4 ≤ bits_of levels.now.states) }
    ensures { result ≡ has_no_code (picked_of extract (codes_at levels.now.width levels.now.states levels.now.bytes.now)) }
{
    has_bad_bytes(extract, levels.bytes) && any_bad_level(extract, levels)
}

// Whether a picked level of an entry is no code, as only the set Nine can have it.
fn has_bad_pick(extract: Extract, description: Description, used: &[u8], k: u32) -> bool
    requires { RecordPick extract description used.now × (k < description.count) }
    ensures { result ≡ has_no_code (picked_of extract (levels_in description.encoding (entry_at description.encoding 0 used.now k))) }
{
    let Encoding::BitVector { width, max_states } = description.encoding else {
        return false;
    };
    let record = Record {
        description,
        bytes: used,
        byte_start: 0,
    };
    let entry = Vector {
        width,
        max_states,
        bytes: record.entry_at(k),
    };
    let levels = entry.marked_levels();
    if levels.states.bits() < 4 {
        return false;
    }
    has_bad_level(extract, &levels)
}

// Whether a picked level of an entry of a record is no code.
fn any_bad_pick(extract: Extract, description: Description, used: &[u8]) -> bool
    requires { RecordPick extract description used.now }
    ensures { (indices : List ℕ) → length indices ≡ description.count → result ≡ any (pick_is_bad extract) (entries_in (kept_with description used.now indices)) }
{
    if description.encoding.largest().bits() < 4 {
        return false;
    }
    (0..description.count).any(|k| has_bad_pick(extract, description, used, k))
}

// Whether a picked level of an entry of a piece's input is no code.
fn is_coded_badly(extract: Extract, sources: &Sources) -> bool
    requires { SourcePick extract sources.now }
    ensures { result ≡ code_is_bad (its_records sources.now) extract }
{
    let input = sources.inputs.used()[extract.signal as usize];
    any_bad_pick(extract, input.description, input.used_bytes(sources.bytes))
}

// Whether every code of an input is below 9. Where it is wider than `widest`, the answer is no.
#[tactic(auto, using(crate::proofs::InputCodes::input_narrow, steps::proofs::InputTests::bytes_reach))]
fn is_coded(sources: &Sources, widest: u32, input: &Input) -> bool
    requires { ReadableInput sources.now input.now }
    ensures { result ≡ true → is_uncoded (its_record sources.now input.now) ≡ false }
{
    let width = input.description.encoding.width();
    if widest < width {
        return false;
    }
    let whole = Extract {
        signal: 0,
        width: width as u16,
        lsb: 0,
    };
    !any_bad_pick(whole, input.description, input.used_bytes(sources.bytes))
}

impl Task<'_> {
    // Number 14, of inputs that are not 2.
    #[tactic(auto, using(crate::proofs::PieceTests::pieces_named, crate::proofs::PieceTests::unfit_by_beyond, derivation::proofs::Pieces::sound), unfolding(crate::specs::Derive::is_unfit))]
    fn is_unfit(&self) -> bool
        ensures { result ≡ is_unfit self.now.derivation.now self.now.sources.now.inputs.now.count (its_records self.now.sources.now) }
    {
        if self.derivation.is_bad() {
            return true;
        }
        if self.derivation.piece_count == 0 {
            return true;
        }
        if self.sources.inputs.count != self.derivation.input_count {
            return true;
        }
        if self.sources.any_without_text() {
            return true;
        }
        any_beyond(self.derivation.pieces(), self.sources.inputs.used())
    }

    // Number 10, of inputs that are not refused before, piece by piece. One look at each input spares one for each piece, but where an input is
    // so wide that trying its pieces is faster.
    fn any_bad_code(&self) -> bool
        requires { ReadableOf self.now }
        ensures { result ≡ any (code_is_bad (its_records self.now.sources.now)) (pieces_of self.now.derivation.now) }
    {
        let widest = 64 * self.derivation.piece_count;
        let inputs = self.sources.inputs.used();
        if inputs
            .iter()
            .all(|input| is_coded(self.sources, widest, input))
        {
            return false;
        }
        let pieces = self.derivation.pieces();
        pieces.iter().any(|piece| is_coded_badly(Extract::from(*piece), self.sources))
    }

    // The first number before 7 that refuses a derivation of these inputs.
    #[tactic(auto, using(crate::proofs::RefusalsInOrder::first_bad, crate::proofs::RefusalsInOrder::first_unfit, crate::proofs::RefusalsInOrder::first_falls, crate::proofs::RefusalsInOrder::first_mark, crate::proofs::RefusalsInOrder::first_code, crate::proofs::RefusalsInOrder::first_none))]
    pub fn first_refusal(&self) -> Result<(), Refusal>
        ensures { told result ≡ tried (first_tests self.now.derivation.now self.now.sources.now.inputs.now self.now.sources.now.bytes.now self.now.sources.now.indices.now) (given tt) }
    {
        if self.sources.any_bad() {
            return Err(Refusal::BadRecord);
        }
        if self.is_unfit() {
            return Err(Refusal::BadDerivation);
        }
        if self.sources.any_late() {
            return Err(Refusal::LateInput);
        }
        if self.sources.any_falling() {
            return Err(Refusal::IndexFalls);
        }
        if self.sources.any_marked_badly() {
            return Err(Refusal::BadMark);
        }
        if self.any_bad_code() {
            return Err(Refusal::BadCode);
        }
        Ok(())
    }
}
