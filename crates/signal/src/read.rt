// Read an entry, and Text of an entry, after wellen's `get_value_at` and `bit_string`.
ghost use Rattle.std.specs.Prelude.{◌≡◌};
ghost use Rattle.fst.specs.Refusal.{number_of, told_by};
ghost use Rattle.signal.specs.Decode.{entry_at};
ghost use Rattle.signal.specs.Parts.{Whole, Inside, vector_in, text_stored};
ghost use Rattle.signal.specs.Vectors.{is_vector};
ghost use Rattle.signal.specs.Read.{read_entry, is_entry, part_of, text_left, read_text};

use crate::decode::Vector;
use crate::{Entry, Kind};
use fst::record::is_bad_bytes;
use fst::{Description, Encoding, Refusal};
use value::States;

// A record in the bytes that it is lent with.
#[derive(Clone, Copy)]
pub struct Record<'a> {
    pub description: Description,
    pub bytes: &'a [u8],
    pub byte_start: usize,
}

impl<'a> Record<'a> {
    // The bytes of an entry.
    #[tactic(auto, unfolding(crate::specs::Decode::entry_at, value::specs::Slice::part))]
    pub fn entry_at(&self, entry: u32) -> &'a [u8]
        requires { Inside self.now.description.encoding self.now.byte_start self.now.bytes.now entry }
        ensures { result.now ≡ entry_at self.now.description.encoding self.now.byte_start self.now.bytes.now entry }
    {
        let encoding = self.description.encoding;
        let size = encoding.size();
        let at = self.byte_start + entry as usize * size;
        &self.bytes[at..at + size]
    }

    // An entry of a bit vector, or 2, or 3, or 8.
    #[tactic(auto, unfolding(crate::specs::Parts::vector_in, fst::specs::Record::has_no_text, fst::specs::Refusal::tried))]
    #[inline(always)]
    pub fn vector_at(&self, entry: u32) -> Result<Vector<'a>, Refusal>
        ensures { told_by is_vector result ≡ vector_in self.now.description self.now.bytes.now self.now.byte_start entry }
    {
        if is_bad_bytes(self.description, self.bytes, self.byte_start) {
            return Err(Refusal::BadRecord);
        }
        let Encoding::BitVector { width, max_states } = self.description.encoding else {
            return Err(Refusal::WrongKind);
        };
        if self.description.count <= entry {
            return Err(Refusal::NoSuchEntry);
        }
        Ok(Vector {
            width,
            max_states,
            bytes: self.entry_at(entry),
        })
    }

    #[tactic(auto, unfolding(crate::specs::Read::read_entry, crate::specs::Parts::vector_in, crate::specs::Decode::has_bad_mark, crate::specs::Decode::set_in, crate::specs::Decode::level_part, fst::specs::Record::has_no_text, fst::specs::Refusal::tried))]
    pub fn read_entry(&self, entry: u32) -> Result<Entry<'a>, Refusal>
        ensures { told_by is_entry result ≡ read_entry self.now.description self.now.bytes.now self.now.byte_start entry }
    {
        if let Encoding::BitVector { .. } = self.description.encoding {
            let vector = self.vector_at(entry)?;
            let levels = vector.levels()?;
            return Ok(Entry {
                kind: Kind::BitVector,
                states: levels.states,
                part: levels.bytes,
            });
        }
        if is_bad_bytes(self.description, self.bytes, self.byte_start) {
            return Err(Refusal::BadRecord);
        }
        if self.description.count <= entry {
            return Err(Refusal::NoSuchEntry);
        }
        Ok(Entry {
            kind: Kind::from(self.description.encoding),
            states: States::Two,
            part: self.entry_at(entry),
        })
    }

    // The part of the lent bytes that holds the levels, and nothing where reading is refused.
    pub fn entry_part(&self, entry: u32) -> &'a [u8]
        ensures { result.now ≡ part_of (read_entry self.now.description self.now.bytes.now self.now.byte_start entry) }
    {
        match self.read_entry(entry) {
            Ok(answer) => answer.part,
            Err(_) => &self.bytes[..0],
        }
    }

    // Text of an entry: only where nothing is refused the characters are stored.
    #[tactic(auto, unfolding(crate::specs::Read::read_text, crate::specs::Parts::vector_in, fst::specs::Refusal::tried))]
    pub fn read_text(&self, entry: u32, out: &mut [u8]) -> Result<(), Refusal>
        ensures { text_left (number_of result) out.new ≡ read_text self.now.description self.now.bytes.now self.now.byte_start entry out.old }
    {
        let vector = self.vector_at(entry)?;
        store_text(&vector, out)
    }
}

// Text of an entry's bytes: 9, 10 and 7.
#[tactic(auto, unfolding(crate::specs::Parts::text_stored, crate::specs::Decode::levels_in, fst::specs::Refusal::tried))]
fn store_text(vector: &Vector, out: &mut [u8]) -> Result<(), Refusal>
    ensures { text_left (number_of result) out.new ≡ text_stored vector.now.width vector.now.max_states vector.now.bytes.now out.old }
{
    let levels = vector.coded_levels()?;
    if out.len() < levels.width as usize {
        return Err(Refusal::NoRoom);
    }
    levels.write_text(out);
    Ok(())
}
