// Add a change, a string's: `SignalWriter::add_change` of wellen's src/fst.rs.
ghost use Rattle.std.specs.Prelude.{◌≡◌, cond, false, ◌+◌, ◌≤◌, length};
ghost use Rattle.value.specs.Slice.{part};
ghost use Rattle.fst.specs.declared.Encoding.TheVariants as encoding;
ghost use Rattle.fst.specs.Record.{maximum, size_of, is_bad, lent, lent_in, lent_mut, described};
ghost use Rattle.fst.specs.Change.{text, is_below_last, add_change, left_by, answered};
ghost use Rattle.fst.specs.Adding.{last_in, left_adding, Admits, AdmittedString};

use crate::record::{Slices, SlicesMut, is_bad, is_bad_vector, lacks_room};
use crate::{Added, Description, Encoding, Refusal};
use entries::{WiderEntry, repeats_entry};
use layout::entry::entry_size;
use layout::number::NewEntry;
use value::States;
use wavemem::scan::scan;
use wavemem::short::Scanned;

// What a change adds to a record: bytes, which may repeat the last of some entries that are as long.
pub(crate) trait Entry {
    ghost use Rattle.std.specs.Prelude.{◌≡◌, ◌+◌, ◌*◌, ◌≤◌, ℕ, Bool, List, length};
    ghost use Rattle.value.specs.Slice.{overlay};

    ghost stored: { Self → List ℕ };

    ghost again: { Self → ℕ → ℕ → List ℕ → Bool };

    fn len(&self) -> usize
        ensures { result ≡ length (stored self.now) };

    fn repeats(&self, bytes: &[u8], byte_start: usize, count: u32) -> bool
        requires { byte_start + count * length (stored self.now) ≤ length bytes.now }
        ensures { result ≡ again self.now byte_start count bytes.now };

    fn write(&self, out: &mut [u8], at: usize)
        requires { at + length (stored self.now) ≤ length out.old }
        ensures { out.new ≡ overlay out.old at (stored self.now) };
}

impl Entry for NewEntry<'_> {
    ghost use Rattle.entries.specs.Repeatable.{repeats_plain};

    ghost stored = { λ e. e };

    ghost again = { repeats_plain };

    #[inline(always)]
    fn len(&self) -> usize {
        self.len()
    }

    #[inline(always)]
    fn repeats(&self, bytes: &[u8], byte_start: usize, count: u32) -> bool {
        repeats_entry(self, bytes, byte_start, count)
    }

    #[inline(always)]
    fn write(&self, out: &mut [u8], at: usize) {
        self.write(out, at)
    }
}

// What a string adds to a record whose calls numbers 2 to 6 let through.
#[derive(Drop)]
enum Addition<'a> {
    Event,
    Entry(NewEntry<'a>),
    Raised { max_states: States, states: States },
}

// An event's entry: no bytes, and every change is kept.
#[derive(Drop)]
struct Event;

#[tactic(auto, using(value::proofs::Slices::overlay_nil))]
impl Entry for Event {
    ghost use Rattle.std.specs.Prelude.{[], false};

    ghost stored = { λ _. [] };

    ghost again = { λ _ _ _ _. false };

    fn len(&self) -> usize {
        0
    }

    fn repeats(&self, bytes: &[u8], byte_start: usize, count: u32) -> bool {
        false
    }

    fn write(&self, out: &mut [u8], at: usize) {}
}

impl Slices<'_> {
    #[tactic(auto, using(crate::proofs::Adding::last_none, crate::proofs::Adding::last_some))]
    fn last_index(self, count: u32) -> Option<u32>
        requires { self.index_start + count ≤ length self.indices.now }
        ensures { result ≡ last_in count (part self.entry.index_start count self.entry.indices.now) }
    {
        let before = count.checked_sub(1)?;
        Some(self.indices[self.index_start + before as usize])
    }

    #[tactic(auto, using(crate::proofs::Adding::below_none))]
    pub(crate) fn is_below_last(self, index: u32, count: u32) -> bool
        requires { self.index_start + count ≤ length self.indices.now }
        ensures { result ≡ is_below_last index count (part self.entry.index_start count self.entry.indices.now) }
    {
        let Some(last) = self.last_index(count) else {
            return false;
        };
        index < last
    }
}

impl Description {
    // After a refusal the description is as it was.
    pub(crate) fn answer(self, made: Result<Description, Refusal>) -> Added
        ensures { result ≡ answered self made }
    {
        match made {
            Ok(next) => Added {
                verdict: Ok(()),
                next,
            },
            Err(refusal) => Added {
                verdict: Err(refusal),
                next: self,
            },
        }
    }

    // Number 7, and what is stored, of a change that moves no entry: it is behind the others, unless it repeats the last.
    #[tactic(auto, using(crate::proofs::Records::standing, crate::proofs::AddingPlain::roomier))]
    #[inline(always)]
    pub(crate) fn append<E: Entry>(
        mut self,
        slices: SlicesMut<'_>,
        index: u32,
        entry: &E,
    ) -> Result<Description, Refusal>
        requires { (is_bad self (lent_mut slices) ≡ false) × (length (E.stored entry.now) ≡ size_of self.encoding) }
        ensures { left_by (answered self result) slices.exit.0.now slices.exit.1.0.now ≡ left_adding self (lent_mut slices.entry) index (E.stored entry.now) (E.again entry.now) }
    {
        let seen = slices.shared();
        if entry.repeats(seen.bytes, seen.byte_start, self.count) {
            return Ok(self);
        }
        let size = entry.len();
        if lacks_room(self, size, seen) {
            return Err(Refusal::NoRoom);
        }
        let before = self.count as usize;
        self.count += 1;
        let SlicesMut {
            bytes,
            indices,
            byte_start,
            index_start,
        } = slices;
        entry.write(bytes, byte_start + before * size);
        indices[index_start + before] = index;
        Ok(self)
    }

    // Under a joint set, and with one entry more unless that is a repeat.
    fn raised(self, width: u32, joint: States, repeat: bool) -> Description
        requires { self.count ≤ maximum }
        ensures { result ≡ described (encoding.BitVector width joint) (cond repeat self.count (self.count + 1)) }
    {
        let encoding = Encoding::BitVector {
            width,
            max_states: joint,
        };
        let count = if repeat { self.count } else { self.count + 1 };
        Description::new(encoding, count)
    }

    // Number 7, and what is stored, of a string of any set. The room is that of the record with the change.
    #[tactic(auto, using(crate::proofs::AddingStrings::string_standing))]
    fn raise(
        self,
        slices: SlicesMut<'_>,
        index: u32,
        max_states: States,
        states: States,
        value: &[u8],
    ) -> Result<Description, Refusal>
        requires { AdmittedString self (lent_mut slices) index max_states states value.now }
        ensures { left_by (answered self result) slices.exit.0.now slices.exit.1.0.now ≡ add_change self (lent_mut slices.entry) index (text value.now) }
    {
        let joint = States::join(max_states, states);
        let entry = WiderEntry::new(max_states, joint, states, value);
        let seen = slices.shared();
        let repeat = entry.repeats_last(seen.bytes, seen.byte_start, self.count);
        let next = self.raised(value.len() as u32, joint, repeat);
        if is_bad(next, seen) {
            return Err(Refusal::NoRoom);
        }
        let SlicesMut {
            bytes,
            indices,
            byte_start,
            index_start,
        } = slices;
        let entries = self.count as usize;
        entry.expand(bytes, byte_start, entries);
        if repeat {
            return Ok(next);
        }
        entry.write_behind(bytes, byte_start, entries);
        indices[index_start + entries] = index;
        Ok(next)
    }

    // Numbers 2, and 4 to 6, of a string for a bit vector. One that raises no set leaves the entries as they are.
    #[tactic(auto, using(crate::proofs::Records::standing, crate::proofs::Adding::gives_2, crate::proofs::AddingStrings::string_gives_4, crate::proofs::AddingStrings::string_gives_5))]
    #[inline(always)]
    fn admit_levels<'a>(
        self,
        slices: Slices<'_>,
        index: u32,
        width: u32,
        max_states: States,
        value: &'a [u8],
    ) -> Result<Addition<'a>, Refusal>
        requires { self.encoding ≡ encoding.BitVector width max_states }
        ensures { Admits self (lent_in slices.entry) index value.now result }
    {
        let size = entry_size(max_states, width);
        if is_bad_vector(self, width, size, slices) {
            return Err(Refusal::BadRecord);
        }
        if value.len() != width as usize {
            return Err(Refusal::WrongLength);
        }
        let Some(Scanned { states, levels }) = scan(value, size) else {
            return Err(Refusal::ForeignCharacter);
        };
        if slices.is_below_last(index, self.count) {
            return Err(Refusal::IndexBelowLast);
        }
        if max_states < states {
            return Ok(Addition::Raised { max_states, states });
        }
        let entry = NewEntry::with_levels(max_states, states, value, size, Some(levels));
        Ok(Addition::Entry(entry))
    }

    // Numbers 2, 4 and 6 of a string for an event.
    #[tactic(auto, using(crate::proofs::Records::standing, crate::proofs::Adding::gives_2, crate::proofs::Adding::gives_6, crate::proofs::AddingPlain::event_gives_4, crate::proofs::AddingPlain::event_suited))]
    fn admit_event<'a>(
        self,
        slices: Slices<'_>,
        index: u32,
        value: &'a [u8],
    ) -> Result<Addition<'a>, Refusal>
        requires { self.encoding ≡ encoding.Event }
        ensures { Admits self (lent_in slices.entry) index value.now result }
    {
        if is_bad(self, slices) {
            return Err(Refusal::BadRecord);
        }
        if 1 < value.len() {
            return Err(Refusal::WrongLength);
        }
        if slices.is_below_last(index, self.count) {
            return Err(Refusal::IndexBelowLast);
        }
        Ok(Addition::Event)
    }

    // Numbers 2 to 6. Number 2 is tried in each arm, so that a bit vector's size is worked out once.
    #[tactic(auto, using(crate::proofs::Records::standing, crate::proofs::Adding::gives_2, crate::proofs::AddingPlain::real_gives_3))]
    #[inline(always)]
    fn admit<'a>(
        self,
        slices: Slices<'_>,
        index: u32,
        value: &'a [u8],
    ) -> Result<Addition<'a>, Refusal>
        ensures { Admits self (lent_in slices.entry) index value.now result }
    {
        match self.encoding {
            Encoding::Event => self.admit_event(slices, index, value),
            Encoding::Real if is_bad(self, slices) => Err(Refusal::BadRecord),
            Encoding::Real => Err(Refusal::WrongKind),
            Encoding::BitVector { width, max_states } => {
                self.admit_levels(slices, index, width, max_states, value)
            }
        }
    }

    pub fn add_change(
        mut self,
        bytes: &mut [u8],
        byte_start: usize,
        indices: &mut [u32],
        index_start: usize,
        index: u32,
        value: &[u8],
    ) -> Added
        ensures { left_by result bytes.new indices.new ≡ add_change self (lent bytes.old byte_start indices.old index_start) index (text value.now) }
    {
        let slices = SlicesMut {
            bytes,
            indices,
            byte_start,
            index_start,
        };
        let made = match self.admit(slices.shared(), index, value) {
            Ok(Addition::Event) => self.append(slices, index, &Event),
            Ok(Addition::Entry(entry)) => self.append(slices, index, &entry),
            Ok(Addition::Raised { max_states, states }) => {
                self.raise(slices, index, max_states, states, value)
            }
            Err(refusal) => Err(refusal),
        };
        self.answer(made)
    }
}
