// An entry of a bit vector decoded by its own set. Reading, comparing and deriving go through these.
ghost use Rattle.std.specs.Prelude.{◌≡◌, false, ◌-◌, ◌≤◌, ◌<◌, length, drop};
ghost use Rattle.value.specs.Level.{len_of, set_at};
ghost use Rattle.fst.specs.Refusal.{told_by};
ghost use Rattle.fst.specs.declared.Encoding.TheVariants.{BitVector};
ghost use Rattle.signal.specs.Decode.{mark_in, has_bad_mark};
ghost use Rattle.signal.specs.Parts.{Whole, own_states, unpacked, marked, coded};
ghost use Rattle.signal.specs.Packed.{is_packed};

use crate::packed::Packed;
use fst::Refusal;
use value::States;

// The mark of an entry's own set, by the mark of its record's largest set: 0 where none is stored.
#[tactic(auto, using(crate::proofs::Decoding::mark_at))]
pub fn own_mark(most: u8, entry: &[u8]) -> u8
    requires { 0 < length entry.now }
    ensures { result ≡ mark_in (set_at most) entry.now }
{
    if most == 0 {
        return 0;
    }
    entry[0] >> 6
}

// The set of a mark; 3 is none's.
pub fn states_at(mark: u32) -> States
    ensures { result ≡ set_at mark }
{
    match mark {
        0 => States::Two,
        1 => States::Four,
        _ => States::Nine,
    }
}

// An entry's own set, where its mark is a set's, by the mark of its record's largest set. Two is answered at once, so that a loop over
// entries of Two makes no set of a mark.
#[tactic(auto, using(crate::proofs::Decoding::mark_at))]
pub fn states_in(most: u32, entry: &[u8]) -> States
    requires { 0 < length entry.now }
    ensures { result ≡ set_at (mark_in (set_at most) entry.now) }
{
    if most == 0 {
        return States::Two;
    }
    states_at(u32::from(entry[0] >> 6))
}

#[tactic(auto, using(value::proofs::Levels::set_mark), unfolding(crate::specs::Parts::own_states))]
pub fn own_states(max_states: States, entry: &[u8]) -> Result<States, Refusal>
    requires { 0 < length entry.now }
    ensures { result ≡ own_states max_states entry.now }
{
    let most = max_states.mark();
    let mark = own_mark(most, entry);
    if most < mark {
        return Err(Refusal::BadMark);
    }
    Ok(states_at(u32::from(mark)))
}

// The last bytes of an entry, as many as its levels take under its own set.
pub fn level_part<'a>(width: u32, states: States, entry: &'a [u8]) -> &'a [u8]
    requires { len_of width states ≤ length entry.now }
    ensures { result.now ≡ drop (length entry.now - len_of width states) entry.now }
{
    let from = entry.len() - states.bytes_required(width);
    &entry[from..]
}

// An entry of a bit vector.
#[derive(Clone, Copy)]
pub struct Vector<'a> {
    pub width: u32,
    pub max_states: States,
    pub bytes: &'a [u8],
    pub ghost whole: { Whole (BitVector width max_states) bytes.now },
}

impl<'a> Vector<'a> {
    // Its levels under a set that is its own.
    #[inline(always)]
    fn levels_of(&self, states: States) -> Packed<'a>
        requires { own_states self.now.max_states self.now.bytes.now ≡ Ok states }
        ensures { is_packed result ≡ unpacked self.now.width self.now.max_states self.now.bytes.now }
    {
        Packed {
            width: self.width,
            states,
            bytes: level_part(self.width, states, self.bytes),
        }
    }

    // Its levels, where its mark is not bad.
    #[tactic(auto, using(crate::proofs::Reading::some, crate::proofs::Reading::set_own, value::proofs::Levels::set_mark))]
    pub fn marked_levels(&self) -> Packed<'a>
        requires { has_bad_mark (BitVector self.now.width self.now.max_states) self.now.bytes.now ≡ false }
        ensures { is_packed result ≡ unpacked self.now.width self.now.max_states self.now.bytes.now }
    {
        self.levels_of(states_in(u32::from(self.max_states.mark()), self.bytes))
    }

    // Its levels, or 9.
    #[tactic(auto, using(crate::proofs::Reading::some), unfolding(crate::specs::Parts::own_states, crate::specs::Decode::has_bad_mark, fst::specs::Refusal::tried))]
    #[inline(always)]
    pub fn levels(&self) -> Result<Packed<'a>, Refusal>
        ensures { told_by is_packed result ≡ marked self.now.width self.now.max_states self.now.bytes.now }
    {
        let states = own_states(self.max_states, self.bytes)?;
        Ok(self.levels_of(states))
    }

    // Its levels, or 9, or 10.
    #[tactic(auto, unfolding(crate::specs::Decode::levels_in, fst::specs::Refusal::tried))]
    #[inline(always)]
    pub fn coded_levels(&self) -> Result<Packed<'a>, Refusal>
        ensures { told_by is_packed result ≡ coded self.now.width self.now.max_states self.now.bytes.now }
    {
        let levels = self.levels()?;
        if levels.has_bad_code() {
            return Err(Refusal::BadCode);
        }
        Ok(levels)
    }
}
