// Levels of one set, packed in bytes: their codes and their text.
ghost use Rattle.std.specs.Prelude.{◌≡◌, ◌+◌, ◌*◌, ◌/◌, ◌^◌, ◌≤◌, ◌<◌, ltb, length, take, get_or};
ghost use Rattle.value.specs.Digits.{number, digits};
ghost use Rattle.value.specs.Slice.{any, overlay};
ghost use Rattle.value.specs.Level.{bits_of, len_of, has_no_code, text_of};
ghost use Rattle.signal.specs.Decode.{codes_at};
ghost use Rattle.signal.specs.Parts.{Levels, is_bad_byte};

use value::{States, num_to_bit_char};

// So many levels of a set, in the bytes that hold them.
#[derive(Clone, Copy)]
pub struct Packed<'a> {
    pub width: u32,
    pub states: States,
    pub bytes: &'a [u8],
    pub ghost held: { Levels width states bytes.now },
}

impl<'a> Packed<'a> {
    // The code of character i.
    #[tactic(auto, using(crate::proofs::Decoding::level_in, crate::proofs::Decoding::level_code))]
    pub fn code_at(&self, i: u32) -> u8
        requires { i < self.now.width }
        ensures { result ≡ get_or (codes_at self.now.width self.now.states self.now.bytes.now) i 0 }
    {
        self.states.get_bit(self.bytes, self.width - 1 - i)
    }

    // Whether a code is 9 to 15.
    pub fn has_bad_code(&self) -> bool
        ensures { result ≡ has_no_code (codes_at self.now.width self.now.states self.now.bytes.now) }
    {
        has_bad_code(self.width, self.states, self.bytes)
    }

    // Stores the characters.
    pub fn write_text(&self, out: &mut [u8])
        requires { self.now.width ≤ length out.old }
        ensures { out.new ≡ overlay out.old 0 (text_of (codes_at self.now.width self.now.states self.now.bytes.now)) }
    {
        write_text(self.width, self.states, self.bytes, out)
    }
}

// More than 0 for a byte of two codes of which one is 9 to 15. It has no jumps, so that a fold over it is compiled to wide instructions.
#[tactic(auto, using(crate::proofs::CodesOfBytes::bad_byte))]
pub fn bad_bits(byte: u8) -> u8
    ensures { ltb 0 result ≡ is_bad_byte byte }
{
    ((byte & 0x77) + 0x77) & byte & 0x88
}

// Whether a code of bytes that are full is 9 to 15.
#[tactic(auto, using(crate::proofs::CodesOfBytes::bad_more), unfolding(value::specs::Slice::any))]
pub fn has_bad_byte(levels: &[u8]) -> bool
    ensures { result ≡ any is_bad_byte levels.now }
{
    let mut union: u8 = 0;
    for byte in levels {
        union |= bad_bits(*byte);
    }
    0 < union
}

// Whether the code of a first byte that has but one is 9 to 15.
#[tactic(auto, using(crate::proofs::CodesOfBytes::bad_none, crate::proofs::CodesOfBytes::bad_one))]
fn has_bad_first(first: &[u8]) -> bool
    requires { length first.now ≤ 1 }
    ensures { result ≡ has_no_code (digits 16 (length first.now) (number 256 first.now)) }
{
    match first {
        [byte] => 9 <= byte & 15,
        _ => false,
    }
}

// Whether a code is 9 to 15, as only four bits can be.
#[tactic(auto, using(crate::proofs::Decoding::few_bits))]
fn has_bad_code(width: u32, states: States, levels: &[u8]) -> bool
    requires { Levels width states levels.now }
    ensures { result ≡ has_no_code (codes_at width states levels.now) }
{
    if states.bits() < 4 {
        return false;
    }
    let first = (width % 2) as usize;
    has_bad_first(&levels[..first]) || has_bad_byte(&levels[first..])
}

// Stores the characters of the lowest levels of a byte from a place on.
#[tactic(auto, using(value::proofs::Slices::overlay_nil, value::proofs::Digits::digits_length, std::proofs::lemmas::Grind::common_steps))]
fn write_levels(states: States, byte: u8, count: u32, out: &mut [u8], at: usize)
    requires { (count * bits_of states ≤ 8) × (at + count ≤ length out.old) }
    ensures { out.new ≡ overlay out.old at (text_of (digits (2 ^ bits_of states) count byte)) }
{
    let bits = states.bits();
    for i in 0..count {
        let level = (byte >> ((count - 1 - i) * bits)) & states.mask();
        out[at + i as usize] = num_to_bit_char(level);
    }
}

// Stores the characters of a first byte that is not full. Returns how many bytes have been read.
#[tactic(auto, using(crate::proofs::CodesOfBytes::number_one, value::proofs::Slices::overlay_nil), unfolding(value::specs::Digits::digits))]
fn write_first(states: States, count: u32, levels: &[u8], out: &mut [u8]) -> usize
    requires { (count * bits_of states ≤ 8) × (len_of count states ≤ length levels.now) × (count ≤ length out.old) }
    ensures value { result ≡ len_of count states }
    ensures out_after { out.new ≡ overlay out.old 0 (text_of (digits (2 ^ bits_of states) count (number 256 (take (len_of count states) levels.now)))) }
{
    if count == 0 {
        return 0;
    }
    write_levels(states, levels[0], count, out, 0);
    1
}

// Stores the characters of a full byte from a place on: `write_levels` for each set apart, so that it is compiled without a loop.
fn write_byte(states: States, byte: u8, out: &mut [u8], at: usize)
    requires { at + 8 / bits_of states ≤ length out.old }
    ensures { out.new ≡ overlay out.old at (text_of (digits (2 ^ bits_of states) (8 / bits_of states) byte)) }
{
    match states {
        States::Two => write_levels(States::Two, byte, 8, out, at),
        States::Four => write_levels(States::Four, byte, 4, out, at),
        States::Nine => write_levels(States::Nine, byte, 2, out, at),
    }
}

// Stores the characters of full bytes from a place on.
#[tactic(auto, using(crate::proofs::CodesOfBytes::stored_none))]
fn write_bytes(states: States, levels: &[u8], out: &mut [u8], at: usize)
    requires { at + 8 / bits_of states * length levels.now ≤ length out.old }
    ensures { out.new ≡ overlay out.old at (text_of (digits (2 ^ bits_of states) (8 / bits_of states * length levels.now) (number 256 levels.now))) }
{
    let per_byte = states.bits_in_a_byte();
    let mut i = at;
    for byte in levels {
        write_byte(states, *byte, out, i);
        i += per_byte;
    }
}

// Stores the characters of levels.
fn write_text(width: u32, states: States, levels: &[u8], out: &mut [u8])
    requires { Levels width states levels.now × (width ≤ length out.old) }
    ensures { out.new ≡ overlay out.old 0 (text_of (codes_at width states levels.now)) }
{
    let count = width % states.bits_in_a_byte() as u32;
    let k = write_first(states, count, levels, out);
    write_bytes(states, &levels[k..], out, count as usize)
}
