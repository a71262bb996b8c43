// Levels and state sets, after wellen's src/signal/value.rs.
#![tactic(auto)]

ghost use Rattle.std.specs.Prelude.{◌≡◌, false, ◌-◌, ◌/◌, ◌^◌, eqb, length};
ghost use Rattle.value.specs.Level.{letter_of, mark_of, bits_of, len_of};
ghost use Rattle.value.specs.Level as level;
ghost use Rattle.value.specs.Answer.{char_code, least_states, set_of_mark, holds_one, holds_all, level_at, LevelIn};

// A state set, by how many values a level can have.
#[derive(Clone, Copy, PartialEq, Eq, PartialOrd, Ord)]
pub enum States {
    Two,
    Four,
    Nine,
}

// A number that is no set's mark.
#[derive(Clone, Copy, PartialEq, Eq)]
pub struct NoMark;

impl TryFrom<u8> for States {
    type Error = NoMark;

    ghost try_from_gives = { λ mark r. r ≡ set_of_mark mark };

    fn try_from(mark: u8) -> Result<States, NoMark> {
        match mark {
            0 => Ok(States::Two),
            1 => Ok(States::Four),
            2 => Ok(States::Nine),
            _ => Err(NoMark),
        }
    }
}

// The code of a character, none of a foreign byte. In the order of IEEE 1164's own list, then its small letters: as the page has them (specs/Page).
#[tactic(auto, unfolding(crate::specs::Answer::char_code, crate::specs::Level::code_of, crate::specs::Level::place_in, crate::specs::Level::fold))]
pub fn bit_char_to_num(value: u8) -> Option<u8>
    ensures { result ≡ char_code value }
{
    match value {
        b'U' => Some(5),
        b'X' => Some(2),
        b'0' => Some(0),
        b'1' => Some(1),
        b'Z' => Some(3),
        b'W' => Some(6),
        b'L' => Some(7),
        b'H' => Some(4),
        b'-' => Some(8),
        b'u' => Some(5),
        b'x' => Some(2),
        b'z' => Some(3),
        b'w' => Some(6),
        b'l' => Some(7),
        b'h' => Some(4),
        _ => None,
    }
}

// 0 for 0 1, and another number for every other byte. These three have no loads and no jumps, so that a loop over them is compiled to
// wide instructions.
#[tactic(auto, using(crate::proofs::Classes::two_told))]
fn beside_two(value: u8) -> u8
    ensures { eqb result 0 ≡ holds_one 2 value }
{
    (value ^ b'0') & 254
}

// 0 for 0 1 x z.
#[tactic(auto, using(crate::proofs::Classes::min_zero, crate::proofs::Classes::four_told))]
fn beside_four(value: u8) -> u8
    ensures { eqb result 0 ≡ holds_one 4 value }
{
    beside_two(value).min(((value | 32) & 253) ^ b'x')
}

// 0 for 0 1 x z h u w l -.
#[tactic(auto, using(crate::proofs::Classes::min_zero, crate::proofs::Classes::nine_told))]
fn beside_nine(value: u8) -> u8
    ensures { eqb result 0 ≡ holds_one 9 value }
{
    let small = value | 32;
    let letter = ((small & 253) ^ b'u').min((small & 251) ^ b'h');
    beside_four(value).min(letter.min(value ^ b'-'))
}

// Whether every character is 0 or 1.
#[tactic(auto, using(crate::proofs::Classes::holds_none, crate::proofs::Classes::holds_more))]
fn is_binary(value: &[u8]) -> bool
    ensures { result ≡ holds_all States.Two value.now }
{
    let mut union = 0;
    for c in value {
        union |= beside_two(*c);
    }
    union == 0
}

// The character of a code, and 0 for a number that is no code.
#[tactic(auto, unfolding(crate::specs::Level::letter_of))]
pub fn num_to_bit_char(code: u8) -> u8
    ensures { result ≡ letter_of code }
{
    match code {
        0 => b'0',
        1 => b'1',
        2 => b'x',
        3 => b'z',
        4 => b'h',
        5 => b'u',
        6 => b'w',
        7 => b'l',
        8 => b'-',
        _ => 0,
    }
}

impl States {
    // The least set of a string that set Two does not hold: Four and Nine are tried in one reading.
    #[tactic(auto, using(crate::proofs::Classes::holds_none, crate::proofs::Classes::holds_more, crate::proofs::Classes::holds_whole, std::proofs::lemmas::Bool::Decides::nat_tests, crate::proofs::Classes::is_four, crate::proofs::Classes::is_nine, crate::proofs::Classes::is_foreign_lem))]
    fn beyond_two(value: &[u8]) -> Option<States>
        requires { false ≡ holds_all States.Two value.now }
        ensures { result ≡ least_states value.now }
    {
        let mut four = 0;
        let mut nine = 0;
        for c in value {
            four |= beside_four(*c);
            nine |= beside_nine(*c);
        }
        if four == 0 {
            Some(States::Four)
        } else if nine == 0 {
            Some(States::Nine)
        } else {
            None
        }
    }

    #[tactic(auto, using(crate::proofs::Classes::is_two))]
    pub fn from_ascii(value: &[u8]) -> Option<States>
        ensures { result ≡ least_states value.now }
    {
        if is_binary(value) {
            Some(States::Two)
        } else {
            States::beyond_two(value)
        }
    }

    pub fn join(a: States, b: States) -> States
        ensures { result ≡ level.join a b }
    {
        a.max(b)
    }

    pub fn mark(self) -> u8
        ensures { result ≡ mark_of self }
    {
        self as u8
    }

    // How many bits a level takes.
    pub fn bits(self) -> u32
        ensures { result ≡ bits_of self }
    {
        match self {
            States::Two => 1,
            States::Four => 2,
            States::Nine => 4,
        }
    }

    pub fn mask(self) -> u8
        ensures { result ≡ 2 ^ bits_of self - 1 }
    {
        match self {
            States::Two => 0x1,
            States::Four => 0x3,
            States::Nine => 0xf,
        }
    }

    // How many levels a byte holds.
    pub fn bits_in_a_byte(self) -> usize
        ensures { result ≡ 8 / bits_of self }
    {
        match self {
            States::Two => 8,
            States::Four => 4,
            States::Nine => 2,
        }
    }

    // How many bytes so many levels take.
    pub fn bytes_required(self, bits: u32) -> usize
        ensures { result ≡ len_of bits self }
    {
        match self {
            States::Two => (bits as usize + 7) >> 3,
            States::Four => (bits as usize + 3) >> 2,
            States::Nine => (bits as usize + 1) >> 1,
        }
    }

    // The level that `bit` levels follow.
    #[tactic(auto, using(crate::proofs::Packed::read, crate::proofs::Digits::below_all))]
    pub fn get_bit(self, data: &[u8], bit: u32) -> u8
        requires { LevelIn (bits_of self) bit (length «data».now) }
        ensures { result ≡ level_at (bits_of self) bit «data».now }
    {
        let from = bit * self.bits();
        let at = data.len() - 1 - (from >> 3) as usize;
        (data[at] >> (from & 7)) & self.mask()
    }
}
