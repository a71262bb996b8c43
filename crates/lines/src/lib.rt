// A stored line: what goes in is read from its front, field by field, and what comes out is compared with the fields behind that, or taken off
// as it is written. A field is read as far as it goes: a number by the digits in front, a list by the whole elements in front.
#![tactic(auto)]

ghost use Rattle.std.specs.Prelude.{ℕ, ◌≡◌, ◌≢◌, ◌<◌, ◌==◌, if◌then◌else◌, List, [], ◌∷◌, ◌++◌, length, Some, None, IsOk, OnErr};

use std::fmt;
use std::fmt::{Display, Formatter, Write};

// Of a number no more digits are read.
const MOST_DIGITS: usize = 20;

// A line whose call comes out otherwise.
#[derive(Drop)]
pub struct Otherwise;

impl From<fmt::Error> for Otherwise {
    fn from(_error: fmt::Error) -> Otherwise {
        Otherwise
    }
}

// What of a line is still to be read, compared or written.
#[derive(Drop)]
pub struct Line<'a> {
    rest: &'a [u8],
}

impl<'a> Line<'a> {
    pub fn new(rest: &'a [u8]) -> Line<'a> {
        Line { rest }
    }

    // The next field, with the space behind it. Where none is left, it is empty.
    pub fn field(&mut self) -> &'a [u8] {
        let space = self.rest.iter().position(|character| *character == b' ');
        let end = space.unwrap_or(self.rest.len());
        let field = self.rest.get(..end).unwrap_or(&[]);
        self.rest = self.rest.get(end + 1..).unwrap_or(&[]);
        field
    }

    // A number modulo 2^64, and 0 where no digit stands in front.
    pub fn number(&mut self) -> u64 {
        number(10, digits(10, MOST_DIGITS, self.field()))
    }

    // The same modulo 2^32.
    pub fn number_32(&mut self) -> u32 {
        (self.number() % 4294967296) as u32
    }

    pub fn place(&mut self) -> usize {
        self.number() as usize
    }

    // The part of `out` that a list fills.
    pub fn list<'b, E: Element>(&mut self, out: &'b mut [E]) -> Result<&'b mut [E], Otherwise>
    where
        E::Error: Drop,
    {
        let field = self.field();
        let elements = digits(16, field.len(), field).chunks_exact(E::digits());
        let count = elements.len().min(out.len());
        let (list, _) = out.split_at_mut_checked(count).ok_or(Otherwise)?;
        for (element, digits) in list.iter_mut().zip(elements) {
            *element = E::try_from(number(16, digits)).map_err(|_| Otherwise)?;
        }
        Ok(list)
    }

    // Pieces stand at every sixteenth place, whatever ends the field: each is what digits stand in front there.
    pub fn pieces(&mut self, out: &mut [u64]) {
        for (piece, text) in out.iter_mut().zip(self.rest.chunks(16)) {
            *piece = number(16, digits(16, 16, text));
        }
        self.field();
    }

    // Whether so many fields are left.
    pub fn has_fields(&self, count: usize) -> bool {
        count <= self.rest.split(|character| *character == b' ').count()
    }

    // Refused where the next field is another word.
    pub fn expect(&mut self, word: &[u8]) -> Result<(), Otherwise> {
        agreed(self.field() == word)
    }

    // Refused where the next fields are other numbers, by their values.
    pub fn expect_numbers(&mut self, values: &[u64]) -> Result<(), Otherwise> {
        for value in values {
            agreed(is_number(10, MOST_DIGITS, self.field(), *value))?;
        }
        Ok(())
    }

    // Refused where the next field is another list, `.` for none.
    pub fn expect_list<E: Element>(&mut self, list: &[E]) -> Result<(), Otherwise> {
        let field = self.field();
        if list.is_empty() {
            return agreed(matches!(field, [b'.']));
        }
        let size = E::digits();
        let elements = field.chunks_exact(size);
        agreed(elements.len() == list.len() && elements.remainder().is_empty())?;
        for (element, text) in list.iter().zip(elements) {
            agreed(is_number(16, size, text, (*element).into()))?;
        }
        Ok(())
    }

    // Refused while something is left.
    pub fn end(self) -> Result<(), Otherwise> {
        agreed(self.rest.is_empty())
    }
}

// Writing takes the text off the line's front. Where another stands there, it is refused, and nothing is taken.
impl Write for Line<'_> {
    ghost write_str_gives = { λ line text left. line.rest.now ≡ text ++ left.rest.now };

    fn write_str(&mut self, text: &str) -> fmt::Result
        ensures ok { IsOk result → self.old.rest.now ≡ text.now ++ self.new.rest.now }
        ensures refused { OnErr result ((rest : List ℕ) → self.old.rest.now ≢ text.now ++ rest) }
        ensures kept { OnErr result (self.new ≡ self.old) }
    {
        let Some(rest) = self.rest.strip_prefix(text.as_bytes()) else {
            return Err(fmt::Error);
        };
        self.rest = rest;
        Ok(())
    }
}

pub fn agreed(agrees: bool) -> Result<(), Otherwise> {
    if agrees { Ok(()) } else { Err(Otherwise) }
}

// A number of a list.
pub trait Element: Copy + Into<u64> + TryFrom<u64> {
    // How many digits of base 16 it has.
    fn digits() -> usize
        ensures { 0 < result };
}

impl Element for u8 {
    fn digits() -> usize {
        2
    }
}

impl Element for u32 {
    fn digits() -> usize {
        8
    }
}

impl Element for u64 {
    fn digits() -> usize {
        16
    }
}

// A list as a line has it, `.` for none.
#[derive(Drop)]
pub struct Elements<'a, E>(pub &'a [E]);

impl<E: Element> Display for Elements<'_, E> {
    // 46 is the full stop. What tells how an element is written is its type, so of more there is no clause.
    ghost output = { λ list. if length list.0.now == 0 then Some (46 ∷ []) else None };

    fn fmt<W: Write>(&self, f: &mut Formatter<W>) -> fmt::Result {
        if self.0.is_empty() {
            return f.write_str(".");
        }
        let size = E::digits();
        for element in self.0 {
            let number: u64 = (*element).into();
            write!(f, "{number:0size$x}")?;
        }
        Ok(())
    }
}

// The value of a digit of any base up to 16. No capital is a digit.
fn digit(character: u8) -> Option<u64> {
    match character {
        b'0'..=b'9' => Some(u64::from(character - b'0')),
        b'a'..=b'f' => Some(u64::from(character - b'a' + 10)),
        _ => None,
    }
}

// The digits that a text begins with, so many at most.
fn digits(base: u64, most: usize, text: &[u8]) -> &[u8] {
    let text = text.get(..most).unwrap_or(text);
    let count = text
        .iter()
        .position(|character| digit(*character).filter(|digit| *digit < base).is_none())
        .unwrap_or(text.len());
    text.get(..count).unwrap_or(text)
}

// The number of digits, modulo 2^64.
fn number(base: u64, digits: &[u8]) -> u64 {
    digits.iter().fold(0, |number, character| {
        number
            .wrapping_mul(base)
            .wrapping_add(digit(*character).unwrap_or(0))
    })
}

// Whether a text is a number, all of it digits, so many at most.
fn is_number(base: u64, most: usize, text: &[u8], value: u64) -> bool {
    let digits = digits(base, most, text);
    !digits.is_empty() && digits.len() == text.len() && number(base, digits) == value
}

#[cfg(test)]
mod tests {
    use super::*;

    fn written<E: Element>(text: &[u8], number: u64, list: &[E]) -> Result<(), Otherwise> {
        let mut line = Line::new(text);
        write!(line, "= {number} ")?;
        line.write_str("b ")?;
        write!(line, "{}", Elements(list))?;
        line.end()
    }

    #[test]
    fn text_is_taken_off_the_front(rt: HostRuntime) {
        assert!(rt; written(b"= 7 b 0aff", 7, &[10u8, 255]).is_ok());
        assert!(rt; written(b"= 0 b 0000000affffffff", 0, &[10u32, 4294967295]).is_ok());
        assert!(rt; written(b"= 0 b 000000000000000a", 0, &[10u64]).is_ok());
        assert!(rt; written(b"= 0 b .", 0, &[0u8; 0]).is_ok());
    }

    #[test]
    fn another_text_is_refused(rt: HostRuntime) {
        for text in ["= 7 b 0aff ", "= 7 b 0af", "= 07 b 0aff", "= 7 b 0AFF"] {
            assert!(rt;
                written(text.as_bytes(), 7, &[10u8, 255]).is_err(),
                "{text}"
            );
        }
        let mut line = Line::new(b"= 1");
        assert!(rt; line.write_str("= 2").is_err());
        assert!(rt; line.write_str("= 1").is_ok(), "nothing was taken");
        assert!(rt; line.end().is_ok());
    }
}
