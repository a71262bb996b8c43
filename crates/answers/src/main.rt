// Replays the stored answers (README.md beside has their format) on the proved functions. Each operation writes a line: how many
// of its calls came out as stored, or the number of the first line that did not. No stored call is left out. The answers are read from
// standard input, to its end.
#![tactic(auto)]

mod derivations;

use lines::{Line, Otherwise};
use std::fmt::{Display, Formatter};
use std::io::{Input, Read};
use std::{fmt, io};

// A longer line counts as one that comes out otherwise.
const LONGEST: usize = 32768;

#[derive(Clone, Copy, PartialEq, Eq)]
enum Operation {
    Fresh,
    Add,
    Read,
    Text,
    Compare,
    LookUp,
    Left,
    Right,
    Derive,
    Unsigned,
    Signed,
    Decimal,
    Search,
    Other,
}

impl Operation {
    const ALL: [Operation; 14] = [
        Operation::Fresh,
        Operation::Add,
        Operation::Read,
        Operation::Text,
        Operation::Compare,
        Operation::LookUp,
        Operation::Left,
        Operation::Right,
        Operation::Derive,
        Operation::Unsigned,
        Operation::Signed,
        Operation::Decimal,
        Operation::Search,
        Operation::Other,
    ];

    // Reads who answered, and the operation.
    fn read(line: &mut Line) -> Result<Operation, Otherwise> {
        line.field();
        let name = line.field();
        Operation::ALL
            .into_iter()
            .find(|operation| operation.name().as_bytes() == name)
            .ok_or(Otherwise)
    }

    fn name(self) -> &'static str {
        match self {
            Operation::Fresh => "fresh",
            Operation::Add => "add",
            Operation::Read => "read",
            Operation::Text => "text",
            Operation::Compare => "compare",
            Operation::LookUp => "lookup",
            Operation::Left => "left",
            Operation::Right => "right",
            Operation::Derive => "derive",
            Operation::Unsigned => "unsigned",
            Operation::Signed => "signed",
            Operation::Decimal => "decimal",
            Operation::Search => "search",
            Operation::Other => "other",
        }
    }

    // Makes the call of a line, behind its operation.
    fn replay(self, line: &mut Line) -> Result<(), Otherwise> {
        match self {
            Operation::Fresh => calls::fresh(line),
            Operation::Add => calls::add(line),
            Operation::Read => calls::read(line),
            Operation::Text => calls::text(line),
            Operation::Compare => calls::compare(line),
            Operation::LookUp => calls::look_up(line),
            Operation::Left => derivations::left(line),
            Operation::Right => derivations::right(line),
            Operation::Derive => derivations::derive(line),
            Operation::Unsigned => calls::unsigned(line),
            Operation::Signed => calls::signed(line),
            Operation::Decimal => calls::decimal(line),
            Operation::Search => calls::search(line),
            Operation::Other => Err(Otherwise),
        }
    }
}

// What came of an operation's lines.
#[derive(Drop)]
struct Tally {
    operation: Operation,
    agreed: u64,
    // The number of the first line that comes out otherwise.
    otherwise: Option<u64>,
}

impl Tally {
    fn new(operation: Operation) -> Tally {
        Tally {
            operation,
            agreed: 0,
            otherwise: None,
        }
    }

    fn count(&mut self, number: u64, agrees: bool) {
        if agrees {
            self.agreed = self.agreed.saturating_add(1);
        } else {
            self.otherwise.get_or_insert(number);
        }
    }
}

impl Display for Tally {
    fn fmt<W: fmt::Write>(&self, f: &mut Formatter<W>) -> fmt::Result {
        let operation = self.operation.name();
        let agreed = self.agreed;
        match self.otherwise {
            None => write!(f, "{operation}: {agreed} as stored"),
            Some(number) => write!(f, "{operation}: line {number} comes out otherwise"),
        }
    }
}

fn replay_line(text: &[u8], number: u64, tallies: &mut [Tally]) {
    let mut line = Line::new(text);
    let operation = Operation::read(&mut line).unwrap_or(Operation::Other);
    let agrees = text.len() <= LONGEST && operation.replay(&mut line).is_ok() && line.end().is_ok();
    for tally in tallies {
        if tally.operation == operation {
            tally.count(number, agrees);
        }
    }
}

fn main(rt: HostRuntime) -> io::Result<()> {
    let mut text = Vec::new(rt.alloc());
    rt.reader().read_to_end(&mut text)?;
    let mut tallies = Operation::ALL.map(Tally::new);
    for (number, line) in (1..).zip(text.split_inclusive(|character| *character == b'\n')) {
        let line = line.strip_suffix(b"\n").unwrap_or(line);
        if !line.starts_with(b"#") {
            replay_line(line, number, &mut tallies);
        }
    }
    for tally in &tallies {
        println!(rt; "{tally}")?;
    }
    Ok(())
}
