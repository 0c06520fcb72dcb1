// How the cases print what the calls give.
use methods::Answer;
use std::fmt::Display;
use std::io::Write;
use std::{fmt, io};
use table::Rejection;
use variation::LineFound;

// A word and the items of a row, as a line.
pub fn print_row<W: Write, T: Display>(out: &mut W, word: &str, row: &[T]) -> io::Result<()> {
    write!(out, "{word}")?;
    for item in row {
        write!(out, " {item}")?;
    }
    writeln!(out)
}

// A rejection: its word, number and place.
#[derive(Clone, Copy)]
pub struct Refused(pub Rejection);

impl Display for Refused {
    fn fmt<W: fmt::Write>(&self, f: &mut fmt::Formatter<W>) -> fmt::Result {
        write!(f, "refused {} {}", self.0.number, self.0.place)
    }
}

// What a call gives, or the rejection of its input.
#[derive(Clone, Copy)]
pub struct Given<T>(pub Result<T, Rejection>);

impl<T: Display> Display for Given<T> {
    fn fmt<W: fmt::Write>(&self, f: &mut fmt::Formatter<W>) -> fmt::Result {
        match &self.0 {
            Ok(value) => write!(f, "{value}"),
            Err(rejection) => write!(f, "{}", Refused(*rejection)),
        }
    }
}

// What a search answers: the value, the root move, and the counts of evaluated leaves and of steps; or the merit of a
// spent allowance and both counts.
#[derive(Clone, Copy)]
pub struct Answered(pub Answer);

impl Display for Answered {
    fn fmt<W: fmt::Write>(&self, f: &mut fmt::Formatter<W>) -> fmt::Result {
        match self.0 {
            Answer::Found(found) => write!(
                f,
                "{} {} {} {}",
                found.value, found.root_move, found.leaves, found.steps
            ),
            Answer::Spent(spent) => {
                write!(f, "spent {} {} {}", spent.merit, spent.leaves, spent.steps)
            }
            Answer::Rejected(rejection) => write!(f, "{}", Refused(rejection)),
        }
    }
}

// A best line: the value, the root move, and how many nodes it has.
#[derive(Clone, Copy)]
pub struct BestLine(pub LineFound);

impl Display for BestLine {
    fn fmt<W: fmt::Write>(&self, f: &mut fmt::Formatter<W>) -> fmt::Result {
        write!(f, "{} {} {}", self.0.value, self.0.root_move, self.0.length)
    }
}
