// What each call gives back, as an answer of numbers: the answers that are more than a result. A result is made flat
// where its call is made, by `map_or_else`.
#![tactic(auto)]

ghost use Rattle.std.specs.Prelude.{◌≡◌};
ghost use Rattle.buulset_flat.specs.Flat.{flat_printed, flat_answer, flat_choice, flat_line, flat_text};

use buulset_answers::{Answer, Choice, Line, Text, chosen, counted, laid_line, no_line, read};
use certificate_choice::Chosen;
use file_convert::Printed;
use file_line::{Cursor, Frame};
use table::{Question, Rejection};

// Flattens what `file_convert::output` answers. Without room for what is printed it is refused with 10, and nothing is
// laid down.
pub fn flat_printed(answer: Printed) -> Answer
    ensures { result ≡ flat_printed answer }
{
    match answer {
        Printed::File(length) => counted(length),
        Printed::Line(rejection, length) => laid_line(rejection, length),
        Printed::NoRoom => Question::ShortBuffer.at(0).into(),
    }
}

// Flattens a search's answer.
pub fn flat_answer(answer: methods::Answer) -> Answer
    ensures { result ≡ flat_answer answer }
{
    match answer {
        methods::Answer::Found(found) => found.into(),
        methods::Answer::Spent(spent) => spent.into(),
        methods::Answer::Rejected(rejection) => rejection.into(),
    }
}

// Flattens a choice, with the number of its flags.
pub fn flat_choice(answer: Result<Chosen, Rejection>, count: usize) -> Choice
    ensures { result ≡ flat_choice answer count }
{
    match answer {
        Ok(Chosen::First) => chosen(1, count),
        Ok(Chosen::Second) => chosen(2, count),
        Err(rejection) => rejection.into(),
    }
}

// Flattens a line.
pub fn flat_line(line: Result<(Frame, Cursor), Cursor>) -> Line
    ensures { result ≡ flat_line line }
{
    match line {
        Ok((f, past)) => read(f, past),
        Err(cursor) => no_line(cursor),
    }
}

// A text with the layout of C.
pub fn flat_text(text: text::Text) -> Text
    ensures { result ≡ flat_text text }
{
    let text::Text { bytes, length } = text;
    Text { bytes, length }
}
