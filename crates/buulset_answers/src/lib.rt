// The answers of the library for other languages: structs with the layout of C, and how each kind of answer is made.
// Every member of an answer that is not given is 0. A flag and a refusal are numbers: an enum cannot cross to C.
#![tactic(auto)]

ghost use Rattle.std.specs.Prelude.{◌≡◌};
ghost use Rattle.buulset_answers.specs.Answers.{result as result_of, counted as counted_of, valued as valued_of};
ghost use Rattle.buulset_answers.specs.Answers.{found as found_of, moved as moved_of, spent as spent_of};
ghost use Rattle.buulset_answers.specs.Answers.{lined as lined_of, refused as refused_of, laid_line as laid_line_of};
ghost use Rattle.buulset_answers.specs.Answers.{chosen as chosen_of, no_choice as no_choice_of};
ghost use Rattle.buulset_answers.specs.Answers.{read_line as read_of, no_line as no_line_of};

use file_line::{Cursor, Frame};
use methods::{Findings, Spent};
use plain::PlainResult;
use table::{FRAME_SIZE, Rejection};
use text::TEXT_SIZE;
use variation::LineFound;

// The answer of a call. `refused` is 0, or the number of the first question that got a "no", and then `place` is its
// place.
#[repr(C)]
#[derive(Clone, Copy, Default)]
pub struct Answer {
    pub refused: u8,
    // 1 where its allowance ended the run of SSS*
    pub spent: u8,
    // the value; of a spent allowance the merit: the root's value is at most this
    pub value: i32,
    pub place: usize,
    // what the call counts: nodes, bytes of a file, evaluated leaves, or nodes of the best line
    pub count: usize,
    pub root_move: usize,
    // passes of MTD, tests of MTD(f), replacements of SSS*
    pub steps: usize,
}

// Which of two certificates is chosen, 1 or 2, and how many flags of it count, from its front; or a refusal.
#[repr(C)]
#[derive(Clone, Copy, Default)]
pub struct Choice {
    pub refused: u8,
    pub chosen: u8,
    pub place: usize,
    pub count: usize,
}

// The children of a node: the number of the first, and how many there are; zeros where there are none.
#[repr(C)]
#[derive(Clone, Copy, Default)]
pub struct Children {
    pub first: usize,
    pub count: usize,
}

// A line: 1 in `read`, its six bytes and the position past it; or zeros and the position as it was.
#[repr(C)]
#[derive(Clone, Copy, Default)]
pub struct Line {
    pub bytes: [u8; FRAME_SIZE],
    pub read: u8,
    pub at: usize,
}

// A text: its bytes, as many as `length` says, and zeros behind them.
#[repr(C)]
#[derive(Clone, Copy)]
pub struct Text {
    pub bytes: [u8; TEXT_SIZE],
    pub length: usize,
}

// A result as an answer.
fn result(value: i16, count: usize, root_move: usize, steps: usize) -> Answer
    ensures { result ≡ result_of value count root_move steps }
{
    Answer {
        value: value as i32,
        count,
        root_move,
        steps,
        ..Answer::default()
    }
}

// A count as an answer.
pub fn counted(count: usize) -> Answer
    ensures { result ≡ counted_of count }
{
    result(0, count, 0, 0)
}

// A value as an answer.
pub fn valued(value: i16) -> Answer
    ensures { result ≡ valued_of value }
{
    result(value, 0, 0, 0)
}

// What a search finds as an answer.
impl From<Findings> for Answer {
    ghost from_gives = { λ f r. r ≡ found_of f };

    fn from(f: Findings) -> Answer {
        result(f.value, f.leaves, f.root_move, f.steps)
    }
}

// The best line as an answer: its length is the count.
impl From<LineFound> for Answer {
    ghost from_gives = { λ f r. r ≡ lined_of f };

    fn from(f: LineFound) -> Answer {
        result(f.value, f.length, f.root_move, 0)
    }
}

// What the plain engine finds as an answer.
impl From<PlainResult> for Answer {
    ghost from_gives = { λ f r. r ≡ moved_of f };

    fn from(f: PlainResult) -> Answer {
        result(f.value, 0, f.root_move, 0)
    }
}

// That an allowance is spent as an answer.
impl From<Spent> for Answer {
    ghost from_gives = { λ s r. r ≡ spent_of s };

    fn from(s: Spent) -> Answer {
        Answer {
            spent: 1,
            value: s.merit,
            count: s.leaves,
            steps: s.steps,
            ..Answer::default()
        }
    }
}

// A rejection as an answer.
impl From<Rejection> for Answer {
    ghost from_gives = { λ rejection r. r ≡ refused_of rejection };

    fn from(rejection: Rejection) -> Answer {
        laid_line(rejection, 0)
    }
}

// A rejection whose line was laid down, with the length of the line.
pub fn laid_line(rejection: Rejection, length: usize) -> Answer
    ensures { result ≡ laid_line_of rejection length }
{
    Answer {
        refused: rejection.number,
        place: rejection.place,
        count: length,
        ..Answer::default()
    }
}

// One of two certificates with the number of its flags.
pub fn chosen(which: u8, count: usize) -> Choice
    ensures { result ≡ chosen_of which count }
{
    Choice {
        chosen: which,
        count,
        ..Choice::default()
    }
}

// Neither of the two.
impl From<Rejection> for Choice {
    ghost from_gives = { λ rejection r. r ≡ no_choice_of rejection };

    fn from(rejection: Rejection) -> Choice {
        Choice {
            refused: rejection.number,
            place: rejection.place,
            ..Choice::default()
        }
    }
}

// A line that was read.
pub fn read(f: Frame, past: Cursor) -> Line
    ensures { result ≡ read_of f past }
{
    let bytes = f.bytes;
    Line {
        bytes,
        read: 1,
        at: past.at,
    }
}

// No line.
pub fn no_line(cursor: Cursor) -> Line
    ensures { result ≡ no_line_of cursor }
{
    Line {
        at: cursor.at,
        ..Line::default()
    }
}
