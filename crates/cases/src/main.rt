// Runs the cases of standard input and prints their results. A case is a line with its title, the bytes of a file, and
// a line with a call and its numbers; without that line it is the file's report (checks/README.md).
#![tactic(auto)]

mod made;
mod numbers;

use cases_calls::certificates::{NUMBERS, print_choice_of};
use cases_calls::questions::{print_best_line, print_graft, print_least_value, print_regular};
use cases_calls::states::print_states;
use input::LARGE;
use made::{print_largest, print_report, print_too_large};
use numbers::read_numbers;
use std::io;
use std::io::{ErrorKind, Write};
use text::LINE_FEED;

// What a title and a call start with.
const TITLE: u8 = b'#';

const CALL: u8 = b'@';

fn main(rt: HostRuntime) -> io::Result<()> {
    let mut out = rt.stdout();
    print_largest(&mut out)?;
    print_too_large(&mut out)?;
    let mut input = [0u8; LARGE];
    let read = input::read_all(&mut rt.stdin(), &mut input);
    let size = read.map_err(|_| io::Error::from(ErrorKind::Other))?;
    print_cases(&mut out, &input[..size])
}

// Every case of the input, in order: each ends where the next title starts.
fn print_cases<W: Write>(out: &mut W, input: &[u8]) -> io::Result<()> {
    for case in input.chunk_by(|_, next| *next != TITLE) {
        print_case(out, case)?;
    }
    Ok(())
}

// The title of a case, and what its call gives. Without a line feed after the title there is no case.
fn print_case<W: Write>(out: &mut W, case: &[u8]) -> io::Result<()> {
    let Some(title) = case.iter().position(|byte| *byte == LINE_FEED) else {
        return Ok(());
    };
    let (title, rest) = case.split_at(title + 1);
    let call = rest
        .iter()
        .position(|byte| *byte == CALL)
        .unwrap_or(rest.len());
    let (file, call) = rest.split_at(call);
    out.write_all(title)?;
    print_answer(out, file, call)
}

// What a call gives for a file, by the first letter of its name; the file's report where there is no call.
fn print_answer<W: Write>(out: &mut W, file: &[u8], call: &[u8]) -> io::Result<()> {
    let mut numbers = [0u32; NUMBERS];
    let count = read_numbers(call, &mut numbers);
    let [first, second, third, fourth, ..] = numbers;
    match call.get(1) {
        Some(b'p') => print_choice_of(out, file, &numbers[..count]),
        Some(b's') => print_states(out, file, first, second),
        Some(b'b') => print_best_line(out, file),
        Some(b'g') => print_graft(out, file, first, second),
        Some(b'l') => print_least_value(out, file, first, second, third, fourth),
        Some(b'r') => print_regular(out, first, second),
        _ => print_report(out, file),
    }
}
