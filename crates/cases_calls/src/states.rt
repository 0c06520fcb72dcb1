// SSS* over a lent list of states, and what it leaves there.
use crate::print::{Answered, print_row};
use crate::tables::{FILLED, TABLE_SIZE, UNLISTED, read_table};
use sss::{State, Status};
use std::io::Write;
use std::{fmt, io};

// How many entries the lent list of states has.
const ENTRIES: usize = 8;

// The length of the lent marks, certificate and list of leaves: more, so that the list of states alone may be short.
const ROOM: usize = 12;

// SSS* with an allowance of so many leaves, on so many bytes of the table: zeros follow the frames of the file.
pub fn print_states<W: Write>(
    out: &mut W,
    file: &[u8],
    allowance: u32,
    size: u32,
) -> io::Result<()> {
    let mut table = [0u8; TABLE_SIZE];
    read_table(file, &mut table);
    let end = (size as usize).min(table.len());
    print_search(out, &table[..end], allowance as usize)
}

fn print_search<W: Write>(out: &mut W, table: &[u8], allowance: usize) -> io::Result<()> {
    let mut list = unlike_states();
    let mut evaluated = [FILLED; ROOM];
    let mut certificate = [FILLED; ROOM];
    let mut order = [UNLISTED; ROOM];
    print_row(out, "before", &list.map(Entry))?;
    let answer = sss::search(
        table,
        &mut list,
        &mut evaluated,
        &mut certificate,
        &mut order,
        allowance,
    );
    writeln!(out, "sss {}", Answered(answer))?;
    print_row(out, "after", &list.map(Entry))?;
    print_row(out, "evaluated", &evaluated)?;
    print_row(out, "certificate", &certificate)?;
    print_row(out, "order", &order)
}

// Entries that differ from one another, and from what a search leaves.
fn unlike_states() -> [State; ENTRIES] {
    [1, 2, 3, 4, 5, 6, 7, 8].map(solved)
}

// A state of a node with a merit of the same number.
fn solved(number: u16) -> State {
    State {
        node: number,
        status: Status::Solved,
        merit: i32::from(number),
    }
}

// An entry of the list: its node, its status and its merit.
#[derive(Clone, Copy)]
struct Entry(State);

impl fmt::Display for Entry {
    fn fmt<W: fmt::Write>(&self, f: &mut fmt::Formatter<W>) -> fmt::Result {
        write!(
            f,
            "{} {} {}",
            self.0.node,
            status_word(self.0.status),
            self.0.merit
        )
    }
}

fn status_word(status: Status) -> &'static str {
    match status {
        Status::Live => "live",
        Status::Solved => "solved",
    }
}
