// The calls that ask about one tree, about two, or about a shape.
ghost use Rattle.std.specs.Prelude.{◌≡◌};
ghost use Rattle.cases_calls.specs.Numbers.{difference as difference_of};

use crate::print::{BestLine, Given, print_row};
use crate::tables::{TABLE_SIZE, UNLISTED, read_table};
use leaf_value::least_value;
use least_count::least_leaves;
use std::io;
use std::io::Write;
use table::MAX_TABLE;

// No wanted value of a case is as far from zero as this.
const MOST: u32 = 1000000;

// How many entries the list for a best line has.
const LINE_ENTRIES: usize = 32;

// The smallest value of a node for the wanted value `plus` less `minus`, on so many bytes of the table: zeros follow
// the frames of the file.
pub fn print_least_value<W: Write>(
    out: &mut W,
    file: &[u8],
    size: u32,
    node: u32,
    plus: u32,
    minus: u32,
) -> io::Result<()> {
    let mut table = [0u8; TABLE_SIZE];
    read_table(file, &mut table);
    let end = (size as usize).min(table.len());
    let least = least_value(&table[..end], node as usize, difference(plus, minus));
    writeln!(out, "least_value {}", Given(least))
}

// The difference of two numbers, of their last six digits.
fn difference(plus: u32, minus: u32) -> i32
    ensures { result ≡ difference_of plus minus }
{
    (plus % MOST) as i32 - (minus % MOST) as i32
}

// The least count of a width and a depth.
pub fn print_regular<W: Write>(out: &mut W, width: u32, depth: u32) -> io::Result<()> {
    let least = least_leaves(width as usize, depth as usize);
    writeln!(out, "least {}", Given(least))
}

// The graft at a node of the tree of the file's first bytes; the tree of the rest takes its place.
pub fn print_graft<W: Write>(out: &mut W, file: &[u8], bytes: u32, node: u32) -> io::Result<()> {
    let (first, second) = file.split_at((bytes as usize).min(file.len()));
    let mut table = [0u8; MAX_TABLE];
    let size = read_table(first, &mut table);
    print_graft_of(out, &table[..size], node as usize, second)
}

fn print_graft_of<W: Write>(out: &mut W, first: &[u8], node: usize, file: &[u8]) -> io::Result<()> {
    let mut second = [0u8; MAX_TABLE];
    let size = read_table(file, &mut second);
    let mut result = [0u8; MAX_TABLE];
    let grafted = graft::graft(first, node, &second[..size], &mut result);
    writeln!(out, "graft {}", Given(grafted))
}

// The best line of the file's table, and what the lent list holds then.
pub fn print_best_line<W: Write>(out: &mut W, file: &[u8]) -> io::Result<()> {
    let mut table = [0u8; TABLE_SIZE];
    let size = read_table(file, &mut table);
    let mut line = [UNLISTED; LINE_ENTRIES];
    let best = best_line::line(&table[..size], &mut line).map(BestLine);
    writeln!(out, "best {}", Given(best))?;
    print_row(out, "line", &line)
}
