// The choice between two certificates.
ghost use Rattle.cases_calls.specs.Sizes.{IsPrefixLen};

use crate::print::{Given, print_row};
use crate::tables::{TABLE_SIZE, read_table};
use certificate_choice::{Chosen, Selection};
use std::io;
use std::io::Write;

// How many numbers a call may have; here they are flags, and the first says how many of them one certificate has.
pub const NUMBERS: usize = 80;

// Which of two certificates is chosen, of flags that are given: before them stands how many the first one has.
pub fn print_choice_of<W: Write>(out: &mut W, file: &[u8], numbers: &[u32]) -> io::Result<()> {
    let mut flags = [0u8; NUMBERS];
    let count = copy_flags(numbers, &mut flags);
    let mut table = [0u8; TABLE_SIZE];
    let size = read_table(file, &mut table);
    print_pair(out, &table[..size], &flags[..count])
}

// The numbers as flags; how many they are.
fn copy_flags(numbers: &[u32], flags: &mut [u8]) -> usize
    ensures { IsPrefixLen result flags.new }
{
    for (flag, number) in flags.iter_mut().zip(numbers) {
        *flag = (number % 256) as u8;
    }
    numbers.len().min(flags.len())
}

// The two certificates taken apart; nothing is printed where the first has fewer flags than said.
fn print_pair<W: Write>(out: &mut W, table: &[u8], flags: &[u8]) -> io::Result<()> {
    let [count, flags @ ..] = flags else {
        return Ok(());
    };
    match flags.split_at_checked(usize::from(*count)) {
        Some((first, second)) => print_selection(
            out,
            certificate_choice::select(table, first, second),
        ),
        None => Ok(()),
    }
}

// What the choice gives, with the flags that are handed back.
fn print_selection<W: Write>(out: &mut W, selection: Selection<'_>) -> io::Result<()> {
    let word = selection.choice.map(|chosen| match chosen {
        Chosen::First => "first",
        Chosen::Second => "second",
    });
    writeln!(out, "shorter {}", Given(word))?;
    print_row(out, "flags", selection.flags)
}
