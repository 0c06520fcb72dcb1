// The program: reads a tree file from standard input, lifts its letters a to f to capitals, and writes its tree's file
// to standard output, or, where the file is still refused, the line of the refusal.
#![tactic(auto)]

use file::MAX_FILE;
use file_convert::length_printed;
use input::LARGE;
use std::io;
use std::io::Write;

// If a read fails there is no file to judge: one line goes to standard error. There is room for 65,536 bytes, more than
// a file may have, so a longer file is refused as too long and never cut to one that passes.
fn main(rt: HostRuntime) -> io::Result<()> {
    let mut file = [0u8; LARGE];
    match input::read_all(&mut rt.stdin(), &mut file) {
        Ok(size) => print_converted(&mut rt.stdout(), &file[..size]),
        Err(_) => eprintln!(rt; "capitals: standard input cannot be read"),
    }
}

// The converted file, or the refusal; there is room for either.
fn print_converted<W: Write>(out: &mut W, file: &[u8]) -> io::Result<()> {
    let mut text = [0u8; MAX_FILE];
    let printed = file_convert::output(file, &mut text);
    let end = length_printed(printed);
    out.write_all(&text[..end])
}
