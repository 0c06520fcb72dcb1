// The program: reads a tree file from standard input and writes its report to standard output.
#![tactic(auto)]

use input::LARGE;
use std::io;
use std::io::Write;

// If a read fails there is no file to judge: one line goes to standard error, and no report that would blame the file.
// There is room for 65,536 bytes, more than a file may have, so a longer file is refused as too long and never cut to
// one that passes.
fn main(rt: HostRuntime) -> io::Result<()> {
    let mut file = [0u8; LARGE];
    match input::read_all(&mut rt.stdin(), &mut file) {
        Ok(size) => print_report(&mut rt.stdout(), &file[..size]),
        Err(_) => eprintln!(rt; "analyse: standard input cannot be read"),
    }
}

// The text of the file's report, as far as it goes.
fn print_report<W: Write>(out: &mut W, file: &[u8]) -> io::Result<()> {
    let text = analysis::write(file);
    out.write_all(text.as_bytes())
}
