// The best line of play of a table, in one call: SSS* finds a certificate, and the line is read off it.
#![tactic(auto)]

ghost use Rattle.std.specs.Prelude.{◌≡◌, ◌++◌, ◌≤◌, length, drop};
ghost use Rattle.table.specs.Frame.{frames};
ghost use Rattle.table.specs.Check.{Accepted};
ghost use Rattle.table.specs.Rejection.{◌leaving◌};
ghost use Rattle.best_line.specs.Line.{line_found, best_line_of, line_outcome};
ghost use Rattle.best_line.specs.Engine.Parts.{nothing_in, found_in, line_length};

use certificate_write::ask;
use search::{Answer, Method, search};
use table::{MAX_NODES, Rejection};
pub use variation::LineFound;
use variation::principal;

// Questions 1 to 9 of the table and 10 of the lent list, then the value, and the nodes of the best line of play, the
// root first, in the first entries of the list; after a rejection the list is as it was.
pub fn line(table: &[u8], line: &mut [u16]) -> Result<LineFound, Rejection>
    ensures { result leaving line.new ≡ line_outcome table.now line.old }
{
    ask(table, line.len())?;
    Ok(find(table, line))
}

// The line of an accepted table, into a list with an entry per node. No tree has more leaves than SSS* is allowed.
fn find(table: &[u8], line: &mut [u16]) -> LineFound
    requires { Accepted table.now × (frames table.now ≤ length line.old) }
    ensures value { result ≡ line_found table.now }
    ensures line_after { line.new ≡ best_line_of table.now ++ drop result.length line.old }
{
    let mut evaluated = [0u8; MAX_NODES];
    let mut certificate = [0u8; MAX_NODES];
    let mut order = [0u16; MAX_NODES];
    let answer = search(
        Method::Sss(MAX_NODES),
        table,
        &mut evaluated,
        &mut certificate,
        &mut order,
    );
    let given = principal(table, &certificate, line);
    let length = line_length(given);
    found(answer, length)
}

// What was found, with a line of this length; nothing where the answer has no findings.
fn found(answer: Answer, length: usize) -> LineFound
    ensures { result ≡ found_in answer length }
{
    match answer {
        Answer::Found(findings) => LineFound {
            value: findings.value,
            root_move: findings.root_move,
            length,
        },
        Answer::Spent(_) => nothing(length),
        Answer::Rejected(_) => nothing(length),
    }
}

// No value and no move.
fn nothing(length: usize) -> LineFound
    ensures { result ≡ nothing_in length }
{
    LineFound {
        value: 0,
        root_move: 0,
        length,
    }
}

// The length of a line that was given; 0 where none was.
fn line_length(answer: Result<usize, Rejection>) -> usize
    ensures { result ≡ line_length answer }
{
    answer.unwrap_or(0)
}
