// The program's report: what it prints for a file, written piece by piece and returned by value.
#![tactic(auto)]

ghost use Rattle.std.specs.Prelude.{◌≡◌};
ghost use Rattle.table.specs.Formed.{WellFormed};
ghost use Rattle.text.specs.Text.{HasRoom, pushed, text_of};
ghost use Rattle.analysis.specs.Engine.Lines.{answer_line, analysis};
ghost use Rattle.analysis.specs.Report.{report};

use search::{Answer, Method, find};
use table::{FRAME_SIZE, MAX_NODES, MAX_TABLE};
use table_positions::fill;
use text::LINE_FEED;
pub use text::{TEXT_SIZE, Text, refused};

// The report of a file: the analysis of its tree, or the line of its rejection.
pub fn write(file: &[u8]) -> Text
    ensures { result ≡ text_of (report file.now) }
{
    let mut table = [0u8; MAX_TABLE];
    match file::read(file, &mut table) {
        Ok(nodes) => {
            let end = FRAME_SIZE * nodes;
            analyse(&table[..end])
        }
        Err(rejection) => refused(rejection),
    }
}

// The heading and the line of each method. No tree has more leaves than SSS* is allowed. There are three calls and no
// loop, so that the list of calls (`checks/doors`) shows that the report runs each search once.
#[tactic(auto, using(crate::proofs::Searches::searching), unfolding(text::specs::Text::text_of))]
fn analyse(table: &[u8]) -> Text
    requires { WellFormed table.now }
    ensures { result ≡ text_of (analysis table.now) }
{
    let mut positions = [0u32; MAX_NODES];
    let mut evaluated = [0u8; MAX_NODES];
    let mut order = [0u16; MAX_NODES];
    fill(table, &mut positions);
    let mut text = Text::new();
    text.push_bytes(b"method value move leaves\n");
    let ab = find(
        Method::AlphaBeta,
        table,
        &positions,
        &mut evaluated,
        &mut order,
    );
    push_line(&mut text, b"ab", ab);
    let mtd = find(Method::Mtd, table, &positions, &mut evaluated, &mut order);
    push_line(&mut text, b"mtd", mtd);
    let sss = find(
        Method::Sss(MAX_NODES),
        table,
        &positions,
        &mut evaluated,
        &mut order,
    );
    push_line(&mut text, b"sss", sss);
    text
}

// A method's line, by its name and its answer: there is none where nothing was found.
#[tactic(auto, using(text::proofs::Pushing::pushing))]
fn push_line(text: &mut Text, name: &[u8], answer: Answer)
    requires { HasRoom text.old (answer_line name.now answer) }
    ensures { text.new ≡ pushed text.old (answer_line name.now answer) }
{
    if let Answer::Found(findings) = answer {
        text.push_bytes(name);
        text.push_value(findings.value);
        text.push_count(findings.root_move);
        text.push_count(findings.leaves);
        text.push(LINE_FEED);
    }
}
