// The calls for programs in other languages, which buulset_c exports: numbers, byte slices, and answers by value. The
// comment of a call names the call of the other crates that it makes, and what it gives; every other member of the
// answer is 0.
#![tactic(auto)]

ghost use Rattle.std.specs.Prelude.{◌≡◌, [], length};
ghost use Rattle.table.specs.Rejection.{◌leaving◌};
ghost use Rattle.table.specs.Check.{checked};
ghost use Rattle.table.specs.Children.{children_of};
ghost use Rattle.file_hex.specs.Digit.{digit_of};
ghost use Rattle.file_line.specs.Line.{line_at};
ghost use Rattle.file_read.specs.File.{read_outcome};
ghost use Rattle.file_write.specs.Write.{write_outcome};
ghost use Rattle.file_convert.specs.Convert.{convert_outcome};
ghost use Rattle.file_convert.specs.Printed.{output_outcome};
ghost use Rattle.methods.specs.declared.Method.TheVariants.{AlphaBeta, Mtd, MtdFrom, Sss};
ghost use Rattle.methods.specs.Outcome.{lent, search_outcome};
ghost use Rattle.plain.specs.Outcome.{plain_outcome};
ghost use Rattle.best_line.specs.Line.{line_outcome};
ghost use Rattle.certificate_check.specs.Check.{verdict};
ghost use Rattle.certificate_choice.specs.Choice.{choice, chosen_flags};
ghost use Rattle.graft.specs.Outcome.{graft_outcome};
ghost use Rattle.leaf_value.specs.LeastValue.{least_value};
ghost use Rattle.worst_fill.specs.Outcome.{fill_outcome};
ghost use Rattle.least_count.specs.Answer.{least_answer};
ghost use Rattle.analysis.specs.Report.{report};
ghost use Rattle.text.specs.Text.{refused_line, text_of};
ghost use Rattle.buulset_answers.specs.Answers.{counted, valued, lined, moved};
ghost use Rattle.buulset_flat.specs.Flat.{flat, flat_printed, flat_answer, flat_choice};
ghost use Rattle.buulset_flat.specs.Flat.{flat_line, flat_text};
ghost use Rattle.buulset.specs.Version.{version};
ghost use Rattle.buulset.specs.Children.{flat_children, part_of};
ghost use Rattle.buulset.specs.Outcome.{flat_by};

use buulset_answers::{Answer, Children, Choice, Line, Text, counted, valued};
use buulset_flat::{flat_answer, flat_choice, flat_line, flat_printed, flat_text};
use search::Method;
use table::{FRAME_SIZE, Rejection};

// The version of these declarations, as 10,000 times the major, plus 100 times the minor, plus the patch number.
const VERSION: u32 = 20000;

// The version of the library.
pub fn buulset_version() -> u32
    ensures { result ≡ version }
{
    VERSION
}

// `file::read`: the file's frames in the table; `count` is the number of nodes.
pub fn buulset_read(file: &[u8], table: &mut [u8]) -> Answer
    ensures { result leaving table.new
        ≡ flat_by (flat counted) (read_outcome file.now table.old) }
{
    file::read(file, table).map_or_else(Answer::from, counted)
}

// `file::Cursor::read_line`: one line of a file, from a position on.
pub fn buulset_read_line(file: &[u8], at: usize) -> Line
    ensures { result ≡ flat_line (line_at file.now at) }
{
    let cursor = file::Cursor { at };
    flat_line(cursor.read_line(file))
}

// `file::digit`.
pub fn buulset_digit(byte: u8) -> u8
    ensures { result ≡ digit_of byte }
{
    file::digit(byte)
}

// `file::write`: the table's file in the buffer; `count` is its length in bytes.
pub fn buulset_write(table: &[u8], file: &mut [u8]) -> Answer
    ensures { result leaving file.new
        ≡ flat_by (flat counted) (write_outcome table.now file.old) }
{
    file::write(table, file).map_or_else(Answer::from, counted)
}

// `file_convert::convert`: the file with capitals in the buffer; `count` is its length in bytes.
pub fn buulset_convert(file: &[u8], converted: &mut [u8]) -> Answer
    ensures { result leaving converted.new
        ≡ flat_by (flat counted) (convert_outcome file.now converted.old) }
{
    file_convert::convert(file, converted).map_or_else(Answer::from, counted)
}

// `file_convert::output`: what `capitals` prints for the file in the buffer; `count` is its length in bytes. Where it
// is the line of a refusal, that refusal is the answer's.
pub fn buulset_capitals(file: &[u8], printed: &mut [u8]) -> Answer
    ensures { result leaving printed.new
        ≡ flat_by flat_printed (output_outcome file.now printed.old) }
{
    flat_printed(file_convert::output(file, printed))
}

// `table_check::check`: `count` is the number of nodes.
pub fn buulset_check(table: &[u8]) -> Answer
    ensures { result ≡ flat counted (checked table.now) }
{
    table_check::check(table).map_or_else(Answer::from, counted)
}

// `table::children`: the part of the table that it hands back, as the number of its first frame and of its frames.
pub fn buulset_children(table: &[u8], node: usize) -> Children
    ensures { (result ≡ flat_children table.now node)
        × (children_of table.now node ≡ part_of table.now result) }
{
    let count = table::children(table, node).len() / FRAME_SIZE;
    if count == 0 {
        return Children::default();
    }
    Children {
        first: table::first_child(table, node),
        count,
    }
}

// `search::search` by alpha-beta: `count` is the number of evaluated leaves.
pub fn buulset_alphabeta(
    table: &[u8],
    evaluated: &mut [u8],
    certificate: &mut [u8],
    order: &mut [u16],
) -> Answer
    ensures { result leaving lent evaluated.new certificate.new order.new
        ≡ flat_by flat_answer (search_outcome AlphaBeta table.now
        (lent evaluated.old certificate.old order.old)) }
{
    let method = Method::AlphaBeta;
    flat_search(method, table, evaluated, certificate, order)
}

// `search::search` by MTD; `steps` are its passes.
pub fn buulset_mtd(
    table: &[u8],
    evaluated: &mut [u8],
    certificate: &mut [u8],
    order: &mut [u16],
) -> Answer
    ensures { result leaving lent evaluated.new certificate.new order.new
        ≡ flat_by flat_answer (search_outcome Mtd table.now
        (lent evaluated.old certificate.old order.old)) }
{
    let method = Method::Mtd;
    flat_search(method, table, evaluated, certificate, order)
}

// `search::search` by MTD(f) from the value `start`; `steps` are its tests of the root.
pub fn buulset_mtdf(
    table: &[u8],
    start: i32,
    evaluated: &mut [u8],
    certificate: &mut [u8],
    order: &mut [u16],
) -> Answer
    ensures { result leaving lent evaluated.new certificate.new order.new
        ≡ flat_by flat_answer (search_outcome (MtdFrom start) table.now
        (lent evaluated.old certificate.old order.old)) }
{
    let method = Method::MtdFrom(start);
    flat_search(method, table, evaluated, certificate, order)
}

// `search::search` by SSS*; `steps` are its replacements. Where the allowance is spent, `value` is the merit.
pub fn buulset_sss(
    table: &[u8],
    evaluated: &mut [u8],
    certificate: &mut [u8],
    order: &mut [u16],
    allowance: usize,
) -> Answer
    ensures { result leaving lent evaluated.new certificate.new order.new
        ≡ flat_by flat_answer (search_outcome (Sss allowance) table.now
        (lent evaluated.old certificate.old order.old)) }
{
    let method = Method::Sss(allowance);
    flat_search(method, table, evaluated, certificate, order)
}

// The search by a method, with its answer made flat.
fn flat_search(
    method: Method,
    table: &[u8],
    evaluated: &mut [u8],
    certificate: &mut [u8],
    order: &mut [u16],
) -> Answer
    ensures { result leaving lent evaluated.new certificate.new order.new
        ≡ flat_by flat_answer (search_outcome method table.now
        (lent evaluated.old certificate.old order.old)) }
{
    flat_answer(search::search(method, table, evaluated, certificate, order))
}

// `plain::search`: value, root move.
pub fn buulset_plain(table: &[u8], evaluated: &mut [u8], certificate: &mut [u8]) -> Answer
    ensures { result leaving lent evaluated.new certificate.new []
        ≡ flat_by (flat moved) (plain_outcome table.now
        (lent evaluated.old certificate.old [])) }
{
    plain::search(table, evaluated, certificate).map_or_else(Answer::from, Answer::from)
}

// `best_line::line`: value, root move, and in `count` the number of nodes of the best line, which stand at the list's
// front, the root first.
pub fn buulset_line(table: &[u8], line: &mut [u16]) -> Answer
    ensures { result leaving line.new
        ≡ flat_by (flat lined) (line_outcome table.now line.old) }
{
    best_line::line(table, line).map_or_else(Answer::from, Answer::from)
}

// `certificate_check::check`: `value` is what the certificate certifies.
pub fn buulset_verify(table: &[u8], certificate: &[u8]) -> Answer
    ensures { result ≡ flat valued (verdict table.now certificate.now) }
{
    certificate_check::check(table, certificate).map_or_else(Answer::from, valued)
}

// `certificate_choice::select`, by its two parts: which certificate, and the length of what is handed back of it.
pub fn buulset_shorter<'a>(table: &[u8], first: &'a [u8], second: &'a [u8]) -> Choice
    ensures { result ≡ flat_choice (choice table.now first.now second.now)
        (length (chosen_flags table.now first.now second.now)) }
{
    let chosen = certificate_choice::choose(table, first, second);
    flat_choice(
        chosen,
        certificate_choice::flags(table, first, second, chosen).len(),
    )
}

// `graft::graft`: the result's table in the buffer; `count` is its number of nodes.
pub fn buulset_graft(first: &[u8], node: usize, second: &[u8], res: &mut [u8]) -> Answer
    ensures { result leaving res.new
        ≡ flat_by (flat counted) (graft_outcome first.now node second.now res.old) }
{
    graft::graft(first, node, second, res).map_or_else(Answer::from, counted)
}

// `leaf_value::least_value`: `value` is the leaf's.
pub fn buulset_least_value(table: &[u8], node: usize, wanted: i32) -> Answer
    ensures { result ≡ flat valued (least_value table.now node wanted) }
{
    leaf_value::least_value(table, node, wanted).map_or_else(Answer::from, valued)
}

// `worst_fill::fill`: the ranks in the table; `count` is the number of leaves.
pub fn buulset_fill(table: &mut [u8]) -> Answer
    ensures { result leaving table.new ≡ flat_by (flat counted) (fill_outcome table.old) }
{
    worst_fill::fill(table).map_or_else(Answer::from, counted)
}

// `least_count::least_leaves`: `count` is the number of leaves.
pub fn buulset_least_leaves(width: usize, depth: usize) -> Answer
    ensures { result ≡ flat counted (least_answer width depth) }
{
    least_count::least_leaves(width, depth)
        .map(usize::from)
        .map_or_else(Answer::from, counted)
}

// `analysis::write`.
pub fn buulset_report(file: &[u8]) -> Text
    ensures { result ≡ flat_text (text_of (report file.now)) }
{
    flat_text(analysis::write(file))
}

// `text::refused`.
pub fn buulset_refused(number: u8, place: usize) -> Text
    ensures { result ≡ flat_text (text_of (refused_line (record { number = number; place = place }))) }
{
    flat_text(text::refused(Rejection { number, place }))
}
