// The library for C and Rust: exports each call of buulset, under its name and with its clauses. The C interface needs
// them repeated: no crate may use a static library, so an export's own contract is all that is proved of it.
#![tactic(auto)]

ghost use Rattle.std.specs.Prelude.{◌≡◌, [], length};
ghost use Rattle.table.specs.Rejection.{◌leaving◌};
ghost use Rattle.table.specs.Check.{checked};
ghost use Rattle.table.specs.Children.{children_of};
ghost use Rattle.file_hex.specs.Digit.{digit_of};
ghost use Rattle.file_line.specs.Line.{line_at};
ghost use Rattle.file_read.specs.File.{read_outcome};
ghost use Rattle.file_write.specs.Write.{write_outcome};
ghost use Rattle.file_convert.specs.Convert.{convert_outcome};
ghost use Rattle.file_convert.specs.Printed.{output_outcome};
ghost use Rattle.methods.specs.declared.Method.TheVariants.{AlphaBeta, Mtd, MtdFrom, Sss};
ghost use Rattle.methods.specs.Outcome.{lent, search_outcome};
ghost use Rattle.plain.specs.Outcome.{plain_outcome};
ghost use Rattle.best_line.specs.Line.{line_outcome};
ghost use Rattle.certificate_check.specs.Check.{verdict};
ghost use Rattle.certificate_choice.specs.Choice.{choice, chosen_flags};
ghost use Rattle.graft.specs.Outcome.{graft_outcome};
ghost use Rattle.leaf_value.specs.LeastValue.{least_value};
ghost use Rattle.worst_fill.specs.Outcome.{fill_outcome};
ghost use Rattle.least_count.specs.Answer.{least_answer};
ghost use Rattle.analysis.specs.Report.{report};
ghost use Rattle.text.specs.Text.{refused_line, text_of};
ghost use Rattle.buulset_answers.specs.Answers.{counted, valued, lined, moved};
ghost use Rattle.buulset_flat.specs.Flat.{flat, flat_printed, flat_answer, flat_choice};
ghost use Rattle.buulset_flat.specs.Flat.{flat_line, flat_text};
ghost use Rattle.buulset.specs.Version.{version};
ghost use Rattle.buulset.specs.Children.{flat_children, part_of};
ghost use Rattle.buulset.specs.Outcome.{flat_by};

use buulset_answers::{Answer, Children, Choice, Line, Text};

// `buulset::buulset_version`.
#[unsafe(no_mangle)]
pub extern "C" fn buulset_version() -> u32
    ensures { result ≡ version }
{
    buulset::buulset_version()
}

// `buulset::buulset_read`.
#[unsafe(no_mangle)]
pub extern "C" fn buulset_read(file: &[u8], table: &mut [u8]) -> Answer
    ensures { result leaving table.new
        ≡ flat_by (flat counted) (read_outcome file.now table.old) }
{
    buulset::buulset_read(file, table)
}

// `buulset::buulset_read_line`.
#[unsafe(no_mangle)]
pub extern "C" fn buulset_read_line(file: &[u8], at: usize) -> Line
    ensures { result ≡ flat_line (line_at file.now at) }
{
    buulset::buulset_read_line(file, at)
}

// `buulset::buulset_digit`.
#[unsafe(no_mangle)]
pub extern "C" fn buulset_digit(byte: u8) -> u8
    ensures { result ≡ digit_of byte }
{
    buulset::buulset_digit(byte)
}

// `buulset::buulset_write`.
#[unsafe(no_mangle)]
pub extern "C" fn buulset_write(table: &[u8], file: &mut [u8]) -> Answer
    ensures { result leaving file.new
        ≡ flat_by (flat counted) (write_outcome table.now file.old) }
{
    buulset::buulset_write(table, file)
}

// `buulset::buulset_convert`.
#[unsafe(no_mangle)]
pub extern "C" fn buulset_convert(file: &[u8], converted: &mut [u8]) -> Answer
    ensures { result leaving converted.new
        ≡ flat_by (flat counted) (convert_outcome file.now converted.old) }
{
    buulset::buulset_convert(file, converted)
}

// `buulset::buulset_capitals`.
#[unsafe(no_mangle)]
pub extern "C" fn buulset_capitals(file: &[u8], printed: &mut [u8]) -> Answer
    ensures { result leaving printed.new
        ≡ flat_by flat_printed (output_outcome file.now printed.old) }
{
    buulset::buulset_capitals(file, printed)
}

// `buulset::buulset_check`.
#[unsafe(no_mangle)]
pub extern "C" fn buulset_check(table: &[u8]) -> Answer
    ensures { result ≡ flat counted (checked table.now) }
{
    buulset::buulset_check(table)
}

// `buulset::buulset_children`.
#[unsafe(no_mangle)]
pub extern "C" fn buulset_children(table: &[u8], node: usize) -> Children
    ensures { (result ≡ flat_children table.now node)
        × (children_of table.now node ≡ part_of table.now result) }
{
    buulset::buulset_children(table, node)
}

// `buulset::buulset_alphabeta`.
#[unsafe(no_mangle)]
pub extern "C" fn buulset_alphabeta(
    table: &[u8],
    evaluated: &mut [u8],
    certificate: &mut [u8],
    order: &mut [u16],
) -> Answer
    ensures { result leaving lent evaluated.new certificate.new order.new
        ≡ flat_by flat_answer (search_outcome AlphaBeta table.now
        (lent evaluated.old certificate.old order.old)) }
{
    buulset::buulset_alphabeta(table, evaluated, certificate, order)
}

// `buulset::buulset_mtd`.
#[unsafe(no_mangle)]
pub extern "C" fn buulset_mtd(
    table: &[u8],
    evaluated: &mut [u8],
    certificate: &mut [u8],
    order: &mut [u16],
) -> Answer
    ensures { result leaving lent evaluated.new certificate.new order.new
        ≡ flat_by flat_answer (search_outcome Mtd table.now
        (lent evaluated.old certificate.old order.old)) }
{
    buulset::buulset_mtd(table, evaluated, certificate, order)
}

// `buulset::buulset_mtdf`.
#[unsafe(no_mangle)]
pub extern "C" fn buulset_mtdf(
    table: &[u8],
    start: i32,
    evaluated: &mut [u8],
    certificate: &mut [u8],
    order: &mut [u16],
) -> Answer
    ensures { result leaving lent evaluated.new certificate.new order.new
        ≡ flat_by flat_answer (search_outcome (MtdFrom start) table.now
        (lent evaluated.old certificate.old order.old)) }
{
    buulset::buulset_mtdf(table, start, evaluated, certificate, order)
}

// `buulset::buulset_sss`.
#[unsafe(no_mangle)]
pub extern "C" fn buulset_sss(
    table: &[u8],
    evaluated: &mut [u8],
    certificate: &mut [u8],
    order: &mut [u16],
    allowance: usize,
) -> Answer
    ensures { result leaving lent evaluated.new certificate.new order.new
        ≡ flat_by flat_answer (search_outcome (Sss allowance) table.now
        (lent evaluated.old certificate.old order.old)) }
{
    buulset::buulset_sss(table, evaluated, certificate, order, allowance)
}

// `buulset::buulset_plain`.
#[unsafe(no_mangle)]
pub extern "C" fn buulset_plain(
    table: &[u8],
    evaluated: &mut [u8],
    certificate: &mut [u8],
) -> Answer
    ensures { result leaving lent evaluated.new certificate.new []
        ≡ flat_by (flat moved) (plain_outcome table.now
        (lent evaluated.old certificate.old [])) }
{
    buulset::buulset_plain(table, evaluated, certificate)
}

// `buulset::buulset_line`.
#[unsafe(no_mangle)]
pub extern "C" fn buulset_line(table: &[u8], line: &mut [u16]) -> Answer
    ensures { result leaving line.new
        ≡ flat_by (flat lined) (line_outcome table.now line.old) }
{
    buulset::buulset_line(table, line)
}

// `buulset::buulset_verify`.
#[unsafe(no_mangle)]
pub extern "C" fn buulset_verify(table: &[u8], certificate: &[u8]) -> Answer
    ensures { result ≡ flat valued (verdict table.now certificate.now) }
{
    buulset::buulset_verify(table, certificate)
}

// `buulset::buulset_shorter`.
#[unsafe(no_mangle)]
pub extern "C" fn buulset_shorter<'a>(table: &[u8], first: &'a [u8], second: &'a [u8]) -> Choice
    ensures { result ≡ flat_choice (choice table.now first.now second.now)
        (length (chosen_flags table.now first.now second.now)) }
{
    buulset::buulset_shorter(table, first, second)
}

// `buulset::buulset_graft`.
#[unsafe(no_mangle)]
pub extern "C" fn buulset_graft(first: &[u8], node: usize, second: &[u8], res: &mut [u8]) -> Answer
    ensures { result leaving res.new
        ≡ flat_by (flat counted) (graft_outcome first.now node second.now res.old) }
{
    buulset::buulset_graft(first, node, second, res)
}

// `buulset::buulset_least_value`.
#[unsafe(no_mangle)]
pub extern "C" fn buulset_least_value(table: &[u8], node: usize, wanted: i32) -> Answer
    ensures { result ≡ flat valued (least_value table.now node wanted) }
{
    buulset::buulset_least_value(table, node, wanted)
}

// `buulset::buulset_fill`.
#[unsafe(no_mangle)]
pub extern "C" fn buulset_fill(table: &mut [u8]) -> Answer
    ensures { result leaving table.new ≡ flat_by (flat counted) (fill_outcome table.old) }
{
    buulset::buulset_fill(table)
}

// `buulset::buulset_least_leaves`.
#[unsafe(no_mangle)]
pub extern "C" fn buulset_least_leaves(width: usize, depth: usize) -> Answer
    ensures { result ≡ flat counted (least_answer width depth) }
{
    buulset::buulset_least_leaves(width, depth)
}

// `buulset::buulset_report`.
#[unsafe(no_mangle)]
pub extern "C" fn buulset_report(file: &[u8]) -> Text
    ensures { result ≡ flat_text (text_of (report file.now)) }
{
    buulset::buulset_report(file)
}

// `buulset::buulset_refused`.
#[unsafe(no_mangle)]
pub extern "C" fn buulset_refused(number: u8, place: usize) -> Text
    ensures { result ≡ flat_text (text_of (refused_line (record { number = number; place = place }))) }
{
    buulset::buulset_refused(number, place)
}
