// One search: a tree is searched by the method that is asked for, its certificate is written, and the answer is given.
#![tactic(auto)]

ghost use Rattle.std.specs.Prelude.{◌≡◌, ◌≤◌, length};
ghost use Rattle.table.specs.Frame.{frames};
ghost use Rattle.table.specs.Formed.{WellFormed};
ghost use Rattle.table.specs.Rejection.{◌leaving◌};
ghost use Rattle.table_positions.specs.Engine.Positions.{Positioned};
ghost use Rattle.certificate_write.specs.Search.{marks_of, listed};
ghost use Rattle.methods.specs.Rules.{evaluated_by, beyond};
ghost use Rattle.methods.specs.Outcome.{answer_by, lent, given_by, search_outcome};
ghost use Rattle.methods.specs.Engine.Certified.{certified_flags};

use certificate_write::ask;
use methods::certify;
pub use methods::{Answer, Findings, Method, Spent};
use table::MAX_NODES;
use table_positions::fill;

// The search of the whole tree by a method: questions 1 to 10, then the value, the root move and the counts of
// evaluated leaves and of steps, or that the allowance is spent; the marks of these leaves, their numbers in the order
// of their evaluation and, with a value, the certificate (01: the proof) go into the buffers.
pub fn search(
    method: Method,
    table: &[u8],
    evaluated: &mut [u8],
    certificate: &mut [u8],
    order: &mut [u16],
) -> Answer
    ensures { result leaving lent evaluated.new certificate.new order.new
        ≡ search_outcome method table.now
        (lent evaluated.old certificate.old order.old) }
{
    let shortest = evaluated.len().min(certificate.len()).min(order.len());
    match ask(table, shortest) {
        Ok(_) => run(method, table, evaluated, certificate, order),
        Err(rejection) => Answer::Rejected(rejection),
    }
}

// The search of an accepted table, into buffers with an entry per node. Each engine is called here and in `find`, so
// that the compiler puts none of their work arrays into the frame of either.
fn run(
    method: Method,
    table: &[u8],
    evaluated: &mut [u8],
    certificate: &mut [u8],
    order: &mut [u16],
) -> Answer
    requires well_formed { WellFormed table.now }
    requires table_in_bounds { (frames table.now ≤ length evaluated.old) × (frames table.now ≤ length certificate.old)
        × (frames table.now ≤ length order.old) }
    ensures { result leaving lent evaluated.new certificate.new order.new
        ≡ given_by method table.now
        (lent evaluated.old certificate.old order.old) }
{
    let mut positions = [0u32; MAX_NODES];
    fill(table, &mut positions);
    match method {
        Method::AlphaBeta => {
            let findings = alphabeta::find(table, evaluated, order);
            conclude(
                Answer::Found(findings),
                table,
                &positions,
                evaluated,
                certificate,
            )
        }
        Method::Mtd => {
            let findings = mtd::find(table, evaluated, order);
            conclude(
                Answer::Found(findings),
                table,
                &positions,
                evaluated,
                certificate,
            )
        }
        Method::MtdFrom(start) => {
            let findings = mtdf::find(table, start, evaluated, order);
            conclude(
                Answer::Found(findings),
                table,
                &positions,
                evaluated,
                certificate,
            )
        }
        Method::Sss(allowance) => {
            let answer = sss::find(table, &positions, allowance, evaluated, order);
            conclude(answer, table, &positions, evaluated, certificate)
        }
    }
}

// An answer, once its certificate is written.
fn conclude(
    answer: Answer,
    table: &[u8],
    positions: &[u32],
    evaluated: &mut [u8],
    certificate: &mut [u8],
) -> Answer
    requires well_formed { (WellFormed table.now) × (Positioned table.now positions.now) }
    requires table_in_bounds { (frames table.now ≤ length evaluated.old) × (frames table.now ≤ length certificate.old) }
    ensures value { result ≡ answer }
    ensures evaluated_unchanged { evaluated.new ≡ evaluated.old }
    ensures certificate_after { certificate.new
        ≡ certified_flags answer table.now evaluated.old certificate.old }
{
    certify(answer, table, positions, evaluated, certificate);
    answer
}

// What a method answers on a table that was checked, whose positions are filled: the marks of the evaluated leaves go
// into the buffer, and their numbers into the list.
pub fn find(
    method: Method,
    table: &[u8],
    positions: &[u32],
    evaluated: &mut [u8],
    order: &mut [u16],
) -> Answer
    requires well_formed { (WellFormed table.now) × (Positioned table.now positions.now) }
    requires table_in_bounds { (frames table.now ≤ length evaluated.old) × (frames table.now ≤ length order.old) }
    ensures value { result ≡ answer_by (beyond method table.now) method table.now }
    ensures evaluated_after { evaluated.new
        ≡ marks_of (evaluated_by method table.now) table.now evaluated.old }
    ensures order_after { order.new ≡ listed (evaluated_by method table.now) order.old }
{
    match method {
        Method::AlphaBeta => Answer::Found(alphabeta::find(table, evaluated, order)),
        Method::Mtd => Answer::Found(mtd::find(table, evaluated, order)),
        Method::MtdFrom(start) => Answer::Found(mtdf::find(table, start, evaluated, order)),
        Method::Sss(allowance) => sss::find(table, positions, allowance, evaluated, order),
    }
}
