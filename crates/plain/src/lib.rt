// The plain engine over a byte table: minimax without cuts. Max's turn asks Min's turn for each child, and Min's turn
// asks Max's; where the same side moves again, a turn asks itself.
#![tactic(auto)]

ghost use Rattle.std.specs.Prelude.{◌≡◌, [], ◌≤◌, length};
ghost use Rattle.gametree.specs.Trees.{minimax, leaves};
ghost use Rattle.table.specs.Frame.{frames};
ghost use Rattle.table.specs.Check.{Accepted};
ghost use Rattle.table.specs.Tree.{tree_at, valuation};
ghost use Rattle.table.specs.Rejection.{◌leaving◌};
ghost use Rattle.certificate_bounds.specs.Marks.{mark_all};
ghost use Rattle.certificate_write.specs.Search.{marks_of, flags_of};
ghost use Rattle.methods.specs.Outcome.{lent};
ghost use Rattle.plain.specs.Outcome.{all_leaves, plain_found, plain_outcome};
ghost use Rattle.plain.specs.Engine.Ready.{Ready};

use certificate_bounds::{clear, evaluate};
use certificate_write::{ask, write_certificate};
use gametree::Side;
use table::{
    GREATEST, LEAST, MAX_DEPTH, Rejection, child_count, child_side, first_child, frame_count, value,
};

// The greatest depth, from which the remaining depth counts down.
const DEPTH: u32 = MAX_DEPTH as u32;

// What the plain engine finds: the minimax value, and the first root move that reaches it (0 for a leaf).
#[derive(Clone, Copy, Debug, PartialEq, Eq)]
pub struct PlainResult {
    pub value: i16,
    pub root_move: usize,
}

// Minimax of the whole tree: questions 1 to 10, then the value and the root move; the marks of all leaves and the
// certificate (01: the proof) go into the buffers.
pub fn search(
    table: &[u8],
    evaluated: &mut [u8],
    certificate: &mut [u8],
) -> Result<PlainResult, Rejection>
    ensures { result leaving lent evaluated.new certificate.new []
        ≡ plain_outcome table.now (lent evaluated.old certificate.old []) }
{
    ask(table, evaluated.len().min(certificate.len()))?;
    Ok(run(table, evaluated, certificate))
}

// The search of an accepted table, into buffers with an entry per node.
fn run(table: &[u8], evaluated: &mut [u8], certificate: &mut [u8]) -> PlainResult
    requires accepted { Accepted table.now }
    requires table_in_bounds { (frames table.now ≤ length evaluated.old) × (frames table.now ≤ length certificate.old) }
    ensures value { result ≡ plain_found table.now }
    ensures evaluated_after { evaluated.new
        ≡ marks_of (all_leaves table.now) table.now evaluated.old }
    ensures certificate_after { certificate.new
        ≡ flags_of (all_leaves table.now) table.now certificate.old }
{
    clear(evaluated, frame_count(table));
    let score = max_turn(table, evaluated, 0, DEPTH);
    let root_move = write_certificate(table, evaluated, certificate);
    let value = value(score);
    PlainResult { value, root_move }
}

// Max's turn at a node: the greatest of what the turn of the side that moves there gives for each child. `left` is how
// many levels may still follow below the node; it falls at every call. (The scope asks for two functions that call each
// other, one for each side.)
#[cycle(max_turn_min_turn)]
fn max_turn(table: &[u8], evaluated: &mut [u8], node: usize, left: u32) -> u32
    requires { Ready table.now evaluated.old Side.Max node left }
    ensures value { result ≡ minimax (valuation table.now) (tree_at table.now node) }
    ensures evaluated_after { evaluated.new
        ≡ mark_all evaluated.old (leaves (tree_at table.now node)) }
{
    let count = child_count(table, node);
    if count == 0 {
        return evaluate(table, evaluated, node, DEPTH - left);
    }
    let mut greatest = LEAST;
    let first = first_child(table, node);
    let below = left - 1;
    for child in first..first + count {
        let answer = match child_side(table, child, Side::Max) {
            Side::Max => max_turn(table, evaluated, child, below),
            Side::Min => min_turn(table, evaluated, child, below),
        };
        greatest = greatest.max(answer);
    }
    greatest
}

// Min's turn at a node: the least of what the turn of the side that moves there gives for each child.
#[cycle(max_turn_min_turn)]
fn min_turn(table: &[u8], evaluated: &mut [u8], node: usize, left: u32) -> u32
    requires { Ready table.now evaluated.old Side.Min node left }
    ensures value { result ≡ minimax (valuation table.now) (tree_at table.now node) }
    ensures evaluated_after { evaluated.new
        ≡ mark_all evaluated.old (leaves (tree_at table.now node)) }
{
    let count = child_count(table, node);
    if count == 0 {
        return evaluate(table, evaluated, node, DEPTH - left);
    }
    let mut least = GREATEST;
    let first = first_child(table, node);
    let left_below = left - 1;
    for child in first..first + count {
        let answer = match child_side(table, child, Side::Min) {
            Side::Max => max_turn(table, evaluated, child, left_below),
            Side::Min => min_turn(table, evaluated, child, left_below),
        };
        least = least.min(answer);
    }
    least
}
