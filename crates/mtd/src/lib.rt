// MTD over a byte table: passes with falling tests, each asking whether the root is below its test.
#![tactic(auto)]

ghost use Rattle.std.specs.Prelude.{◌≡◌, ◌<◌, ◌≤◌, length, get_or};
ghost use Rattle.gametree.specs.Mtd.{mtd};
ghost use Rattle.table.specs.Frame.{frames};
ghost use Rattle.table.specs.Tree.{tree_at, tree, valuation};
ghost use Rattle.table.specs.Formed.{WellFormed};
ghost use Rattle.certificate_bounds.specs.Marks.{ones};
ghost use Rattle.certificate_bounds.specs.Engine.Progress.{evaluate_all};
ghost use Rattle.certificate_bounds.specs.Engine.Evaluations.{progress_of};
ghost use Rattle.certificate_write.specs.Search.{marks_of, listed};
ghost use Rattle.methods.specs.declared.Method.TheVariants.{Mtd};
ghost use Rattle.methods.specs.Rules.{evaluated_by};
ghost use Rattle.methods.specs.Outcome.{findings_by};
ghost use Rattle.mtd_memory.specs.Engine.Memory.{memory_of, SameArrays, first_high, Fresh, VisitReady, Enterable};
ghost use Rattle.mtd_memory.specs.Engine.Memory.{Passed};

use certificate_bounds::{Evaluations, clear};
use certificate_flags::first_equal;
use gametree::{Position, Side};
use methods::Findings;
use mtd_memory::{Memory, last_tried};
use table::{GREATEST, MAX_NODES, child_count, child_position, first_child, frame_count, value};

// What MTD finds in a table that was checked: the marks of the evaluated leaves go into the buffer, and their numbers
// into the list.
pub fn find(table: &[u8], evaluated: &mut [u8], order: &mut [u16]) -> Findings
    requires well_formed { WellFormed table.now }
    requires table_in_bounds { (frames table.now ≤ length evaluated.old) × (frames table.now ≤ length order.old) }
    ensures value { result ≡ findings_by Mtd table.now }
    ensures evaluated_after { evaluated.new
        ≡ marks_of (evaluated_by Mtd table.now) table.now evaluated.old }
    ensures order_after { order.new ≡ listed (evaluated_by Mtd table.now) order.old }
{
    clear(evaluated, frame_count(table));
    let mut highs = [GREATEST; MAX_NODES];
    let mut not_below = [0u16; MAX_NODES];
    let mut evaluations = Evaluations {
        marks: evaluated,
        order,
        leaves: 0,
    };
    let mut memory = Memory {
        evaluations: &mut evaluations,
        highs: &mut highs,
        not_below: &mut not_below,
    };
    let settled = run_passes(table, &mut memory);
    Findings {
        value: value(settled.score),
        root_move: settled.root_move,
        leaves: evaluations.leaves,
        steps: settled.passes,
    }
}

// What the passes end with: the test that the root is not below, the first child whose high is the root's, and how many
// passes were made.
#[derive(Clone, Copy)]
struct Settled {
    score: u32,
    root_move: usize,
    passes: usize,
}

// Passes from the greatest test, each with the root's high for the next test, until the root is not below.
fn run_passes(table: &[u8], memory: &mut Memory<'_, '_>) -> Settled
    requires { Fresh table.now (memory_of memory.old) }
    ensures score_value { (result.score ≡ (mtd (valuation table.now) (tree table.now)).value)
        × (result.passes ≡ (mtd (valuation table.now) (tree table.now)).passes) }
    ensures root_move_value { result.root_move ≡ first_high table.now memory.new.evaluations.now.marks.now }
    ensures order_after { progress_of memory.new.evaluations.now
        ≡ evaluate_all (progress_of memory.old.evaluations.now) (evaluated_by Mtd table.now) }
    ensures leaves_value { memory.new.evaluations.now.leaves
        ≡ ones memory.new.evaluations.now.marks.now (frames table.now) }
    ensures same_arrays { SameArrays memory.old memory.new }
{
    let root = Position {
        depth: 0,
        side: Side::Max,
    };
    let mut test = GREATEST;
    let mut passes = 0;
    // A loop, since how many passes there are is known when the last one ends.
    let high = loop {
        let not_below = visit(table, memory, 0, root, test);
        let high = memory.highs[0];
        passes += 1;
        if not_below {
            break high;
        }
        test = high;
    };
    let end = 1 + child_count(table, 0);
    let root_move = first_equal(memory.highs, 1, end, high);
    Settled {
        score: test,
        root_move,
        passes,
    }
}

// A pass at a node: it is answered at once, or entered.
fn visit(
    table: &[u8],
    memory: &mut Memory<'_, '_>,
    node: usize,
    position: Position,
    test: u32,
) -> bool
    requires { VisitReady table.now (memory_of memory.old) node position }
    ensures passed { Passed table.now (tree_at table.now node) test (memory_of memory.old) (memory_of memory.new)
        result }
    ensures same_arrays { SameArrays memory.old memory.new }
{
    match memory.look(table, node, position, test) {
        Some(answer) => answer,
        None => enter(table, memory, node, position, test),
    }
}

// A pass at an open node: its children are tried from the left, those that it skips left out, and entered only where
// they are open; the node keeps their answer and the best of their highs.
fn enter(
    table: &[u8],
    memory: &mut Memory<'_, '_>,
    node: usize,
    position: Position,
    test: u32,
) -> bool
    requires visit_ready { VisitReady table.now (memory_of memory.old) node position }
    requires enterable { Enterable table.now (memory_of memory.old) node test }
    ensures passed { Passed table.now (tree_at table.now node) test (memory_of memory.old) (memory_of memory.new)
        result }
    ensures same_arrays { SameArrays memory.old memory.new }
{
    let side = position.side;
    let first = first_child(table, node);
    let end = first + child_count(table, node);
    let tries = memory.to_try(side, node, first..end, test);
    let mut child = tries.start;
    // No `for`: which child comes next is told by the highs, and the last child's answer ends the loop.
    let answer = loop {
        let Some(next) = memory.next_tried(side, child..tries.end, test) else {
            break false;
        };
        let at = child_position(table, next, position);
        // As in `visit`, which is not called here: the two would then call each other.
        let answer = match memory.look(table, next, at, test) {
            Some(answer) => answer,
            None => enter(table, memory, next, at, test),
        };
        child = next + 1;
        if last_tried(side, answer, child, tries.end) {
            break answer;
        }
    };
    memory.remember(node, side, first..end, tries, child, answer);
    answer
}
