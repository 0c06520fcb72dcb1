// MTD(f) over a byte table: the starting value never changes the value or the move that is found, only how many leaves
// it takes; nothing is guessed past the leaves. The root is tested until its bounds meet; then its children are tested
// for the first move.
#![tactic(auto)]

ghost use Rattle.std.specs.Prelude.{◌≡◌, false, ℕ, ◌<◌, ◌≤◌, length};
ghost use Rattle.table.specs.Frame.{max_nodes, frames, child_count};
ghost use Rattle.table.specs.Position.{root_position};
ghost use Rattle.table.specs.Formed.{WellFormed};
ghost use Rattle.certificate_bounds.specs.Marks.{marked};
ghost use Rattle.certificate_bounds.specs.Engine.Progress.{progress};
ghost use Rattle.certificate_flags.specs.Engine.Chosen.{chosen_child};
ghost use Rattle.certificate_write.specs.Search.{marks_of, listed};
ghost use Rattle.methods.specs.declared.Method.TheVariants.{MtdFrom};
ghost use Rattle.methods.specs.Rules.{start_score, evaluated_by};
ghost use Rattle.methods.specs.Outcome.{findings_by};
ghost use Rattle.mtdf_visits.specs.Engine.Bounds.{memory_of, SameBuffers};
ghost use Rattle.mtdf_visits.specs.Engine.Memory.{Long, Fresh, VisitReady};
ghost use Rattle.mtdf.specs.Engine.Settling.{Settles, MetAt, MovedTo};

use certificate_bounds::{Evaluations, clear};
use certificate_flags::first_equal;
use gametree::{Position, Side};
use leaf_value::in_range;
use methods::Findings;
use mtdf_visits::Bounds;
use table::{GREATEST, LEAST, MAX_NODES, child_count, frame_count, score_of, value};

// Where the root stands.
const ROOT: Position = Position {
    depth: 0,
    side: Side::Max,
};

// What MTD(f) finds from a starting value in a table that was checked: the marks of the evaluated leaves go into the
// buffer, and their numbers into the list.
pub fn find(table: &[u8], start: i32, evaluated: &mut [u8], order: &mut [u16]) -> Findings
    requires well_formed { WellFormed table.now }
    requires table_in_bounds { (frames table.now ≤ length evaluated.old) × (frames table.now ≤ length order.old) }
    ensures value { result ≡ findings_by (MtdFrom start) table.now }
    ensures evaluated_after { evaluated.new
        ≡ marks_of (evaluated_by (MtdFrom start) table.now) table.now evaluated.old }
    ensures order_after { order.new
        ≡ listed (evaluated_by (MtdFrom start) table.now) order.old }
{
    clear(evaluated, frame_count(table));
    settle(table, start_score(start), evaluated, order)
}

// The score of a starting value; one above the range of values counts as plus infinity, one below it as minus infinity.
fn start_score(start: i32) -> u32
    ensures { result ≡ start_score start }
{
    if in_range(start) {
        return score_of(start);
    }
    if start < 0 { LEAST } else { GREATEST }
}

// What the tests of the root end with: the score at which its bounds meet, and how many tests there were.
#[derive(Clone, Copy)]
struct Met {
    score: u32,
    tests: usize,
}

// The tests over a table without marks: those of the root until its bounds meet, then the last phase, which shows the
// move.
fn settle(table: &[u8], guess: u32, evaluated: &mut [u8], order: &mut [u16]) -> Findings
    requires well_formed { (WellFormed table.now) × (frames table.now ≤ length evaluated.old)
        × (frames table.now ≤ length order.old) }
    requires by_index { (k : ℕ) → k < frames table.now → marked evaluated.old k ≡ false }
    ensures { Settles table.now guess (progress 0 evaluated.old order.old)
        (progress result.leaves evaluated.new order.new) result }
{
    let mut evaluations = Evaluations {
        marks: evaluated,
        order,
        leaves: 0,
    };
    let mut lows = [LEAST; MAX_NODES];
    let mut highs = [GREATEST; MAX_NODES];
    let mut bounds = Bounds {
        evaluations: &mut evaluations,
        lows: &mut lows,
        highs: &mut highs,
    };
    let met = drive(table, guess, &mut bounds);
    find_move(table, met.score, &mut bounds);
    Findings {
        value: value(met.score),
        root_move: root_move(table, bounds.lows),
        leaves: bounds.evaluations.leaves,
        steps: met.tests,
    }
}

// Tests of the root, the first by the guess, until the root's bounds meet: after "not below" the next wish is the
// root's low + 1, after "below" its high, and each test is the wish brought between these two.
fn drive(table: &[u8], guess: u32, bounds: &mut Bounds) -> Met
    requires { Fresh table.now (memory_of bounds.old) }
    ensures met { MetAt table.now guess (memory_of bounds.old) (memory_of bounds.new) result }
    ensures same_lengths { Long (memory_of bounds.old) (memory_of bounds.new) }
    ensures same_buffers { SameBuffers bounds.old bounds.new }
{
    let mut wish = guess;
    let mut tests = 0;
    // How many tests there are is known when the bounds meet.
    while bounds.lows[0] != bounds.highs[0] {
        let test = wish.clamp(bounds.lows[0] + 1, bounds.highs[0]);
        let answer = bounds.visit(table, 0, ROOT, test);
        tests += 1;
        wish = if answer {
            bounds.lows[0] + 1
        } else {
            bounds.highs[0]
        };
    }
    Met {
        score: bounds.lows[0],
        tests,
    }
}

// The last phase: the root's children are tested against the value until one has it, so that the bounds show the first
// root move.
fn find_move(table: &[u8], score: u32, bounds: &mut Bounds)
    requires { VisitReady table.now (memory_of bounds.old) 0 root_position }
    ensures moved { MovedTo table.now score (memory_of bounds.old) (memory_of bounds.new) }
    ensures same_lengths { Long (memory_of bounds.old) (memory_of bounds.new) }
    ensures same_buffers { SameBuffers bounds.old bounds.new }
{
    if child_count(table, 0) != 0 {
        bounds.enter(table, 0, ROOT, score);
    }
}

// The first of the root's children whose low is the root's; 0 where the root is a leaf.
fn root_move(table: &[u8], lows: &[u32]) -> usize
    requires { (0 < frames table.now) × (length lows.now ≡ max_nodes) }
    ensures { result ≡ chosen_child lows.now 0 1 (child_count table.now 0) }
{
    first_equal(lows, 1, 1 + child_count(table, 0), lows[0])
}
