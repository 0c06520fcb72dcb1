// Alpha-beta over a byte table: the pass over the root's children, and what it finds.
#![tactic(auto)]

ghost use Rattle.std.specs.Prelude.{◌≡◌, ◌≤◌, length};
ghost use Rattle.gametree.specs.AlphaBeta.{full_window};
ghost use Rattle.gametree.specs.Move.{root_move_of};
ghost use Rattle.table.specs.Frame.{frames};
ghost use Rattle.table.specs.Formed.{WellFormed};
ghost use Rattle.table.specs.Position.{root_position};
ghost use Rattle.table.specs.Tree.{tree, valuation};
ghost use Rattle.certificate_bounds.specs.Marks.{ones};
ghost use Rattle.certificate_bounds.specs.Engine.Evaluations.{progress_of, SameBuffers};
ghost use Rattle.certificate_bounds.specs.Engine.Progress.{evaluate_all, Listable};
ghost use Rattle.certificate_write.specs.Engine.Searchable.{Searchable};
ghost use Rattle.certificate_write.specs.Search.{marks_of, listed};
ghost use Rattle.methods.specs.declared.Method.TheVariants.{AlphaBeta};
ghost use Rattle.methods.specs.Rules.{evaluated_by};
ghost use Rattle.methods.specs.Outcome.{findings_by};

use alphabeta_visits::{Window, alpha_beta, visit_leaf};
use certificate_bounds::{Evaluations, clear};
use gametree::{Position, Side};
use methods::Findings;
use table::{GREATEST, LEAST, child_count, child_position, frame_count, value};

// What alpha-beta finds in a table that was checked: the marks of the evaluated leaves go into the buffer, and their
// numbers into the list.
pub fn find(table: &[u8], evaluated: &mut [u8], order: &mut [u16]) -> Findings
    requires well_formed { WellFormed table.now }
    requires table_in_bounds { (frames table.now ≤ length evaluated.old) × (frames table.now ≤ length order.old) }
    ensures value { result ≡ findings_by AlphaBeta table.now }
    ensures evaluated_after { evaluated.new
        ≡ marks_of (evaluated_by AlphaBeta table.now) table.now evaluated.old }
    ensures order_after { order.new ≡ listed (evaluated_by AlphaBeta table.now) order.old }
{
    clear(evaluated, frame_count(table));
    let mut evaluations = Evaluations {
        marks: evaluated,
        order,
        leaves: 0,
    };
    let visit = visit_root(table, &mut evaluations);
    Findings {
        value: value(visit.alpha),
        root_move: visit.root_move,
        leaves: evaluations.leaves,
        steps: 0,
    }
}

// What the engine gives for the whole tree: alpha at its end, and the last child that raised it.
#[derive(Clone, Copy, Debug, PartialEq, Eq)]
struct RootVisit {
    alpha: u32,
    root_move: usize,
}

// Alpha-beta of the whole tree, without marks: at the root beta stays what it is, and no child closes the window.
fn visit_root(table: &[u8], evaluations: &mut Evaluations<'_>) -> RootVisit
    requires searchable { Searchable table.now evaluations.old.marks.now 0 root_position }
    requires listable { Listable table.now (progress_of evaluations.old) }
    ensures alpha_value { (result.alpha ≡ (full_window (valuation table.now) (tree table.now)).value)
        × (result.root_move ≡ root_move_of (valuation table.now) (tree table.now)) }
    ensures order_after { progress_of evaluations.new
        ≡ evaluate_all (progress_of evaluations.old) (full_window (valuation table.now) (tree table.now)).evaluated }
    ensures leaves_value { evaluations.new.leaves ≡ ones evaluations.new.marks.now (frames table.now) }
    ensures same_buffers { SameBuffers evaluations.old evaluations.new }
{
    let root = Position {
        depth: 0,
        side: Side::Max,
    };
    let beta = GREATEST;
    let mut alpha = LEAST;
    let mut root_move = 0;
    let count = child_count(table, 0);
    if count == 0 {
        let alpha = visit_leaf(table, evaluations, 0, root, Window { alpha, beta });
        return RootVisit { alpha, root_move };
    }
    for child in 1..=count {
        let position = child_position(table, child, root);
        let score = alpha_beta(table, evaluations, child, position, Window { alpha, beta });
        if alpha < score {
            root_move = child;
        }
        alpha = score;
    }
    RootVisit { alpha, root_move }
}
