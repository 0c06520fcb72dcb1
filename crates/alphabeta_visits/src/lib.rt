// Alpha-beta of a node and of what is below it, in a window: the leaves that it reaches are evaluated, from left to
// right.
#![tactic(auto)]

ghost use Rattle.std.specs.Prelude.{◌≡◌, [], ◌∷◌, leb};
ghost use Rattle.gametree.specs.AlphaBeta.{raise, lower, clamp, alpha_beta};
ghost use Rattle.table.specs.Frame.{frames};
ghost use Rattle.table.specs.Tree.{tree_at, valuation};
ghost use Rattle.certificate_bounds.specs.Marks.{ones};
ghost use Rattle.certificate_bounds.specs.Engine.Evaluable.{Evaluable};
ghost use Rattle.certificate_bounds.specs.Engine.Evaluations.{progress_of, SameBuffers};
ghost use Rattle.certificate_bounds.specs.Engine.Progress.{evaluate_all, Listable};
ghost use Rattle.certificate_write.specs.Engine.Searchable.{Searchable};

use certificate_bounds::Evaluations;
use gametree::{Position, Side};
use table::{child_count, child_position, first_child};

// The window of a node: the scores that matter there lie between alpha and beta.
#[derive(Clone, Copy, Debug, PartialEq, Eq)]
pub struct Window {
    pub alpha: u32,
    pub beta: u32,
}

impl Window {
    // The score, brought into the window.
    pub fn clamp(self, score: u32) -> u32
        ensures { result ≡ clamp self.alpha self.beta score }
    {
        score.max(self.alpha).min(self.beta)
    }

    // The window after a child of this score: alpha is raised at Max, beta is lowered at Min.
    pub fn narrow(self, side: Side, score: u32) -> Window
        ensures { (result.alpha ≡ raise side self.alpha score) × (result.beta ≡ lower side self.beta score) }
    {
        match side {
            Side::Max => Window {
                alpha: self.alpha.max(score),
                ..self
            },
            Side::Min => Window {
                beta: self.beta.min(score),
                ..self
            },
        }
    }

    // Has alpha reached beta? No further child matters then.
    pub fn is_closed(self) -> bool
        ensures { result ≡ leb self.beta self.alpha }
    {
        self.beta <= self.alpha
    }
}

// Alpha-beta of the tree below a node in a window: the pass over the children stops at the first one that closes the
// window, and a child that is a leaf costs no call. No node of that tree is marked yet, so no leaf is evaluated twice.
pub fn alpha_beta(
    table: &[u8],
    evaluations: &mut Evaluations<'_>,
    node: usize,
    position: Position,
    mut window: Window,
) -> u32
    requires searchable { Searchable table.now evaluations.old.marks.now node position }
    requires listable { Listable table.now (progress_of evaluations.old) }
    ensures score_value { result
        ≡ (alpha_beta (valuation table.now) window.alpha window.beta (tree_at table.now node)).value }
    ensures order_after { progress_of evaluations.new
        ≡ evaluate_all (progress_of evaluations.old)
        (alpha_beta (valuation table.now) window.alpha window.beta (tree_at table.now node)).evaluated }
    ensures leaves_value { evaluations.new.leaves ≡ ones evaluations.new.marks.now (frames table.now) }
    ensures same_buffers { SameBuffers evaluations.old evaluations.new }
{
    let count = child_count(table, node);
    if count == 0 {
        return visit_leaf(table, evaluations, node, position, window);
    }
    let mut child = first_child(table, node);
    let last = child + (count - 1);
    // The scope asks for this form: the loop yields its value by `break`.
    loop {
        let below = child_position(table, child, position);
        let score = if child_count(table, child) == 0 {
            visit_leaf(table, evaluations, child, below, window)
        } else {
            alpha_beta(table, evaluations, child, below, window)
        };
        if child == last {
            break score;
        }
        window = window.narrow(position.side, score);
        if window.is_closed() {
            break score;
        }
        child += 1;
    }
}

// The visit of a leaf: its score, brought into the window.
pub fn visit_leaf(
    table: &[u8],
    evaluations: &mut Evaluations<'_>,
    node: usize,
    position: Position,
    window: Window,
) -> u32
    requires evaluable { Evaluable table.now evaluations.old.marks.now node position.depth }
    requires listable { Listable table.now (progress_of evaluations.old) }
    ensures score_value { result ≡ clamp window.alpha window.beta (valuation table.now node) }
    ensures order_after { progress_of evaluations.new ≡ evaluate_all (progress_of evaluations.old) (node ∷ []) }
    ensures same_buffers { SameBuffers evaluations.old evaluations.new }
{
    window.clamp(evaluations.evaluate(table, node, position.depth))
}
