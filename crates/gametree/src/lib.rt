// Game trees and the rules of the searches: definitions in specs/, small trees computed from them in proofs/; what
// holds of them is in gametree_theory. The code holds what these and the searches share: two plain types, the
// opponent, and the better of two scores.
#![tactic(auto)]

ghost use Rattle.std.specs.Prelude.{◌≡◌};
ghost use Rattle.gametree.specs.Trees.{other as other_side, better as better_of};

// Who moves at an inner node.
#[derive(Clone, Copy, Debug, PartialEq, Eq)]
pub enum Side {
    Max,
    Min,
}

// Where a node stands: its depth (the root has 0), and who moves there. (A rejection has a place: SPEC 4.1.)
#[derive(Clone, Copy, Debug, PartialEq, Eq)]
pub struct Position {
    pub depth: u32,
    pub side: Side,
}

// The opponent.
pub fn other(side: Side) -> Side
    ensures { result ≡ other_side side }
{
    match side {
        Side::Max => Side::Min,
        Side::Min => Side::Max,
    }
}

// The better of two scores for a side.
pub fn better(side: Side, a: u32, b: u32) -> u32
    ensures { result ≡ better_of side a b }
{
    match side {
        Side::Max => a.max(b),
        Side::Min => a.min(b),
    }
}
