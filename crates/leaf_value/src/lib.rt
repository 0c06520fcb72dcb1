// The smallest value of a leaf that gives the root a wanted value (02: what score would save it?).
#![tactic(auto)]

ghost use Rattle.std.specs.Prelude.{◌≡◌, ◌<◌, ◌≤◌, true, leb, nat_abs, length, set, IfSome};
ghost use Rattle.gametree.specs.Trees.{greatest, Score};
ghost use Rattle.table.specs.Frame.{max_depth, two_bytes, is_leaf};
ghost use Rattle.table.specs.Value.{score_of, max_value};
ghost use Rattle.table.specs.Check.{Accepted};
ghost use Rattle.table.specs.Rejection.{◌and_then◌, unless};
ghost use Rattle.leaf_value.specs.LeastValue.{check19, check20, smallest, answer_for, least_value};
ghost use Rattle.leaf_value.specs.Engine.Candidates.{held_reaches, candidate, as_option};

use certificate_bounds::fill_bounds;
use gametree::{Side, better};
use table::{GREATEST, LEAST, MAX_NODES, Question, Rejection, is_leaf, score_at, score_of, value};
use table_check::check;
use table_positions::{depth_at, fill};

// The greatest value of a leaf, and the score of the smallest.
const MAX_VALUE: i32 = 32000;

const FIRST: u32 = LEAST + 1;

// Questions 1 to 9, 19, 20 and 21: the smallest value of the named leaf, from -32,000 to 32,000, that gives the root
// the wanted value, every other leaf holding what it holds; or the first rejection.
pub fn least_value(table: &[u8], node: usize, wanted: i32) -> Result<i16, Rejection>
    ensures { result ≡ least_value table.now node wanted }
{
    check(table)?;
    ask(table, node, wanted)
}

// Questions 19 to 21, for an accepted table.
fn ask(table: &[u8], node: usize, wanted: i32) -> Result<i16, Rejection>
    requires { Accepted table.now }
    ensures { result ≡ unless (check19 table.now node and_then check20 wanted) Err
        (answer_for node (smallest table.now node (score_of wanted))) }
{
    if !is_leaf(table, node) {
        return Err(Question::NoLeaf.at(node));
    }
    if !in_range(wanted) {
        return Err(Question::OutOfRange.at(0));
    }
    let Some(score) = find(table, node, score_of(wanted)) else {
        return Err(Question::NoValue.at(node));
    };
    Ok(value(score))
}

// Is this value from -32,000 to 32,000?
pub fn in_range(wanted: i32) -> bool
    ensures { result ≡ leb (nat_abs wanted) max_value }
{
    (-MAX_VALUE..=MAX_VALUE).contains(&wanted)
}

// The smallest score with which the leaf gives the root the wanted score, by the root's bounds where all leaves but
// this one are known.
fn find(table: &[u8], leaf: usize, wanted: u32) -> Option<u32>
    requires { (Accepted table.now) × (is_leaf table.now leaf ≡ true) × (Score wanted) }
    ensures { (as_option result ≡ smallest table.now leaf wanted) × IfSome result (λ s. s < greatest) }
{
    let mut positions = [0u32; MAX_NODES];
    let mut known = [1u8; MAX_NODES];
    let mut lows = [0u32; MAX_NODES];
    let mut highs = [0u32; MAX_NODES];
    fill(table, &mut positions);
    forget(&mut known, leaf);
    fill_bounds(table, &positions, &mut known, &mut lows, &mut highs);
    let sought = Sought {
        low: lows[0],
        high: highs[0],
        depth: depth_at(&positions, leaf),
        wanted,
    };
    sought.smallest()
}

// The leaf is not known.
fn forget(known: &mut [u8], leaf: usize)
    requires { leaf < length known.old }
    ensures { known.new ≡ set known.old leaf 0 }
{
    known[leaf] = 0;
}

// What is sought: a score of a leaf at this depth that gives the root the wanted score, where the root has the score
// `low` for the least and `high` for the greatest score of the leaf.
#[derive(Clone, Copy)]
struct Sought {
    low: u32,
    high: u32,
    depth: u32,
    wanted: u32,
}

impl Sought {
    // The smallest score of the leaf that gives the root the wanted one: that of -32,000, or that of the value that is
    // worth the wanted one as a loss, as it is, or as a win.
    fn smallest(&self) -> Option<u32>
        requires { (self.now.depth ≤ max_depth) × (Score self.now.wanted) }
        ensures { result ≡ candidate self.now.low self.now.high self.now.depth self.now.wanted }
    {
        let wanted = self.wanted;
        let as_loss = wanted.saturating_sub(self.depth);
        let as_win = wanted + self.depth;
        let tried = [FIRST, as_loss, wanted, as_win];
        tried.iter().copied().find(|score| self.reaches(*score))
    }

    // Can a leaf hold this score, and does it then give the root the wanted one?
    fn reaches(&self, score: u32) -> bool
        requires { (self.now.depth ≤ max_depth) × (score < two_bytes) }
        ensures { result
            ≡ held_reaches self.now.low self.now.high self.now.depth self.now.wanted score }
    {
        let counted = score_at(score, self.depth);
        let given = better(Side::Min, self.high, better(Side::Max, self.low, counted));
        (FIRST..GREATEST).contains(&score) && given == self.wanted
    }
}
