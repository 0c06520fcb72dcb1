// The check of a lent certificate (01: the proof check).
#![tactic(auto)]

ghost use Rattle.std.specs.Prelude.{count_by, ◌≡◌, ◌+◌, ◌≤◌, ◌<◌, true, length};
ghost use Rattle.gametree.specs.Certificate.{inside, worst as worst_of};
ghost use Rattle.table.specs.Frame.{max_nodes, frames};
ghost use Rattle.table.specs.Position.{depth_of, side_of};
ghost use Rattle.table.specs.Formed.{WellFormed};
ghost use Rattle.table.specs.Questions.{number_of};
ghost use Rattle.table.specs.Rejection.{answer};
ghost use Rattle.table_positions.specs.Engine.Positions.{Positioned};
ghost use Rattle.certificate_check.specs.Flags.{required_of, rule_holds};
ghost use Rattle.certificate_check.specs.Value.{leaf_in, tree_value};
ghost use Rattle.certificate_check.specs.Check.{check11, check_tree, trees_rejection, flags_rejection, judged};
ghost use Rattle.certificate_check.specs.Check.{verdict};

use gametree::{Side, better};
use table::{
    GREATEST, IN_BOTH, IN_MAX, IN_MIN, LEAST, MAX_NODES, Question, Rejection, child_count,
    first_child, frame_count, leaf_score, value,
};
use table_positions::{depth_at, fill, side_at};

// A tree of at most so many nodes gets a small work array.
const FEW_NODES: usize = 512;

// Questions 1 to 14 in order: the value that the flags prove, or the first rejection.
pub fn check(table: &[u8], flags: &[u8]) -> Result<i16, Rejection>
    ensures { result ≡ verdict table.now flags.now }
{
    table_check::check(table)?;
    check_certificate(table, flags)
}

// Questions 10 to 14, for a well-formed table.
pub fn check_certificate(table: &[u8], flags: &[u8]) -> Result<i16, Rejection>
    requires { WellFormed table.now }
    ensures { result ≡ judged table.now flags.now
        (flags_rejection table.now flags.now) }
{
    if flags.len() < frame_count(table) {
        return Err(Question::ShortBuffer.at(0));
    }
    check_flags(table, flags)?;
    check_trees(table, flags)
}

// Questions 12 to 14, for a well-formed table and a flag for each node; a small tree gets a small work array.
fn check_trees(table: &[u8], flags: &[u8]) -> Result<i16, Rejection>
    requires { (WellFormed table.now) × (frames table.now ≤ length flags.now) }
    ensures { result ≡ judged table.now flags.now
        (trees_rejection table.now flags.now) }
{
    if frame_count(table) <= FEW_NODES {
        return judge_in::<FEW_NODES>(table, flags);
    }
    judge_in::<MAX_NODES>(table, flags)
}

// The same, with a work array of N entries for the positions of the nodes.
fn judge_in<const N: usize>(table: &[u8], flags: &[u8]) -> Result<i16, Rejection>
    requires well_formed { (WellFormed table.now) × (frames table.now ≤ length flags.now) }
    requires room { (frames table.now ≤ N) × (N ≤ max_nodes) }
    ensures { result ≡ judged table.now flags.now
        (trees_rejection table.now flags.now) }
{
    let mut positions = [0u32; N];
    fill(table, &mut positions);
    judge(table, flags, &positions)
}

// The same, with the positions of the nodes.
fn judge(table: &[u8], flags: &[u8], positions: &[u32]) -> Result<i16, Rejection>
    requires { (WellFormed table.now) × (frames table.now ≤ length flags.now)
        × (Positioned table.now positions.now) }
    ensures { result ≡ judged table.now flags.now
        (trees_rejection table.now flags.now) }
{
    check_rules(table, flags, positions, Side::Max, Question::NoMaxTree)?;
    check_rules(table, flags, positions, Side::Min, Question::NoMinTree)?;
    let values = tree_values(table, flags, positions);
    let score = values.greatest;
    if score != values.least {
        return Err(Question::UnequalValues.at(0));
    }
    Ok(value(score))
}

// Question 11, put to one node after the other: is every flag 0 to 3?
fn check_flags(table: &[u8], flags: &[u8]) -> Result<usize, Rejection>
    requires { frames table.now ≤ length flags.now }
    ensures { result ≡ answer (frames table.now) (check11 table.now flags.now) }
{
    let n = frame_count(table);
    for node in 0..n {
        if IN_BOTH < flags[node] {
            return Err(Question::WrongFlag.at(node));
        }
    }
    Ok(n)
}

// Questions 12 and 13, put to one node after the other: do the side's flags form a solution tree? Once every node has
// been reached as a child, the nodes not visited yet are leaves, and nothing is asked about them.
fn check_rules(
    table: &[u8],
    flags: &[u8],
    positions: &[u32],
    side: Side,
    question: Question,
) -> Result<usize, Rejection>
    requires { (WellFormed table.now) × (frames table.now ≤ length flags.now)
        × (Positioned table.now positions.now) }
    ensures { result
        ≡ answer (frames table.now) (check_tree (number_of question) side table.now flags.now) }
{
    let n = frame_count(table);
    let mut next: usize = 1;
    for node in 0..n {
        let mover = side_at(positions, node);
        if !rule_holds(table, flags, node, mover, side) {
            return Err(question.at(node));
        }
        next += child_count(table, node);
        if next == n {
            break;
        }
    }
    Ok(n)
}

// The rule of a node where `mover` moves, for the side's tree: the root is in it, and as many children as required.
fn rule_holds(table: &[u8], flags: &[u8], node: usize, mover: Side, side: Side) -> bool
    requires well_formed { WellFormed table.now }
    requires node_bound { (node < frames table.now) × (frames table.now ≤ length flags.now) }
    requires mover_value { mover ≡ side_of table.now node }
    ensures { result ≡ rule_holds side table.now flags.now node }
{
    let member = is_member(flags[node], side);
    if node == 0 && !member {
        return false;
    }
    let count = child_count(table, node);
    if count == 0 {
        return true;
    }
    let first = first_child(table, node);
    let end = first + count;
    let members = count_members(&flags[first..end], side);
    if !member {
        return members == 0;
    }
    members == required(side, mover, count)
}

// How many nodes with these flags are in the side's tree.
fn count_members(flags: &[u8], side: Side) -> usize
    ensures { result ≡ count_by (inside side) flags.now }
{
    flags.iter().filter(|flag| is_member(**flag, side)).count()
}

// How many of its children an inner node of the side's tree where `mover` moves has in that tree.
fn required(side: Side, mover: Side, count: usize) -> usize
    requires { 0 < count }
    ensures { result ≡ required_of side mover true count }
{
    if side == mover { count } else { 1 }
}

// The values of the two trees: the greatest score of the max tree's leaves, the least of the min tree's.
#[derive(Clone, Copy)]
struct TreeValues {
    greatest: u32,
    least: u32,
}

// Both values, in one pass over the nodes.
fn tree_values(table: &[u8], flags: &[u8], positions: &[u32]) -> TreeValues
    requires { (WellFormed table.now) × (frames table.now ≤ length flags.now)
        × (Positioned table.now positions.now) }
    ensures { (result.greatest ≡ tree_value Side.Max table.now flags.now)
        × (result.least ≡ tree_value Side.Min table.now flags.now) }
{
    let n = frame_count(table);
    let mut greatest = LEAST;
    let mut least = GREATEST;
    for node in 0..n {
        let depth = depth_at(positions, node);
        let max_leaf = leaf_in(table, flags, node, depth, Side::Max);
        greatest = better(Side::Max, greatest, max_leaf);
        let min_leaf = leaf_in(table, flags, node, depth, Side::Min);
        least = better(Side::Min, least, min_leaf);
    }
    TreeValues { greatest, least }
}

// The score of a node if it is a leaf of the side's tree, else the side's worst.
fn leaf_in(table: &[u8], flags: &[u8], node: usize, depth: u32, side: Side) -> u32
    requires node_bound { (node < frames table.now) × (node < length flags.now) }
    requires depth_value { (depth ≡ depth_of table.now node) × (depth ≤ max_nodes) }
    ensures { result ≡ leaf_in side table.now flags.now node }
{
    if !is_member(flags[node], side) {
        return worst(side);
    }
    if child_count(table, node) == 0 {
        leaf_score(table, node, depth)
    } else {
        worst(side)
    }
}

// Is a node with this flag in the side's tree?
fn is_member(flag: u8, side: Side) -> bool
    ensures { result ≡ inside side flag }
{
    let alone = match side {
        Side::Max => IN_MAX,
        Side::Min => IN_MIN,
    };
    flag == IN_BOTH || flag == alone
}

// The worst score for a side: every other is better.
fn worst(side: Side) -> u32
    ensures { result ≡ worst_of side }
{
    match side {
        Side::Max => LEAST,
        Side::Min => GREATEST,
    }
}
