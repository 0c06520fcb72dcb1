// The flags of a certificate and the root move, read off the sides and the two bounds of every node, whatever the
// arrays hold.
#![tactic(auto)]

ghost use Rattle.std.specs.Prelude.{◌≡◌, ℕ, ◌-◌, ◌<◌, ◌≤◌, cond, eqb, length, get_or};
ghost use Rattle.table.specs.Frame.{frames, child_count};
ghost use Rattle.table.specs.Formed.{WellFormed};
ghost use Rattle.table_positions.specs.Buffer.{written, stored};
ghost use Rattle.table_positions.specs.Engine.Positions.{side_in};
ghost use Rattle.certificate_flags.specs.Engine.Chosen.{first_equal, bounds_by_side, chosen_child};
ghost use Rattle.certificate_flags.specs.Engine.Flags.{movers_flag, FlagsFrom};

use gametree::Side;
use table::{IN_BOTH, child_count, frame_count};
use table_positions::side_at;

// The flags into the certificate's first entries; the result is the root's chosen child, which is the root move.
pub fn read_off(
    table: &[u8],
    positions: &[u32],
    lows: &[u32],
    highs: &[u32],
    certificate: &mut [u8],
) -> usize
    requires well_formed { WellFormed table.now }
    requires table_in_bounds { (frames table.now ≤ length positions.now) × (frames table.now ≤ length lows.now) }
    requires table_in_bounds_2 { (frames table.now ≤ length highs.now) × (frames table.now ≤ length certificate.old) }
    ensures value { result
        ≡ chosen_child (bounds_by_side (side_in positions.now 0) lows.now highs.now)
        0 1 (child_count table.now 0) }
    ensures by_index { (f : ℕ → ℕ)
        → FlagsFrom table.now positions.now lows.now highs.now f
        → certificate.new ≡ written f (frames table.now) certificate.old }
{
    write_flags(table, positions, lows, highs, certificate);
    root_choice(table, positions, lows, highs)
}

// The root's chosen child.
fn root_choice(table: &[u8], positions: &[u32], lows: &[u32], highs: &[u32]) -> usize
    requires well_formed { WellFormed table.now }
    requires table_in_bounds { (frames table.now ≤ length positions.now) × (frames table.now ≤ length lows.now)
        × (frames table.now ≤ length highs.now) }
    ensures { result
        ≡ chosen_child (bounds_by_side (side_in positions.now 0) lows.now highs.now)
        0 1 (child_count table.now 0) }
{
    let end = 1 + child_count(table, 0);
    chosen_child(positions, lows, highs, 0, 1, end)
}

// The flags, from the root down, by the rule that reads them off the arrays, until every node has been reached as a
// child.
fn write_flags(table: &[u8], positions: &[u32], lows: &[u32], highs: &[u32], certificate: &mut [u8])
    requires well_formed { WellFormed table.now }
    requires table_in_bounds { (frames table.now ≤ length positions.now) × (frames table.now ≤ length lows.now) }
    requires table_in_bounds_2 { (frames table.now ≤ length highs.now) × (frames table.now ≤ length certificate.old) }
    ensures { (f : ℕ → ℕ)
        → FlagsFrom table.now positions.now lows.now highs.now f
        → certificate.new ≡ written f (frames table.now) certificate.old }
{
    certificate[0] = IN_BOTH;
    let n = frame_count(table);
    let mut next: usize = 1;
    for node in 0..n {
        if next == n {
            break;
        }
        let end = next + child_count(table, node);
        let flag = certificate[node];
        let others = movers_flag(side_at(positions, node), flag);
        let chosen = chosen_if_needed(positions, lows, highs, node, next, end, flag, others);
        flag_children(certificate, next, end, flag, others, chosen);
        next = end;
    }
}

// The chosen child; it is looked for only if its flag differs from that of the others.
fn chosen_if_needed(
    positions: &[u32],
    lows: &[u32],
    highs: &[u32],
    node: usize,
    from: usize,
    to: usize,
    flag: u8,
    others: u8,
) -> usize
    requires node_in_bounds { (node < length positions.now) × (node < length lows.now) × (node < length highs.now) }
    requires from_le_to { (from ≤ to) × (to ≤ length lows.now) × (to ≤ length highs.now) }
    ensures { (k : ℕ) → cond (eqb k result) flag others
        ≡ cond (eqb k (chosen_child (bounds_by_side (side_in positions.now node) lows.now
        highs.now)
        node from (to - from))) flag others }
{
    if flag == others {
        return 0;
    }
    chosen_child(positions, lows, highs, node, from, to)
}

// The children from `from` up to `to`: the chosen one gets the node's flag, the others the flag `others`.
fn flag_children(
    certificate: &mut [u8],
    from: usize,
    to: usize,
    flag: u8,
    others: u8,
    chosen: usize,
)
    requires { (from ≤ to) × (to ≤ length certificate.old) }
    ensures { certificate.new
        ≡ stored (λ k. cond (eqb k chosen) flag others) from (to - from) certificate.old }
{
    for child in from..to {
        if child == chosen {
            certificate[child] = flag;
        } else {
            certificate[child] = others;
        }
    }
}

// The part of a flag that is about the mover's own tree: all children are in that tree if the node is.
fn movers_flag(side: Side, flag: u8) -> u8
    ensures { result ≡ movers_flag side flag }
{
    match side {
        Side::Max => flag % 2,
        Side::Min => flag - flag % 2,
    }
}

// The first child of those from `from` up to `to` whose bound equals the node's, by the lows at a Max node, by the
// highs at a Min node; 0 where there is none.
fn chosen_child(
    positions: &[u32],
    lows: &[u32],
    highs: &[u32],
    node: usize,
    from: usize,
    to: usize,
) -> usize
    requires node_in_bounds { (node < length positions.now) × (node < length lows.now) × (node < length highs.now) }
    requires from_le_to { (from ≤ to) × (to ≤ length lows.now) × (to ≤ length highs.now) }
    ensures { result
        ≡ chosen_child (bounds_by_side (side_in positions.now node) lows.now highs.now)
        node from (to - from) }
{
    match side_at(positions, node) {
        Side::Max => first_equal(lows, from, to, lows[node]),
        Side::Min => first_equal(highs, from, to, highs[node]),
    }
}

// The first node of those from `from` up to `to` whose bound is v; 0 where there is none.
pub fn first_equal(bounds: &[u32], from: usize, to: usize, v: u32) -> usize
    requires { (from ≤ to) × (to ≤ length bounds.now) }
    ensures { result ≡ first_equal (λ k. get_or bounds.now k 0) v from (to - from) }
{
    for node in from..to {
        if bounds[node] == v {
            return node;
        }
    }
    0
}
