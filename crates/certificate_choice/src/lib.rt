// The certificate with fewer leaves, of two that are lent (02: the shorter of two proofs).
#![tactic(auto)]

ghost use Rattle.std.specs.Prelude.{◌≡◌, cond, ◌<◌, ◌≤◌, ltb, length};
ghost use Rattle.table.specs.Frame.{frames};
ghost use Rattle.table.specs.Formed.{WellFormed};
ghost use Rattle.certificate_check.specs.Check.{flags_rejection};
ghost use Rattle.certificate_choice.specs.Choice.{flagged_leaf, flagged_leaves, choice_by, choice, flags_by};
ghost use Rattle.certificate_choice.specs.Choice.{pointer_by};
ghost use Rattle.certificate_choice.specs.declared.Chosen.TheVariants.{First, Second};

use certificate_check::check_certificate;
use table::{Rejection, child_count, frame_count};
use table_check::check;

// Which of two certificates is handed back.
#[derive(Clone, Copy, Debug, PartialEq, Eq)]
pub enum Chosen {
    First,
    Second,
}

// What is handed back of two certificates: the flags of the chosen one, one a node, as a part of its own memory, and
// which one it is; on a rejection an empty part, and the rejection.
#[derive(Clone, Copy)]
pub struct Selection<'r> {
    pub flags: &'r [u8],
    pub choice: Result<Chosen, Rejection>,
}

// Questions 1 to 9 of the table, then 10 to 14 of each certificate by itself: the one that is accepted; if both are,
// the one with fewer flagged leaves, the first on a tie; if neither is, the first one's rejection.
pub fn select<'t, 'a: 'r, 'b: 'r, 'r>(
    table: &'t [u8],
    first: &'a [u8],
    second: &'b [u8],
) -> Selection<'r>
    ensures { (result.choice ≡ choice table.now first.now second.now)
        × (result.flags.now ≡ flags_by table.now first.now second.now result.choice)
        × (result.flags.ref_ptr ≡ pointer_by first.entry.ref_ptr second.entry.ref_ptr result.choice) }
{
    let chosen = choose(table, first, second);
    let part: &'r [u8] = flags(table, first, second, chosen);
    paired(part, chosen)
}

// Which of two certificates is handed back, or the rejection.
pub fn choose(table: &[u8], first: &[u8], second: &[u8]) -> Result<Chosen, Rejection>
    ensures { result ≡ choice table.now first.now second.now }
{
    check(table)?;
    choose_certificate(table, first, second)
}

// The flags of the chosen certificate, one a node, as a part of its own memory; empty on a rejection.
pub fn flags<'r>(
    table: &[u8],
    first: &'r [u8],
    second: &'r [u8],
    chosen: Result<Chosen, Rejection>,
) -> &'r [u8]
    requires { chosen ≡ choice table.now first.now second.now }
    ensures { (result.now ≡ flags_by table.now first.now second.now chosen)
        × (result.ref_ptr ≡ pointer_by first.entry.ref_ptr second.entry.ref_ptr chosen) }
{
    let n = frame_count(table);
    let Ok(which) = chosen else {
        return &first[..0];
    };
    match which {
        Chosen::First => &first[..n],
        Chosen::Second => &second[..n],
    }
}

// A part and the choice that it belongs to.
fn paired<'r>(flags: &'r [u8], chosen: Result<Chosen, Rejection>) -> Selection<'r>
    ensures { (result.flags ≡ flags.entry) × (result.choice ≡ chosen) }
{
    Selection {
        flags,
        choice: chosen,
    }
}

// Questions 10 to 14 of each certificate by itself, for a well-formed table.
fn choose_certificate(table: &[u8], first: &[u8], second: &[u8]) -> Result<Chosen, Rejection>
    requires { WellFormed table.now }
    ensures { result ≡ choice_by (flags_rejection table.now first.now)
        (flags_rejection table.now second.now)
        (ltb (flagged_leaves table.now second.now)
        (flagged_leaves table.now first.now)) }
{
    let of_first = check_certificate(table, first);
    let of_second = check_certificate(table, second);
    match (of_first, of_second) {
        (Ok(_), Ok(_)) => Ok(fewer(table, first, second)),
        (Ok(_), Err(_)) => Ok(Chosen::First),
        (Err(_), Ok(_)) => Ok(Chosen::Second),
        (Err(rejection), Err(_)) => Err(rejection),
    }
}

// The certificate with fewer flagged leaves, the first on a tie.
fn fewer(table: &[u8], first: &[u8], second: &[u8]) -> Chosen
    requires { (frames table.now ≤ length first.now) × (frames table.now ≤ length second.now) }
    ensures { result
        ≡ cond (ltb (flagged_leaves table.now second.now)
        (flagged_leaves table.now first.now)) Second First }
{
    let of_first = flagged_leaves(table, first);
    if flagged_leaves(table, second) < of_first {
        Chosen::Second
    } else {
        Chosen::First
    }
}

// How many leaves have a flag.
fn flagged_leaves(table: &[u8], flags: &[u8]) -> usize
    requires { frames table.now ≤ length flags.now }
    ensures { result ≡ flagged_leaves table.now flags.now }
{
    let nodes = 0..frame_count(table);
    nodes
        .filter(|node| is_flagged_leaf(table, flags, *node))
        .count()
}

// Is a node a leaf with a flag?
fn is_flagged_leaf(table: &[u8], flags: &[u8], node: usize) -> bool
    requires { (node < frames table.now) × (node < length flags.now) }
    ensures { result ≡ flagged_leaf table.now flags.now node }
{
    if child_count(table, node) != 0 {
        return false;
    }
    0 < flags[node]
}
