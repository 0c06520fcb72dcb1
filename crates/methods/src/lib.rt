// What every search shares: the methods, the one answer, and the one place where a search writes its certificate.
#![tactic(auto)]

ghost use Rattle.std.specs.Prelude.{◌≡◌, ◌≤◌, length};
ghost use Rattle.table.specs.Frame.{frames};
ghost use Rattle.table.specs.Formed.{WellFormed};
ghost use Rattle.table_positions.specs.Engine.Positions.{Positioned};
ghost use Rattle.methods.specs.Engine.Certified.{certified_flags};

use certificate_write::write_certificate_at;
use table::Rejection;

// How a tree is searched: by alpha-beta, by MTD, by MTD(f) from a starting value, or by SSS* within an allowance of
// leaves.
#[derive(Clone, Copy)]
pub enum Method {
    AlphaBeta,
    Mtd,
    MtdFrom(i32),
    Sss(usize),
}

// What a search finds: the minimax value, the first root move that reaches it (0 for a leaf), how many leaves were
// evaluated, and how many passes, tests or replacements were made (0 for alpha-beta).
#[derive(Clone, Copy)]
pub struct Findings {
    pub value: i16,
    pub root_move: usize,
    pub leaves: usize,
    pub steps: usize,
}

// What a search gives if its allowance of leaves stopped it: the merit, as a value, of the state whose leaf could not
// be evaluated, and the counts so far.
#[derive(Clone, Copy)]
pub struct Spent {
    pub merit: i32,
    pub leaves: usize,
    pub steps: usize,
}

// The answer of a call: what was found, that the allowance is spent, or the first question that got a "no".
#[derive(Clone, Copy)]
pub enum Answer {
    Found(Findings),
    Spent(Spent),
    Rejected(Rejection),
}

// The certificate (01: the proof) of an answer with a value, read off the marks; after any other answer the buffer is
// as it was.
pub fn certify(
    answer: Answer,
    table: &[u8],
    positions: &[u32],
    evaluated: &mut [u8],
    certificate: &mut [u8],
)
    requires well_formed { (WellFormed table.now) × (Positioned table.now positions.now) }
    requires table_in_bounds { (frames table.now ≤ length evaluated.old) × (frames table.now ≤ length certificate.old) }
    ensures evaluated_unchanged { evaluated.new ≡ evaluated.old }
    ensures certificate_after { certificate.new
        ≡ certified_flags answer table.now evaluated.old certificate.old }
{
    match answer {
        Answer::Found(_) => {
            write_certificate_at(table, positions, evaluated, certificate);
        }
        Answer::Spent(_) => {}
        Answer::Rejected(_) => {}
    }
}
