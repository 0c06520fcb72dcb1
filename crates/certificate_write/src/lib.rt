// What every search shares: its questions, and what follows from the leaves that it evaluated, the certificate and the
// root move.
#![tactic(auto)]

ghost use Rattle.std.specs.Prelude.{◌≡◌, [], ◌∷◌, ◌≤◌, min, length};
ghost use Rattle.gametree.specs.Certificate.{flag};
ghost use Rattle.gametree.specs.Move.{bound_move};
ghost use Rattle.table.specs.Frame.{frames};
ghost use Rattle.table.specs.Tree.{tree, valuation};
ghost use Rattle.table.specs.Rejection.{answer};
ghost use Rattle.table.specs.Formed.{WellFormed};
ghost use Rattle.table_positions.specs.Buffer.{written};
ghost use Rattle.table_positions.specs.Engine.Positions.{Positioned};
ghost use Rattle.certificate_bounds.specs.Marks.{marked};
ghost use Rattle.certificate_write.specs.Search.{search_rejection};

use certificate_bounds::fill_bounds;
use certificate_flags::read_off;
use table::{MAX_NODES, Question, Rejection};
use table_check::check;
use table_positions::fill;

// Questions 1 to 10, where the shortest lent buffer has this length: the number of nodes, or the first rejection.
pub fn ask(table: &[u8], shortest: usize) -> Result<usize, Rejection>
    ensures { result ≡ answer (frames table.now) (search_rejection table.now (shortest ∷ [])) }
{
    let nodes = check(table)?;
    if shortest < nodes {
        return Err(Question::ShortBuffer.at(0));
    }
    Ok(nodes)
}

// The certificate (01: the proof) read off the bounds of the marked leaves, into the buffer's first entries; the result
// is the root move.
pub fn write_certificate(table: &[u8], evaluated: &mut [u8], certificate: &mut [u8]) -> usize
    requires well_formed { WellFormed table.now }
    requires table_in_bounds { (frames table.now ≤ length evaluated.old) × (frames table.now ≤ length certificate.old) }
    ensures value { result ≡ bound_move (valuation table.now) (marked evaluated.old)
        (tree table.now) }
    ensures certificate_after { certificate.new
        ≡ written (flag (valuation table.now) (marked evaluated.old) (tree table.now))
        (frames table.now) certificate.old }
    ensures evaluated_unchanged { evaluated.new ≡ evaluated.old }
{
    let mut positions = [0u32; MAX_NODES];
    fill(table, &mut positions);
    write_certificate_at(table, &positions, evaluated, certificate)
}

// The same by positions that are filled already.
pub fn write_certificate_at(
    table: &[u8],
    positions: &[u32],
    evaluated: &mut [u8],
    certificate: &mut [u8],
) -> usize
    requires well_formed { (WellFormed table.now) × (Positioned table.now positions.now) }
    requires table_in_bounds { (frames table.now ≤ length evaluated.old) × (frames table.now ≤ length certificate.old) }
    ensures value { result ≡ bound_move (valuation table.now) (marked evaluated.old)
        (tree table.now) }
    ensures certificate_after { certificate.new
        ≡ written (flag (valuation table.now) (marked evaluated.old) (tree table.now))
        (frames table.now) certificate.old }
    ensures evaluated_unchanged { evaluated.new ≡ evaluated.old }
{
    let mut lows = [0u32; MAX_NODES];
    let mut highs = [0u32; MAX_NODES];
    fill_bounds(table, positions, evaluated, &mut lows, &mut highs);
    read_off(table, positions, &lows, &highs, certificate)
}
