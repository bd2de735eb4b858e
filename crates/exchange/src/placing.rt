ghost use Rattle.std.specs.Prelude.{◌≡◌, true, slice_set};
ghost use Rattle.exchange_theory.specs.Inside.{within};

use exchange_theory::{Places, Row};

// The places with another row for a program, each of whose places is empty or names one of the cells. By index: of what `get_mut` lends, a
// proof knows nothing but the length afterwards.
#[tactic(auto, using(exchange_theory::proofs::Insides::rows_within))]
pub(crate) fn with_row(places: Places, program: u32, row: Row) -> Places
    requires { within places.cells row ≡ true }
    ensures size { result.cells ≡ places.cells }
    ensures rows { result.rows ≡ slice_set places.rows program row }
{
    let mut rows = places.rows;
    if program < 8 {
        rows[program as usize] = row;
    }
    Places {
        cells: places.cells,
        rows,
    }
}
