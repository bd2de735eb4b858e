ghost use Rattle.announcement_theory.specs.State.{view};
ghost use Rattle.announcement_theory.specs.Invariant.{Always};

use board::Board;

// The announcement keeper: a board of which always holds what makes it safe, precise and quick to end.
#[derive(Drop)]
pub struct Announcing {
    pub(crate) board: Board,
    ghost always: { Always (view board.programs board.last board.current board.slots board.seats) },
}
