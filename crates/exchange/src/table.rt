ghost use Rattle.std.specs.Prelude.{◌≡◌};
ghost use Rattle.exchange_theory.specs.Table.{allows};

use exchange_theory::Column;
use keeper::Stage;

const YES: bool = true;

const NOT: bool = false;

// A row for each stage, in the order of `Stage`; a column for each call, in the order of `Column`.
const ALLOWED: [[bool; 8]; 6] = [
    [YES, NOT, NOT, NOT, NOT, NOT, NOT, NOT],
    [NOT, NOT, NOT, YES, NOT, NOT, NOT, NOT],
    [NOT, YES, YES, NOT, YES, YES, YES, YES],
    [NOT, NOT, NOT, YES, NOT, NOT, NOT, NOT],
    [NOT, NOT, YES, NOT, YES, YES, YES, NOT],
    [NOT, NOT, NOT, YES, NOT, NOT, NOT, NOT],
];

// Whether a program at the stage may make the call. The rule is a table, and a stage with fields has no number but the one given here.
pub fn allowed(stage: Stage, column: Column) -> bool
    ensures { result ≡ allows stage column }
{
    let row = match stage {
        Stage::Idle => 0,
        Stage::Opening { .. } => 1,
        Stage::Open(_) => 2,
        Stage::Offering { .. } => 3,
        Stage::Offered(_) => 4,
        Stage::Closing(_) => 5,
    };
    ALLOWED[row][column as usize]
}
