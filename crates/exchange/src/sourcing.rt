ghost use Rattle.std.specs.Prelude.{◌≡◌, ◌<◌, true, false, is_some, MatchOption};
ghost use Rattle.exchange_theory.specs.Building.{ranged, all_ranged, given, all_given, placed, field_from, fields_from};

use cells_theory::Field;
use exchange_theory::{Row, Source};

// Whether the place that a source names is there.
fn in_range(source: Source) -> bool
    ensures { result ≡ ranged source }
{
    match source {
        Source::Empty | Source::Number(_) => true,
        Source::Reading(a) => a < 8,
        Source::Building(b) => b < 8,
    }
}

// Whether the places that four sources name are there.
pub(crate) fn all_in_range(sources: &[Source; 4]) -> bool
    ensures { result ≡ all_ranged sources.now }
{
    sources.iter().all(|s| in_range(*s))
}

// The field that names what a place names, if it names a cell.
fn cell_named(named: Option<u32>) -> Option<Field>
    ensures { MatchOption result (is_some named ≡ false) (λ f. (is_some named ≡ true) × (f ≡ placed named)) }
{
    named.map(Field::Cell)
}

// The field that a source gives in a program's row, none where it names an empty place.
fn field_from(row: &Row, source: Source) -> Option<Field>
    requires { ranged source ≡ true }
    ensures { MatchOption result (given row.now source ≡ false) (λ f. (given row.now source ≡ true) × (f ≡ field_from row.now source)) }
{
    match source {
        Source::Empty => Some(Field::Empty),
        Source::Number(n) => Some(Field::Number(n)),
        Source::Reading(a) => cell_named(row.reading[a as usize]),
        Source::Building(b) => cell_named(row.building[b as usize]),
    }
}

// The fields that four sources give in a program's row, none where one names an empty place.
pub(crate) fn fields_from(row: &Row, sources: &[Source; 4]) -> Option<[Field; 4]>
    requires { all_ranged sources.now ≡ true }
    ensures { MatchOption result (all_given row.now sources.now ≡ false) (λ fs. (all_given row.now sources.now ≡ true) × (fs ≡ fields_from row.now sources.now)) }
{
    // Four times: an array's `map` gives four Options and no Option of four, and its `try_map` wants an error, made only to be dropped.
    let [first, second, third, fourth] = *sources;
    Some([
        field_from(row, first)?,
        field_from(row, second)?,
        field_from(row, third)?,
        field_from(row, fourth)?,
    ])
}
