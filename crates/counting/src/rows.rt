ghost use Rattle.std.specs.Prelude.{◌≡◌, ◌+◌, ◌^◌, ◌<◌, Some, position};
ghost use Rattle.counting.specs.State.{holds, empty};
ghost use Rattle.counting.specs.Moves.{raised, lowered};

use keeper::Version;

// A row that is not empty: a version, with how many programs have it or are closing it.
#[derive(Clone, Copy, PartialEq, Eq, Debug)]
pub struct Row {
    pub version: Version,
    pub users: u32,
}

impl Row {
    // One program more.
    pub(crate) fn raised(self) -> Row
        requires { self.users + 1 < 2 ^ 32 }
        ensures { Some result ≡ raised (Some self) }
    {
        let users = self.users + 1;
        Row { users, ..self }
    }

    // One program less.
    pub(crate) fn lowered(self) -> Row
        ensures { Some result ≡ lowered (Some self) }
    {
        let users = self.users.saturating_sub(1);
        Row { users, ..self }
    }
}

fn holds(row: Option<Row>, serial: u32) -> bool
    ensures { result ≡ holds serial row }
{
    row.is_some_and(|row| row.version.serial == serial)
}

// The first row that holds the serial.
pub(crate) fn row_of(rows: &[Option<Row>], serial: u32) -> Option<usize>
    ensures { result ≡ position (holds serial) rows.now }
{
    rows.iter().position(|row| holds(*row, serial))
}

// The first empty row.
pub(crate) fn vacant(rows: &[Option<Row>]) -> Option<usize>
    ensures { result ≡ position empty rows.now }
{
    rows.iter().position(|row| row.is_none())
}
