ghost use Rattle.std.specs.Prelude.{◌≡◌};
ghost use Rattle.announcement_theory.specs.Tests.{version_in, serial_in, restated};

use announcement_theory::{Announcement, Mark, Status, Stored};

// The announced version, where there is one. Whoever asks knows that there is, so an Option would add a case that never comes.
pub fn version_in(announced: Announcement) -> Mark
    ensures { result ≡ version_in announced }
{
    match announced {
        Announcement::Empty => Mark { serial: 0, slot: 0 },
        Announcement::Plain(version) => version,
        Announcement::Help(version) => version,
    }
}

// The serial in a slot, 0 in an empty one: no Option, since guards compare it with a version's, as the algorithm is written, and an
// accepted offer knows that its slot is filled.
pub(crate) fn serial_in(slot: Option<Stored>) -> u32
    ensures { result ≡ serial_in slot }
{
    slot.map_or(0, |stored| stored.serial)
}

// The slot with another status.
pub(crate) fn restated(slot: Option<Stored>, status: Status) -> Option<Stored>
    ensures { result ≡ restated status slot }
{
    slot.map(|stored| Stored { status, ..stored })
}
