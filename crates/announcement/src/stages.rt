ghost use Rattle.std.specs.Prelude.{◌≡◌};
ghost use Rattle.announcement_theory.specs.Means.{bound, stage_in};

use announcement_theory::{Announcement, Position, Seat};
use keeper::Stage;

// The serial that an opening program is bound to: that of an announcement without help.
fn bound_to(announced: Announcement) -> Option<u32>
    ensures { result ≡ bound announced }
{
    match announced {
        Announcement::Plain(version) => Some(version.serial),
        Announcement::Empty | Announcement::Help(_) => None,
    }
}

// The stage of a program at each label.
pub(crate) fn stage_in(seat: Seat) -> Stage
    ensures { result ≡ stage_in seat }
{
    match seat.position {
        Position::Idle => Stage::Idle,
        Position::Opening { attempt, .. } => {
            let since = attempt.since;
            let bound = bound_to(seat.announced);
            Stage::Opening { since, bound }
        }
        Position::Open(version) => Stage::Open(version.serial),
        Position::Offering { offer, .. } => {
            let root = offer.root;
            let over = offer.over.serial;
            Stage::Offering { root, over }
        }
        Position::Offered(version) => Stage::Offered(version.serial),
        Position::Closing { version, .. } => Stage::Closing(version.serial),
    }
}
