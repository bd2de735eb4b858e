ghost use Rattle.std.specs.Prelude.{◌≡◌};
ghost use Rattle.announcement_theory.specs.Means.{open_label, offer_label, close_label, label_of};
ghost use Rattle.announcement.specs.Calls.{label_answer};
ghost use Rattle.announcement.specs.Model.{state_in};

use crate::state::Announcing;
use announcement_theory::{CloseLabel, Label, OfferLabel, OpenLabel, Position};
use keeper::Fault;

// The label of an open's place, and below of an offer's and a close's: functions and no From, since their contracts say which.
fn open_label(at: OpenLabel) -> Label
    ensures { result ≡ open_label at }
{
    match at {
        OpenLabel::O1 => Label::O1,
        OpenLabel::O2 => Label::O2,
        OpenLabel::O3 => Label::O3,
        OpenLabel::O4 { .. } => Label::O4,
        OpenLabel::O5 { .. } => Label::O5,
        OpenLabel::O6 { .. } => Label::O6,
    }
}

fn offer_label(at: OfferLabel) -> Label
    ensures { result ≡ offer_label at }
{
    match at {
        OfferLabel::F1 => Label::F1,
        OfferLabel::F2 { .. } => Label::F2,
        OfferLabel::F3 => Label::F3,
    }
}

fn close_label(at: CloseLabel) -> Label
    ensures { result ≡ close_label at }
{
    match at {
        CloseLabel::C1 => Label::C1,
        CloseLabel::C2 => Label::C2,
        CloseLabel::C3 => Label::C3,
        CloseLabel::C4 { .. } => Label::C4,
        CloseLabel::C5 => Label::C5,
        CloseLabel::C6 { .. } => Label::C6,
        CloseLabel::C7 => Label::C7,
    }
}

// The label of an operation under way.
pub(crate) fn label_of(position: Position) -> Option<Label>
    ensures { result ≡ label_of position }
{
    match position {
        Position::Opening { at, .. } => Some(open_label(at)),
        Position::Offering { at, .. } => Some(offer_label(at)),
        Position::Closing { at, .. } => Some(close_label(at)),
        Position::Idle | Position::Open(_) | Position::Offered(_) => None,
    }
}

impl Announcing {
    // The label at which a program stands: none when it is idle, open or offered.
    #[tactic(auto, using(crate::specs::Exact::label_says))]
    pub fn label(&self, program: u32) -> Result<Option<Label>, Fault>
        ensures { result ≡ label_answer (state_in self.now) program }
    {
        let p = self.seat(program)?;
        Ok(label_of(self.board.seat_at(p).position))
    }
}
