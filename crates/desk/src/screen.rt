ghost use Rattle.std.specs.Prelude.{◌≡◌, ℕ, true, is_some, Option};
ghost use Rattle.keeper.specs.Stages.{moving};
ghost use Rattle.keeper.specs.Meaning.{stage_of};
ghost use Rattle.announcement_theory.specs.State.{position_at};
ghost use Rattle.announcement.specs.Model.{state_in};
ghost use Rattle.counting.specs.Moves.{stage_at};
ghost use Rattle.counting.specs.Model.{state_of};
ghost use Rattle.desk.specs.declared.label.Label.{Label};
ghost use Rattle.desk.specs.Performs.{announcement_label, counting_label};
ghost use Rattle.desk.specs.Labels;
ghost use Rattle.std.proofs.Common.{rules};

use crate::label::Label;
use announcement::Announcing;
use counting::Counting;
use keeper::{Enquiry, Keeper};

// A keeper whose programs stand at labels. One trait with its law serves both keepers; each impl says how its own labels become a desk's.
pub trait Screen: Keeper {
    ghost labels: { Self → ℕ → Option Label };

    // The label at which a program stands, none where it is idle, open or offered, or is no program.
    fn stands_at(&self, program: u32) -> Option<Label>
        ensures { result ≡ labels self.now program };

    // A program with steps left stands at a label.
    ghost placed: { (k : Self) (p : ℕ) → moving (stage_of (Self.Enquiry.meaning k) p) ≡ true → is_some (labels k p) ≡ true };
}

impl Screen for Announcing {
    ghost labels = { λ k p. announcement_label (position_at (state_in k) p) };

    ghost placed = { λ k p. Labels.placed (state_in k) p };

    fn stands_at(&self, program: u32) -> Option<Label> {
        let Ok(label) = self.label(program) else {
            return None;
        };
        label.map(Label::Announcement)
    }
}

impl Screen for Counting {
    ghost labels = { λ k p. counting_label (stage_at (state_of k) p) };

    ghost placed = { Prim.search rules };

    fn stands_at(&self, program: u32) -> Option<Label> {
        let Ok(label) = self.label(program) else {
            return None;
        };
        label.map(Label::Counting)
    }
}
