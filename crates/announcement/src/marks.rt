ghost use Rattle.std.specs.Prelude.{◌≡◌};
ghost use Rattle.announcement_theory.specs.Tests.{root_in};

use announcement_theory::Stored;

// The root in a slot, 0 in an empty one: the slots asked for hold versions, so an Option would add a case that never comes.
pub(crate) fn root_in(slot: Option<Stored>) -> u32
    ensures { result ≡ root_in slot }
{
    slot.map_or(0, |stored| stored.root)
}
