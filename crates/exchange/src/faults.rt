ghost use Rattle.std.specs.Prelude.{◌≡◌};
ghost use Rattle.exchange_theory.specs.Order.{own_fault};

use keeper::{Fault, Layer, Refusal};

// A refusal that the exchange finds itself: the layer's refusal by its short name, as a keeper has one.
pub(crate) fn refused(refusal: Refusal) -> Fault
    ensures { result ≡ own_fault refusal }
{
    Layer::Exchange.refuses(refusal)
}
