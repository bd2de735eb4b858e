// A client of the exchange: a row of calls, one after the other.
#![tactic(auto)]

ghost use Rattle.std.specs.Prelude.{List};
ghost use Rattle.exchange_theory.specs.History.{Event, Reached};
ghost use Rattle.exchange_theory.specs.Promises.{Promises};
ghost use Rattle.exchange.specs.Worlds.{world_of};
ghost use Rattle.exchange_client.specs.Rows.{Performed};

use cells_theory::Cell;
use exchange::Exchange;
use exchange_theory::Call;
use keeper::{Enquiry, Keeper};

// Performs the calls in their order, and answers how many of them were refused. Whatever run led here, the run with these calls and
// their answers added keeps every promise.
pub fn perform_all<K: Keeper, T: Copy>(
    exchange: &mut Exchange<K>,
    calls: &[Call<T>],
    cells: &mut [Cell],
    leaves: &mut [T],
) -> usize
    ensures { (leaf : T) (h : List (Event T)) → Reached leaf h (world_of K.Enquiry.meaning exchange.old cells.old leaves.old) → Promises leaf h (world_of K.Enquiry.meaning exchange.old cells.old leaves.old) → Performed leaf h calls.now result (world_of K.Enquiry.meaning exchange.new cells.new leaves.new) }
{
    let mut refused = 0;
    for call in calls {
        let answer = exchange.perform(*call, cells, leaves);
        if answer.is_err() {
            refused += 1;
        }
    }
    refused
}
