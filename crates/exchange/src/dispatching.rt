ghost use Rattle.std.specs.Prelude.{◌≡◌, true};
ghost use Rattle.exchange_theory.specs.Did.{Did};
ghost use Rattle.exchange_theory.specs.Promises.{GoesOn};
ghost use Rattle.exchange.specs.Calls.{on_places};
ghost use Rattle.exchange.specs.Worlds.{world_of};

use crate::exchange::Exchange;
use cells_theory::Cell;
use exchange_theory::{Answer, Call};
use keeper::{Enquiry, Fault, Keeper};

impl<K: Keeper> Exchange<K> {
    // Makes a call that reads or writes a place of a program.
    fn dispatch_on_places<T: Copy>(
        &mut self,
        call: Call<T>,
        cells: &mut [Cell],
        leaves: &mut [T],
    ) -> Result<Answer<T>, Fault>
        requires { on_places call ≡ true }
        ensures { Did call result (world_of K.Enquiry.meaning self.old cells.old leaves.old) (world_of K.Enquiry.meaning self.new cells.new leaves.new) }
    {
        // Apart from `dispatch`, since nine arms with their calls are more than one function should hold.
        match call {
            Call::Root { program, place } => self.root(program, place, cells, leaves)?,
            Call::Down {
                program,
                place,
                field,
                to,
            } => self.down(program, place, field, to, cells, leaves)?,
            Call::Look { program, place } => {
                return Ok(Answer::Shown(self.look(program, place, cells, leaves)?));
            }
            Call::Build {
                program,
                place,
                sources,
                leaf,
            } => self.build(program, place, sources, leaf, cells, leaves)?,
            _ => unreachable!(),
        }
        Ok(Answer::Done)
    }

    // Makes a call that is given as a value. The calls are a closed set, of which a run is a list, so each is data and no closure.
    fn dispatch<T: Copy>(
        &mut self,
        call: Call<T>,
        cells: &mut [Cell],
        leaves: &mut [T],
    ) -> Result<Answer<T>, Fault>
        ensures { Did call result (world_of K.Enquiry.meaning self.old cells.old leaves.old) (world_of K.Enquiry.meaning self.new cells.new leaves.new) }
    {
        match call {
            Call::Open(program) => {
                self.open(program, cells, leaves)?;
                Ok(Answer::Begun)
            }
            Call::Publish { program, place } => {
                self.publish(program, place, cells, leaves)?;
                Ok(Answer::Begun)
            }
            Call::Close(program) => {
                self.close(program, cells, leaves)?;
                Ok(Answer::Begun)
            }
            Call::Step(program) => Ok(Answer::Stepped(self.step(program, cells, leaves)?)),
            Call::Sweep => {
                let swept = self.sweep(cells, leaves)?;
                Ok(if swept {
                    Answer::Swept
                } else {
                    Answer::Unswept
                })
            }
            _ => self.dispatch_on_places(call, cells, leaves),
        }
    }

    // Makes a call that is given as a value. Whatever run led here, the run with this call and its answer added keeps every promise.
    pub fn perform<T: Copy>(
        &mut self,
        call: Call<T>,
        cells: &mut [Cell],
        leaves: &mut [T],
    ) -> Result<Answer<T>, Fault>
        ensures did { Did call result (world_of K.Enquiry.meaning self.old cells.old leaves.old) (world_of K.Enquiry.meaning self.new cells.new leaves.new) }
        ensures runs { GoesOn call result (world_of K.Enquiry.meaning self.old cells.old leaves.old) (world_of K.Enquiry.meaning self.new cells.new leaves.new) }
    {
        self.dispatch(call, cells, leaves)
    }
}
