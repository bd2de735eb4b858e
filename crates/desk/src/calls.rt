ghost use Rattle.std.specs.Prelude.{◌≡◌};
ghost use Rattle.desk.specs.Performs.{Performs, PerformsOrRefuses};

use crate::answer::Answer;
use crate::screen::Screen;
use keeper::{Enquiry, Fault, Keeper};
use schedule::Call;

// Carries out a call on a keeper, and passes a refusal on.
fn perform_or_refuse<K: Screen>(keeper: &mut K, call: Call) -> Result<Answer, Fault>
    ensures { PerformsOrRefuses (K.Screen.labels keeper.old) (K.Enquiry.meaning keeper.old) call (K.Enquiry.meaning keeper.new) result }
{
    match call {
        Call::Keeper { .. } => Ok(Answer::Unreadable),
        Call::Open(program) => {
            keeper.open(program)?;
            Ok(Answer::Begun)
        }
        Call::Publish { program, operand } => {
            keeper.publish(program, operand)?;
            Ok(Answer::Begun)
        }
        Call::Step(program) => {
            let label = keeper.stands_at(program);
            let outcome = keeper.step(program)?;
            match label {
                Some(label) => Ok(Answer::Stepped { label, outcome }),
                None => unreachable!(),
            }
        }
        Call::Close(program) => {
            keeper.close(program)?;
            Ok(Answer::Begun)
        }
        Call::Root(program) => Ok(Answer::Root(keeper.root(program)?)),
        Call::Stage(program) => Ok(Answer::Stage(keeper.stage(program)?)),
        Call::Current => Ok(Answer::Current(keeper.current())),
        Call::Declared => Ok(Answer::Declared(keeper.declared())),
        Call::Show => Ok(Answer::Show),
    }
}

// Carries out a call on a keeper.
pub fn perform<K: Screen>(keeper: &mut K, call: Call) -> Answer
    ensures { Performs (K.Screen.labels keeper.old) (K.Enquiry.meaning keeper.old) call (K.Enquiry.meaning keeper.new) result }
{
    perform_or_refuse(keeper, call).unwrap_or_else(Answer::Refused)
}
