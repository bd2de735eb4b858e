ghost use Rattle.std.specs.Prelude.{◌≡◌, [], slice_index_or};
ghost use Rattle.keeper.specs.Course.{actor, calls_in, others_of, Made, MadeByOthers, OpenedAmong};

use crate::fault::Fault;
use crate::outcome::Outcome;
use crate::traits::{Enquiry, Keeper};
use crate::version::Version;

// A call that acts on a keeper.
#[derive(Clone, Copy)]
pub enum Action {
    Open(u32),
    Publish { program: u32, root: u32 },
    Close(u32),
    Step(u32),
}

impl Action {
    // The program that makes the call.
    pub fn program(self) -> u32
        ensures { result ≡ actor self }
    {
        match self {
            Action::Open(program) | Action::Close(program) | Action::Step(program) => program,
            Action::Publish { program, .. } => program,
        }
    }
}

// The version on which an open ended, and how many steps its program took.
#[derive(Clone, Copy)]
pub struct Opened {
    pub version: Version,
    pub steps: u32,
}

// Makes a call, whatever it answers. An action is a value that a list of calls holds, so a match and no closure.
fn perform<K: Keeper>(keeper: &mut K, call: Action)
    ensures { Made call (K.Enquiry.meaning keeper.old) (K.Enquiry.meaning keeper.new) }
{
    match call {
        Action::Open(program) => {
            let _ = keeper.open(program);
        }
        Action::Publish { program, root } => {
            let _ = keeper.publish(program, root);
        }
        Action::Close(program) => {
            let _ = keeper.close(program);
        }
        Action::Step(program) => {
            let _ = keeper.step(program);
        }
    }
}

// Makes those of the calls that are not `program`'s own.
fn perform_others<K: Keeper>(keeper: &mut K, program: u32, calls: &[Action])
    ensures { MadeByOthers program (others_of program calls.now []) (K.Enquiry.meaning keeper.old) (K.Enquiry.meaning keeper.new) }
{
    for call in calls {
        if call.program() != program {
            perform(keeper, *call);
        }
    }
}

// Makes the calls of the others before the program's own step number `turn`.
fn perform_turn<K: Keeper>(keeper: &mut K, program: u32, others: &[&[Action]], turn: u32)
    ensures { MadeByOthers program (others_of program (slice_index_or (calls_in others.now) turn []) []) (K.Enquiry.meaning keeper.old) (K.Enquiry.meaning keeper.new) }
{
    if let Some(calls) = others.get(turn as usize) {
        perform_others(keeper, program, calls);
    }
}

// Opens a version for a program while others act: before its own step number i they make the calls `others[i]`.
// Whatever these are, the open ends within the declared steps.
pub fn open_among<K: Keeper>(
    keeper: &mut K,
    program: u32,
    others: &[&[Action]],
) -> Result<Opened, Fault>
    ensures { OpenedAmong (K.Enquiry.meaning keeper.old) program (calls_in others.now) (K.Enquiry.meaning keeper.new) result }
{
    keeper.open(program)?;
    let most = keeper.declared().opening;
    // By number: a turn is a step, and there may be fewer lists of calls than steps.
    for turn in 0..most {
        perform_turn(keeper, program, others, turn);
        let outcome = keeper.step(program)?;
        if let Outcome::Opened(serial) = outcome {
            let root = keeper.root(program)?;
            return Ok(Opened {
                version: Version { serial, root },
                steps: turn + 1,
            });
        }
    }
    unreachable!()
}
