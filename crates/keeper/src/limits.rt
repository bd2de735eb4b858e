ghost use Rattle.std.specs.Prelude.{◌≡◌};
ghost use Rattle.keeper.specs.Refusals.{limits, MayMake, Seated};

use crate::fault::{Fault, Refusal, refused};

// The most programs that there can be.
pub const MOST_PROGRAMS: u32 = 8;

// The largest last serial that there can be.
pub const MOST_SERIALS: u32 = 4_000_000_000;

// Whether so many programs and that last serial are within the limits.
pub fn within_limits(programs: u32, last: u32) -> bool
    ensures { result ≡ limits programs last }
{
    (1..=MOST_PROGRAMS).contains(&programs) && (1..=MOST_SERIALS).contains(&last)
}

// Whether a keeper can be made for so many programs with that last serial.
pub fn check_limits(programs: u32, last: u32) -> Result<(), Fault>
    ensures { MayMake programs last result }
{
    if !within_limits(programs, last) {
        return Err(refused(Refusal::Limits));
    }
    Ok(())
}

// The program, if there is one of that number.
pub fn seated(programs: u32, program: u32) -> Result<u32, Fault>
    ensures { Seated programs program result }
{
    if program >= programs {
        return Err(refused(Refusal::NoProgram));
    }
    Ok(program)
}
