use crate::label::label_of;
use crate::state::Announcing;
use announcement_theory::{Announcement, Stored};
use std::fmt;

impl Announcing {
    // Each filled slot, in rising order.
    fn write_slots<W: fmt::Write>(&self, f: &mut fmt::Formatter<W>) -> fmt::Result {
        for (slot, held) in self.board.used_slots().iter().enumerate() {
            if let Some(
                Stored {
                    serial,
                    root,
                    status,
                },
            ) = held
            {
                write!(f, " | slot {slot} {serial} root {root} {status}")?;
            }
        }
        Ok(())
    }

    // Each announcement, in rising order of the programs.
    fn write_announcements<W: fmt::Write>(&self, f: &mut fmt::Formatter<W>) -> fmt::Result {
        for (program, seat) in self.board.used_seats().iter().enumerate() {
            match seat.announced {
                Announcement::Empty => {}
                Announcement::Plain(version) => write!(f, " | announced {program} {version}")?,
                Announcement::Help(version) => write!(f, " | announced {program} {version} help")?,
            }
        }
        Ok(())
    }

    // Each program at a label, in rising order.
    fn write_labels<W: fmt::Write>(&self, f: &mut fmt::Formatter<W>) -> fmt::Result {
        for (program, seat) in self.board.used_seats().iter().enumerate() {
            if let Some(label) = label_of(seat.position) {
                write!(f, " | at {program} {label}")?;
            }
        }
        Ok(())
    }
}

// The current version, each filled slot, each announcement and each program at a label.
impl fmt::Display for Announcing {
    fn fmt<W: fmt::Write>(&self, f: &mut fmt::Formatter<W>) -> fmt::Result {
        write!(f, "V {}", self.board.current)?;
        self.write_slots(f)?;
        self.write_announcements(f)?;
        self.write_labels(f)
    }
}
