use crate::label::label_of;
use crate::state::Counting;
use std::fmt;

// The current serial, each filled row and each program at a step, in rising order.
impl fmt::Display for Counting {
    fn fmt<W: fmt::Write>(&self, f: &mut fmt::Formatter<W>) -> fmt::Result {
        let serial = self.current.serial;
        write!(f, "V {serial}")?;
        let rows = &self.rows[..=self.programs as usize];
        for (i, row) in rows.iter().enumerate() {
            if let Some(row) = row {
                let version = row.version;
                let users = row.users;
                write!(f, " | row {i} {version} users {users}")?;
            }
        }
        let stages = &self.stages[..self.programs as usize];
        for (program, stage) in stages.iter().enumerate() {
            if let Some(label) = label_of(*stage) {
                write!(f, " | at {program} {label}")?;
            }
        }
        Ok(())
    }
}
