ghost use Rattle.std.specs.Prelude.{◌≡◌, ℕ, true, slice_set};
ghost use Rattle.exchange_theory.specs.Inside.{below, within};
ghost use Rattle.exchange_theory.specs.World.{emptied, row_reading, row_building};

// What the exchange holds for one program.
#[derive(Clone, Copy)]
pub struct Row {
    // Its reading places and its building places. Each is empty or names a cell.
    pub reading: [Option<u32>; 8],
    pub building: [Option<u32>; 8],
    // The building place that it offered last. Read only while an offer runs, as the next is while a close does: so neither is an Option.
    pub offered: u32,
    // The root of the version that it closed last.
    pub closing: u32,
}

// Eight places with what one of them is to name.
fn naming(places: [Option<u32>; 8], place: u32, named: Option<u32>) -> [Option<u32>; 8]
    ensures { result ≡ slice_set places place named }
{
    let mut after = places;
    if place < 8 {
        after[place as usize] = named;
    }
    after
}

impl Row {
    // The row of a program that has done nothing yet.
    pub const NEW: Row = Row {
        reading: [None; 8],
        building: [None; 8],
        offered: 0,
        closing: 0,
    };

    // The row with what one of its reading places is to name: nothing, or a cell. There are eight; nothing changes for another number.
    // Where the places name cells below a limit, and the new one does, they still do.
    #[tactic(auto, using(crate::proofs::Insides::within_reading))]
    pub fn with_reading(self, place: u32, named: Option<u32>) -> Row
        ensures value { result ≡ row_reading place named self }
        ensures inside { (n : ℕ) → within n self ≡ true → below n named ≡ true → within n result ≡ true }
    {
        Row {
            reading: naming(self.reading, place, named),
            ..self
        }
    }

    // The same for one of its building places.
    #[tactic(auto, using(crate::proofs::Insides::within_building))]
    pub fn with_building(self, place: u32, named: Option<u32>) -> Row
        ensures value { result ≡ row_building place named self }
        ensures inside { (n : ℕ) → within n self ≡ true → below n named ≡ true → within n result ≡ true }
    {
        Row {
            building: naming(self.building, place, named),
            ..self
        }
    }

    // The row with no places, whose program closes a version with that root.
    #[tactic(auto, using(crate::proofs::Insides::within_emptied))]
    pub fn emptied(self, root: u32) -> Row
        ensures value { result ≡ emptied self.offered root }
        ensures inside { (n : ℕ) → within n self ≡ true → within n result ≡ true }
    {
        Row {
            offered: self.offered,
            closing: root,
            ..Row::NEW
        }
    }
}
