ghost use Rattle.std.specs.Prelude.{◌≡◌};
ghost use Rattle.keeper.specs.Refusals.{number_of, fault, fault_by};

use std::fmt;

// Why a call is turned down, by its number.
#[derive(Clone, Copy, PartialEq, Eq, Debug)]
pub enum Refusal {
    // A program number of P or more.
    NoProgram = 1,
    // Cells or leaves lent that are not as many as at the making.
    WrongMemory = 2,
    // A place above 7 or a field above 3.
    OutOfRange = 3,
    // A making whose numbers are outside the limits, or over a keeper that is not new.
    Limits = 4,
    // The program's stage forbids the call.
    StageForbids = 11,
    // A named place is empty.
    PlaceEmpty = 12,
    // The field to follow holds no cell.
    NoCell = 13,
    // No cell is free.
    NoFreeCell = 14,
    // The current serial is the last.
    LastSerial = 15,
    // A cell number to follow is not below N, or a count to raise is above its limit.
    Damaged = 16,
}

impl Refusal {
    // The number by which users know the refusal; its name says more than a From would.
    pub fn number(self) -> u32
        ensures { result ≡ number_of self }
    {
        self as u32
    }
}

// The layer that found a refusal.
#[derive(Clone, Copy, PartialEq, Eq, Debug)]
pub enum Layer {
    Cells,
    Keeper,
    Exchange,
}

impl Layer {
    // A refusal that this layer finds.
    pub fn refuses(self, refusal: Refusal) -> Fault
        ensures { result ≡ fault_by self refusal }
    {
        Fault {
            refusal,
            layer: self,
        }
    }
}

impl fmt::Display for Layer {
    fn fmt<W: fmt::Write>(&self, f: &mut fmt::Formatter<W>) -> fmt::Result {
        f.write_str(match self {
            Layer::Cells => "cells",
            Layer::Keeper => "keeper",
            Layer::Exchange => "exchange",
        })
    }
}

// A refusal with the layer that found it.
#[derive(Clone, Copy, PartialEq, Eq, Debug)]
pub struct Fault {
    pub refusal: Refusal,
    pub layer: Layer,
}

impl fmt::Display for Fault {
    fn fmt<W: fmt::Write>(&self, f: &mut fmt::Formatter<W>) -> fmt::Result {
        let number = self.refusal.number();
        let layer = self.layer;
        write!(f, "refused {number} {layer}")
    }
}

// A refusal that a keeper finds itself: the layer's refusal by its short name.
pub fn refused(refusal: Refusal) -> Fault
    ensures { result ≡ fault refusal }
{
    Layer::Keeper.refuses(refusal)
}
