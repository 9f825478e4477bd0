// What reading a text gives.
ghost use Rattle.std.specs.Prelude.{◌≡◌};
ghost use Rattle.roadtext.specs.declared.outcome.Unread.TheVariants.{Refused as refused_with, Memory as no_memory};

use super::fault::Fault;
use super::parts::Ask;
use drawing::Rest;
use std::alloc::AllocFailed;

// A text that was read: the drawing, and the asks that wait, in order.
#[derive(Drop)]
pub struct Reading {
    pub drawing: Rest,
    pub asks: Vec<Ask>,
}

// Why a text was not read: it is refused with its first fault, or there was no memory for what it says.
#[derive(Clone, Copy, PartialEq, Eq, Debug)]
pub enum Unread {
    Refused(Fault),
    Memory,
}

// A fault goes through as it is.
impl From<Fault> for Unread {
    ghost from_gives = { λ e r. r ≡ refused_with e };

    fn from(e: Fault) -> Unread {
        Unread::Refused(e)
    }
}

// There was no memory for one more.
impl<T: Drop> From<AllocFailed<T>> for Unread {
    ghost from_gives = { λ _ r. r ≡ no_memory };

    fn from(_e: AllocFailed<T>) -> Unread {
        Unread::Memory
    }
}
