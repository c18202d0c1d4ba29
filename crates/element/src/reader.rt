// The reader: an element's frame, and its units one after the other.
ghost use Rattle.std.specs.Prelude.{◌≡◌};
ghost use Rattle.element.specs.Laws as laws;
ghost use Rattle.element.specs.Outer.{options};
ghost use Rattle.element.specs.Reading as reading;
ghost use Rattle.element.specs.Refusals as refusals;

use crate::outer::{CONFIGURATION_PLACE, FIRST_OCTET, GREATEST, LEAST, LENGTH_PLACE, UNCOUNTED};
use crate::units::Units;
use catalogue::{Catalogue, Direction, Layer, Refusal};

/// Why an element is not whole, in the order in which the reader looks.
#[derive(Clone, Copy, PartialEq, Debug)]
pub enum ReaderFault {
    /// Too few octets for a header; so many were given.
    TooShort(usize),
    /// The first octet is not the element's.
    WrongFirst,
    /// The length octet does not count the octets after itself; so many were given in all.
    LengthDiffers(usize),
    /// More octets than an element may have; so many were given.
    TooLong(usize),
    /// The unit at this place runs past the end.
    RunsPast(usize),
}

/// A whole element in short: its configuration octet and how many units it has.
#[derive(Clone, Copy, PartialEq, Debug)]
pub struct Whole {
    pub configuration: u8,
    pub units: usize,
}

impl From<ReaderFault> for Refusal {
    ghost from_gives = { λ f r. r ≡ refusals.refusal_of f };

    fn from(fault: ReaderFault) -> Refusal {
        let (number, place) = match fault {
            ReaderFault::TooShort(given) => (1, given),
            ReaderFault::WrongFirst => (2, 0),
            ReaderFault::LengthDiffers(given) => (3, given),
            ReaderFault::TooLong(given) => (4, given),
            ReaderFault::RunsPast(place) => (5, place),
        };
        Refusal {
            number,
            place,
            layer: Layer::Reader,
        }
    }
}

/// Reads an element from its frame to its last unit: it is whole, or the answer is the first refusal that applies. Catalogue
/// and direction come in with the element, as at `Cursor::open`.
pub fn read<C: Catalogue>(
    catalogue: &C,
    direction: Direction,
    element: &[u8],
) -> Result<Whole, ReaderFault>
    ensures answer { result ≡
        laws.summary (reading.reads (C.meaning catalogue.now) direction options element.now) }
    ensures law { laws.ReadingLaw (C.meaning catalogue.now) direction options element.now }
{
    let units = Units::of(catalogue, direction, element)?.len();
    let configuration = frame(element)?;
    Ok(Whole {
        configuration,
        units,
    })
}

// The configuration octet of an element that passes the tests of its frame.
pub(crate) fn frame(element: &[u8]) -> Result<u8, ReaderFault>
    ensures answer { result ≡ reading.frame options element.now }
{
    let given = element.len();
    if given < LEAST {
        Err(ReaderFault::TooShort(given))
    } else if element[0] != FIRST_OCTET {
        Err(ReaderFault::WrongFirst)
    } else if usize::from(element[LENGTH_PLACE]) + UNCOUNTED != given {
        Err(ReaderFault::LengthDiffers(given))
    } else if given > GREATEST {
        Err(ReaderFault::TooLong(given))
    } else {
        Ok(element[CONFIGURATION_PLACE])
    }
}
