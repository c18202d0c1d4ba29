// The operator layer and the narrowing layer. Each stands over any catalogue and is one.
ghost use Rattle.std.specs.Prelude.{◌≡◌, ◌^◌, ◌<◌, ◌≤◌, ◌⊎◌, length, slice_get};
ghost use Rattle.catalogue.specs.Layers as layers;
ghost use Rattle.catalogue.specs.Operators as operators;
ghost use Rattle.catalogue.specs.OverAny.{operator_lawful, narrowing_lawful};

use crate::{Answer, Catalogue, Companions, Direction, Layer, OperatorCode, Refusal, Row, Rule};
use std::array;

/// The most identifiers of a narrowing list.
pub const MOST_IDENTIFIERS: usize = 16;

/// The identifier of an operator's strike orders, to modem.
pub const STRIKE_ORDER: u16 = 0xFF01;

/// Why the part that a layer is made from was declined.
#[derive(Clone, Copy, PartialEq, Debug)]
pub enum CatalogueFault {
    /// A narrowing list holds 16 identifiers; so many were given.
    TooManyIdentifiers(usize),
    /// A mobile country code has three digits. Its place is 1, as the first of an operator's numbers.
    MccTooLarge,
    /// A mobile network code has two digits or three. Its place is 2.
    WrongDigits,
    /// The mobile network code has more digits than were named. Its place is 3.
    MncTooLarge,
}

// A fault's line in the table of refusals.
impl From<CatalogueFault> for Refusal {
    ghost from_gives = { λ f r. r ≡ layers.refusal_of f };

    fn from(fault: CatalogueFault) -> Refusal {
        let (number, place) = match fault {
            CatalogueFault::TooManyIdentifiers(given) => (11, given),
            CatalogueFault::MccTooLarge => (12, 1),
            CatalogueFault::WrongDigits => (12, 2),
            CatalogueFault::MncTooLarge => (12, 3),
        };
        Refusal {
            number,
            place,
            layer: Layer::Catalogue,
        }
    }
}

impl OperatorCode {
    /// The octets of an operator: of its mobile country code, its mobile network code, and how many digits the latter has.
    #[tactic(auto, using(crate::proofs::Codes::operator_law))]
    pub fn new(mcc: u16, mnc: u16, digits: u8) -> Result<OperatorCode, CatalogueFault>
        ensures answer { result ≡ layers.operator_code mcc mnc digits }
        ensures law { operators.OperatorLaw mcc mnc digits }
    {
        if mcc > 999 {
            return Err(CatalogueFault::MccTooLarge);
        }
        let limit = match digits {
            2 => 100,
            3 => 1000,
            _ => return Err(CatalogueFault::WrongDigits),
        };
        if mnc >= limit {
            return Err(CatalogueFault::MncTooLarge);
        }
        Ok(octets_of(mcc, mnc, digits))
    }
}

// Two digits in an octet, the high half first. By `as`, which is proved to lose nothing: the library has no narrowing without
// a test.
fn halves(high: u16, low: u16) -> u8
    requires high { high < 16 }
    requires low { low < 16 }
    ensures answer { result ≡ layers.halves high low }
{
    (16 * high + low) as u8
}

// The octets of an operator whose codes have no more than their digits.
fn octets_of(mcc: u16, mnc: u16, digits: u8) -> OperatorCode
    requires mcc { mcc < 1000 }
    requires digits { (digits ≡ 2) ⊎ (digits ≡ 3) }
    requires mnc { mnc < 10 ^ digits }
    ensures answer { result ≡ layers.operator_octets mcc mnc digits }
{
    let first = halves(mcc / 10 % 10, mcc / 100);
    if digits == 2 {
        OperatorCode {
            first,
            second: halves(0xF, mcc % 10),
            third: halves(mnc % 10, mnc / 10),
        }
    } else {
        OperatorCode {
            first,
            second: halves(mnc % 10, mcc % 10),
            third: halves(mnc / 10 % 10, mnc / 100),
        }
    }
}

/// The identifiers that a narrowing layer lets through. An array of places, since the core has no heap; the kit's `ArrayVec`
/// has no heap either, but is not `Copy`, and layers are copied. It has no `Model`: a type that is `Copy` must give its fields
/// back from it, and the same identifiers may stand in other places.
#[derive(Clone, Copy)]
pub struct IdentifierList {
    identifiers: [Option<u16>; MOST_IDENTIFIERS],
}

impl IdentifierList {
    /// A list of at most 16 identifiers.
    pub fn new(identifiers: &[u16]) -> Result<IdentifierList, CatalogueFault>
        ensures answer { layers.filled result ≡ layers.filling identifiers.now }
    {
        let given = identifiers.len();
        if given > MOST_IDENTIFIERS {
            return Err(CatalogueFault::TooManyIdentifiers(given));
        }
        Ok(copied(identifiers))
    }

    // Whether an identifier is listed.
    fn contains(&self, identifier: u16) -> bool
        ensures answer { result ≡ layers.among (layers.identifiers_of self.now) identifier }
    {
        self.identifiers.contains(&Some(identifier))
    }
}

// The list of identifiers that are few enough.
fn copied(identifiers: &[u16]) -> IdentifierList
    requires few { length identifiers.now ≤ 16 }
    ensures answer { layers.identifiers_of result ≡ identifiers.now }
{
    IdentifierList {
        identifiers: array::from_fn(
            |place|
                ensures { result ≡ slice_get identifiers.entry.now place }
            { identifiers.get(place).copied() },
        ),
    }
}

/// An operator's strike orders over the catalogue below.
#[derive(Clone, Copy)]
pub struct OperatorLayer<C> {
    pub code: OperatorCode,
    pub below: C,
}

/// Only the identifiers listed, over the catalogue below.
#[derive(Clone, Copy)]
pub struct NarrowingLayer<C> {
    pub list: IdentifierList,
    pub below: C,
}

impl<C: Catalogue> Catalogue for OperatorLayer<C> {
    ghost meaning = { λ s. layers.with_operator s.code (C.Catalogue.meaning s.below) };

    ghost lawful = { λ c. operator_lawful c.code (C.Catalogue.meaning c.below) (C.Catalogue.lawful c.below) };

    // A strike order to modem is the operator's; all else is answered from below.
    #[inline(always)]
    fn answer(&self, direction: Direction, identifier: u16) -> Answer {
        match identifier {
            STRIKE_ORDER if direction == Direction::ToModem => strike_answer(self.code),
            _ => self.below.answer(direction, identifier),
        }
    }
}

impl<C: Catalogue> Catalogue for NarrowingLayer<C> {
    ghost meaning = { λ s. layers.narrowed_to (layers.identifiers_of s.list) (C.Catalogue.meaning s.below) };

    ghost lawful = { λ c. narrowing_lawful (layers.identifiers_of c.list) (C.Catalogue.meaning c.below)
        (C.Catalogue.lawful c.below) };

    // The width is that of the catalogue below, also where the identifier is not listed: units are cut alike.
    #[inline(always)]
    fn answer(&self, direction: Direction, identifier: u16) -> Answer {
        let below = self.below.answer(direction, identifier);
        if self.list.contains(identifier) {
            below
        } else {
            Answer {
                width: below.width,
                entry: None,
            }
        }
    }
}

// What an operator layer answers for the identifier of its strike orders.
#[inline(always)]
fn strike_answer(code: OperatorCode) -> Answer
    ensures answer { result ≡ layers.strike_answer code }
{
    Answer {
        width: 1,
        entry: Some(Row {
            rule: Rule::StrikeOrder(code),
            slot: 9,
            companions: Companions::None,
        }),
    }
}
