// What a catalogue answers for each identifier of a protocol configuration options element, and the shape that all
// refusals share. Every other crate builds on these types.
#![tactic(auto)]

ghost use Rattle.std.specs.Prelude.{◌≡◌};
ghost use Rattle.catalogue.specs.Meaning.{Meaning};
ghost use Rattle.catalogue.specs.Laws.{Lawful};

mod editions;
mod layers;
#[cfg(test)]
mod tests;

pub use editions::Edition;
pub use layers::{
    CatalogueFault, IdentifierList, MOST_IDENTIFIERS, NarrowingLayer, OperatorLayer, STRIKE_ORDER,
};

/// The part of the software that declined a call.
#[derive(Clone, Copy, PartialEq, Debug)]
pub enum Layer {
    Reader,
    Session,
    Writer,
    Catalogue,
}

/// A declined call, by its line in the table of refusals.
#[derive(Clone, Copy, PartialEq, Debug)]
pub struct Refusal {
    /// The line's number. It stays a number, since it is what leaves the device; in code each part's faults are an enum.
    pub number: u8,
    /// What this number counts, or which part it names, depends on the refusal's number; each fault's enum says which.
    pub place: usize,
    pub layer: Layer,
}

/// Which way an element travels.
#[derive(Clone, Copy, PartialEq, Debug)]
pub enum Direction {
    ToNetwork,
    ToModem,
}

/// The three octets by which an operator is named: its country and network codes as packed decimal digits.
#[derive(Clone, Copy, PartialEq, Debug)]
pub struct OperatorCode {
    pub first: u8,
    pub second: u8,
    pub third: u8,
}

/// What the contents of a unit may be.
#[derive(Clone, Copy, PartialEq, Debug)]
pub enum Rule {
    /// No octets.
    Empty,
    /// An IPv4 address, 4 octets.
    Ipv4,
    /// An IPv6 address, 16 octets.
    Ipv6,
    /// An IPv6 address and a prefix length, 17 octets.
    Prefix,
    /// One octet of any value.
    OneOctet,
    /// One octet, 01 or 02.
    Mode,
    /// One octet, 00 or 01.
    Indicator,
    /// A number of two octets.
    Number,
    /// Any octets.
    Any,
    /// A PPP packet, 4 octets or more.
    PppPacket,
    /// The operator's strike order, 6 octets or more: it opens with the operator's octets.
    StrikeOrder(OperatorCode),
}

/// Identifiers of which at least one must also stand in the element, with right contents. At most two, so three cases; in an
/// array of options there could be a gap.
#[derive(Clone, Copy, PartialEq, Debug)]
pub enum Companions {
    None,
    One(u16),
    Two(u16, u16),
}

/// A supported identifier: the rule on its contents, the slot that keeps its value, its companions.
#[derive(Clone, Copy, PartialEq, Debug)]
pub struct Row {
    pub rule: Rule,
    /// 1 to 9, or 0, which keeps nothing and is never full. It stays a number: the rules speak of slot 0 as of the others,
    /// a catalogue may name any number, and the laws speak of all.
    pub slot: u8,
    pub companions: Companions,
}

/// What a catalogue answers for an identifier in a direction.
#[derive(Clone, Copy, PartialEq, Debug)]
pub struct Answer {
    /// How many octets the length field has: a count, which sizes are summed from, so it is a number.
    pub width: u8,
    /// The row, if the identifier is supported in that direction.
    pub entry: Option<Row>,
}

/// One fixed answer for each direction and identifier. Asking changes nothing and is never declined.
pub trait Catalogue {
    ghost meaning: { Self → Meaning };

    fn answer(&self, direction: Direction, identifier: u16) -> Answer
        ensures answer { result ≡ meaning self.now direction identifier };

    ghost lawful: { (c : Self) → Lawful (meaning c) };
}
