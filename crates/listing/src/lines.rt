// The lines of a listing. None ends with a line feed.
ghost use Rattle.std.specs.Prelude.{◌≡◌, ◌%◌, Some, IfOk, string_bytes};
ghost use Rattle.element.specs.Walk.{placed_unit};
ghost use Rattle.listing.specs.Figures as figures;
ghost use Rattle.listing.specs.Lines as lines;

use catalogue::Refusal;
use element::PlacedUnit;
use std::alloc::{AllocError, Global};
use std::fmt;

/// The hexadecimal figure of the low half of an octet, in upper case.
pub fn hex_figure(octet: u8) -> char
    ensures answer { result ≡ figures.figure (octet % 16) }
    ensures law { figures.FigureLaw }
{
    let half = octet % 16;
    if half < 10 {
        char::from(b'0' + half)
    } else {
        char::from(b'A' + (half - 10))
    }
}

/// The first line: the names of the fields.
pub fn heading() -> &'static str
    ensures answer { result.now ≡ lines.heading }
{
    "place id length"
}

/// A unit's line: its place, its identifier in hexadecimal and the length of its contents.
#[derive(Clone, Copy, PartialEq, Debug)]
pub struct UnitLine<'a>(pub PlacedUnit<'a>);

impl fmt::Display for UnitLine<'_> {
    ghost output = { λ line. Some (lines.unit_line (placed_unit line.0)) };

    fn fmt<W: fmt::Write>(&self, f: &mut fmt::Formatter<W>) -> fmt::Result {
        let unit = self.0;
        let place = unit.place;
        let identifier = Figures(unit.identifier);
        let length = unit.contents.len();
        write!(f, "{place} {identifier} {length}")
    }
}

/// The same line as a text of its own; read as a hexadecimal number, the identifier's figures are the identifier.
#[tactic(auto, using(crate::proofs::Figures::figures_back))]
pub fn unit_line(alloc: Global, unit: PlacedUnit<'_>) -> Result<String, AllocError>
    ensures answer { IfOk result (λ s. string_bytes s ≡ lines.unit_line (placed_unit unit.entry)) }
    ensures law { figures.value_of (figures.figures_of unit.entry.identifier) ≡ unit.entry.identifier }
{
    format!(in alloc; "{}", UnitLine(unit))
}

/// The last line: how many units and octets the element has, and how it was read.
#[derive(Clone, Copy, PartialEq, Debug)]
pub struct CountLine {
    pub units: usize,
    pub octets: usize,
}

impl fmt::Display for CountLine {
    ghost output = { λ line. Some (lines.count_line line.units line.octets) };

    fn fmt<W: fmt::Write>(&self, f: &mut fmt::Formatter<W>) -> fmt::Result {
        let CountLine { units, octets } = *self;
        write!(f, "{units} units, {octets} octets, to modem, long edition")
    }
}

/// The only line for an element that is declined: the refusal's number and place.
#[derive(Clone, Copy, PartialEq, Debug)]
pub struct FaultLine(pub Refusal);

impl fmt::Display for FaultLine {
    ghost output = { λ line. Some (lines.fault_line line.0) };

    fn fmt<W: fmt::Write>(&self, f: &mut fmt::Formatter<W>) -> fmt::Result {
        let Refusal { number, place, .. } = self.0;
        write!(f, "fault {number} at {place}")
    }
}

// The four hexadecimal figures of an identifier, the highest first. By `hex_figure`, since a law of this project stands on a
// function that its programs call: by a format's `{:02X}` nothing would call that one, and its law would speak of nothing.
#[derive(Clone, Copy)]
struct Figures(u16);

impl fmt::Display for Figures {
    ghost output = { λ identifier. Some (figures.figures_of identifier.0) };

    #[tactic(auto, using(crate::proofs::Figures::figure_written))]
    fn fmt<W: fmt::Write>(&self, f: &mut fmt::Formatter<W>) -> fmt::Result {
        let [high, low] = self.0.to_be_bytes();
        write!(
            f,
            "{}{}{}{}",
            hex_figure(high / 16),
            hex_figure(high),
            hex_figure(low / 16),
            hex_figure(low)
        )
    }
}
