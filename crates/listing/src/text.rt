// The whole listing, line by line.
ghost use Rattle.std.specs.Prelude.{◌≡◌, ◌++◌, IfOk, length, string_bytes};
ghost use Rattle.catalogue.specs.declared.Direction.TheVariants.{ToModem};
ghost use Rattle.catalogue.specs.Editions.{long};
ghost use Rattle.element.specs.Handed.{left_of};
ghost use Rattle.listing.specs.Figures as figures;
ghost use Rattle.listing.specs.Lines as lines;
ghost use Rattle.listing.specs.Listing as listing;

use crate::lines::{CountLine, FaultLine, UnitLine, heading};
use catalogue::{Catalogue, Direction, Edition};
use element::Units;
use std::alloc::{AllocError, Global};

/// What the lister prints for the octets of one element, to modem and under the long edition.
#[tactic(auto, using(crate::proofs::Figures::figures_back))]
pub fn list(alloc: Global, element: &[u8]) -> Result<String, AllocError>
    ensures answer { IfOk result (λ s.
        string_bytes s ≡ listing.listing long ToModem element.now) }
    ensures law { figures.IdentifierLaw }
{
    match Units::of(&Edition::Long, Direction::ToModem, element) {
        Ok(units) => list_whole(alloc, units, element.len()),
        Err(fault) => format!(in alloc; "{}\n", FaultLine(fault.into())),
    }
}

// The listing of a whole element of so many octets.
fn list_whole<C: Catalogue>(
    alloc: Global,
    units: Units<'_, '_, C>,
    octets: usize,
) -> Result<String, AllocError>
    ensures answer { IfOk result (λ s.
        string_bytes s ≡ listing.ended lines.heading ++ (
        listing.placed_lines (left_of C.Catalogue units.entry) ++
        listing.ended (lines.count_line (length (left_of C.Catalogue units.entry)) octets))) }
{
    let mut text = String::new(alloc);
    writeln!(text, "{}", heading())?;
    for unit in units {
        writeln!(text, "{}", UnitLine(unit))?;
    }
    let units = units.len();
    writeln!(text, "{}", CountLine { units, octets })?;
    Ok(text)
}
