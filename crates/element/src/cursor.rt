// One walk over the units of an element, under a catalogue and in a direction.
ghost use Rattle.std.specs.Prelude.{◌≡◌, ◌<◌, length};
ghost use Rattle.element.specs.Counts as counts;
ghost use Rattle.element.specs.Heads as heads;
ghost use Rattle.element.specs.Outer.{options};
ghost use Rattle.element.specs.Reading as reading;
ghost use Rattle.element.specs.Walk as walk;

use crate::outer::HEADER;
use crate::reader::{ReaderFault, frame};
use catalogue::{Answer, Catalogue, Direction};

/// A unit where it stands: its place, its identifier, the place where its contents start, and the contents.
#[derive(Clone, Copy, PartialEq, Debug)]
pub struct PlacedUnit<'a> {
    pub place: usize,
    pub identifier: u16,
    pub start: usize,
    pub contents: &'a [u8],
}

/// A walk over the units of a framed element. It stands before the next unit: at a place of the octets, since units and faults
/// tell places, and what is left of a slice has lost them. It has no `Model`, as a model is data and a catalogue's meaning is a
/// function.
#[derive_where(Clone, Copy)]
pub struct Cursor<'c, 'a, C> {
    catalogue: &'c C,
    direction: Direction,
    octets: &'a [u8],
    place: usize,
}

// The catalogue and the direction come in with an element, at `open`, `under`, `Units::of` and the functions above these;
// a struct of the two would be made at each call and be taken apart at once. From there on the cursor carries them.
impl<'c, 'a, C: Catalogue> Cursor<'c, 'a, C> {
    /// Stands before the first unit of an element, or gives the fault of the element's frame.
    pub fn open(
        catalogue: &'c C,
        direction: Direction,
        element: &'a [u8],
    ) -> Result<Cursor<'c, 'a, C>, ReaderFault>
        ensures answer { walk.opened C.meaning result ≡
            walk.opening (C.meaning catalogue.now) direction options element.now }
    {
        let _configuration = frame(element)?;
        Ok(Cursor {
            catalogue,
            direction,
            octets: element,
            place: HEADER,
        })
    }

    /// The next unit, and the cursor goes behind it; or none at the end of the element, or the fault of a unit that runs
    /// past that end, and the cursor stays.
    pub fn next_unit(&mut self) -> Result<Option<PlacedUnit<'a>>, ReaderFault>
        ensures answer { walk.seen result ≡ walk.unit_before (walk.walk_of C.meaning self.old) }
        ensures state { walk.walk_of C.meaning self.new ≡
            walk.one_on (walk.walk_of C.meaning self.old) }
    {
        let found = self.unit()?;
        if let Some(unit) = found {
            self.place = unit.start + unit.contents.len();
        }
        Ok(found)
    }

    /// A cursor at the same place, that reads by another catalogue and in that direction from there on.
    pub fn under<'d, D: Catalogue>(
        self,
        catalogue: &'d D,
        direction: Direction,
    ) -> Cursor<'d, 'a, D>
        ensures answer { walk.walk_of D.meaning result
            ≡ walk.under (D.meaning catalogue.now) direction (walk.walk_of C.meaning self.entry) }
    {
        Cursor {
            catalogue,
            direction,
            octets: self.octets,
            place: self.place,
        }
    }

    /// The next unit, as a catalogue that is lent for this call alone cuts it in that direction, and the cursor goes behind it and
    /// reads on by its own. The end and a fault are answered as by `next_unit`.
    pub fn next_unit_under<D: Catalogue>(
        &mut self,
        catalogue: &D,
        direction: Direction,
    ) -> Result<Option<PlacedUnit<'a>>, ReaderFault>
        ensures answer { walk.seen result ≡
            walk.unit_at (D.meaning catalogue.now) direction (walk.position self.old) }
        ensures state { walk.walk_of C.meaning self.new ≡
            walk.one_on_under (D.meaning catalogue.now) direction (walk.walk_of C.meaning self.old) }
    {
        let mut step = self.under(catalogue, direction);
        let found = step.next_unit()?;
        self.place = step.place;
        Ok(found)
    }

    // What the catalogue answers for an identifier in the direction of the walk. Inlined, so that a walk, which reads the width
    // alone, does not decide the row.
    #[inline(always)]
    pub(crate) fn answer(&self, identifier: u16) -> Answer
        ensures answer { result ≡ C.meaning self.now.catalogue.now self.now.direction identifier }
    {
        self.catalogue.answer(self.direction, identifier)
    }

    // How many units stand from the cursor on, or the fault of the one that runs past the end.
    pub(crate) fn count_units(self) -> Result<usize, ReaderFault>
        ensures answer { result ≡ counts.counted (walk.cut_on (walk.walk_of C.meaning self.entry)) }
    {
        // an iterator must end, and a cursor gives its fault again and again, so this is a loop
        let mut cursor = self;
        let mut units = 0;
        while let Some(_) = cursor.next_unit()? {
            units += 1;
        }
        Ok(units)
    }

    // The unit that the cursor stands before; none at the end of the octets.
    fn unit(&self) -> Result<Option<PlacedUnit<'a>>, ReaderFault>
        ensures answer { walk.seen result ≡ walk.unit_before (walk.walk_of C.meaning self.now) }
        ensures within { walk.Ends (walk.seen result) (length self.now.octets.now) }
    {
        let octets = self.octets;
        let place = self.place;
        if place >= octets.len() {
            return Ok(None);
        }
        let head = self
            .head(&octets[place..])
            .ok_or(ReaderFault::RunsPast(place))?;
        let start = place + head.size;
        let end = start + head.length;
        Ok(Some(PlacedUnit {
            place,
            identifier: head.identifier,
            start,
            contents: &octets[start..end],
        }))
    }

    // The head of the unit at the front of octets, or none if the unit runs past their end.
    fn head(&self, octets: &[u8]) -> Option<Head>
        requires { 0 < length octets.now }
        ensures front { heads.front_as result octets.now
            ≡ reading.front (C.meaning self.now.catalogue.now) self.now.direction octets.now }
        ensures within { heads.Within (C.meaning self.now.catalogue.now) self.now.direction result octets.now }
    {
        let [high, low, tail @ ..] = octets else {
            return None;
        };
        let identifier = u16::from_be_bytes([*high, *low]);
        let width = self.answer(identifier).width;
        let size = IDENTIFIER_OCTETS + usize::from(width);
        let length = usize::from(length_field(width, tail)?);
        if size + length > octets.len() {
            return None;
        }
        Some(Head {
            identifier,
            size,
            length,
        })
    }
}

// A unit opens with an identifier of two octets.
const IDENTIFIER_OCTETS: usize = 2;

// A unit's identifier, the octets of its identifier and length field, and the length of its contents.
#[derive(Clone, Copy)]
struct Head {
    identifier: u16,
    size: usize,
    length: usize,
}

// The number in a length field of one or two octets, high octet first, at the front of octets.
fn length_field(width: u8, octets: &[u8]) -> Option<u16>
    ensures answer { heads.field_as result width octets.now ≡ reading.read_field width octets.now }
{
    match octets {
        [number, ..] if width == 1 => Some(u16::from(*number)),
        [high, low, ..] if width != 1 => Some(u16::from_be_bytes([*high, *low])),
        _ => None,
    }
}
