// The units of a whole element, handed out one after the other.
ghost use Rattle.std.specs.Prelude.{◌≡◌, Ok};
ghost use Rattle.std.proofs.Props.{props};
ghost use Rattle.element.specs.Walk.{cut_on, walk_of};
ghost use Rattle.element.specs.Counts.{counted};

use crate::cursor::{Cursor, PlacedUnit};
use crate::reader::ReaderFault;
use catalogue::{Answer, Catalogue, Direction};
use std::alloc::AllocError;

/// The units of a whole element from one of them on, each where it stands. Being whole, it has no unit that runs past its
/// end, so handing out the units never fails. No `Model`, as of the cursor.
pub struct Units<'c, 'a, C: Catalogue> {
    cursor: Cursor<'c, 'a, C>,
    left: usize,
    ghost whole: { counted (cut_on (walk_of C.meaning cursor)) ≡ Ok left } by { Prim.hlevel props },
}

impl<'c, 'a, C: Catalogue> Units<'c, 'a, C> {
    ghost use Rattle.std.specs.Prelude.{IfOk};
    ghost use Rattle.element.specs.Outer.{options};
    ghost use Rattle.element.specs.Reading.{reads};
    ghost use Rattle.element.specs.Walk.{answer_on};
    ghost use Rattle.element.specs.Left.{HandsOut};
    ghost use Rattle.element.specs.Handed.{walk_of_units, walks, handing_out};
    ghost use Rattle.element.specs.Laws.{ReadingLaw};

    /// The units of an element, if it is whole; or the first refusal that applies. Catalogue and direction come in with the
    /// element, as at `Cursor::open`.
    pub fn of(
        catalogue: &'c C,
        direction: Direction,
        element: &'a [u8],
    ) -> Result<Units<'c, 'a, C>, ReaderFault>
        ensures answer { walks C.Catalogue result ≡
            handing_out (C.meaning catalogue.now) direction options element.now
            (reads (C.meaning catalogue.now) direction options element.now) }
        ensures units { IfOk result (λ us. HandsOut (C.meaning catalogue.now) direction options
            element.now (walk_of_units C.Catalogue us)) }
        ensures law { ReadingLaw (C.meaning catalogue.now) direction options element.now }
    {
        let cursor = Cursor::open(catalogue, direction, element)?;
        let left = cursor.count_units()?;
        Ok(Units { cursor, left })
    }

    /// What the catalogue by which the units are cut answers for an identifier, in the element's direction.
    pub fn answer(&self, identifier: u16) -> Answer
        ensures answer { result ≡ answer_on (walk_of_units C.Catalogue self.now) identifier }
    {
        self.cursor.answer(identifier)
    }
}

// By hand, as a derive is refused on a struct with a ghost field and a type parameter (`derive-over-ghost-field`).
impl<'c, 'a, C: Catalogue> Clone for Units<'c, 'a, C> {
    ghost use Rattle.std.specs.Prelude.{⊤};

    ghost is_clone = { λ s r. r ≡ s };

    ghost is_infallible = { λ _. ⊤ };

    fn clone(&self) -> Result<Units<'c, 'a, C>, AllocError> {
        Ok(*self)
    }
}

impl<'c, 'a, C: Catalogue> Copy for Units<'c, 'a, C> {}

impl<'c, 'a, C: Catalogue> Iterator for Units<'c, 'a, C> {
    ghost use Rattle.std.specs.Prelude.{length, IfSome};
    ghost use Rattle.std.specs.Iterator.{YieldsFirstBy, UpTo, item_count};
    ghost use Rattle.std.specs.Iterator.SizeHint.{IsWithinCount};
    ghost use Rattle.element.specs.Walk.{placed_unit};
    ghost use Rattle.element.specs.Handed.{left_of};

    type Item = PlacedUnit<'a>;

    ghost next_gives = { YieldsFirstBy placed_unit (left_of C.Catalogue) };

    ghost remaining = { item_count (left_of C.Catalogue) };

    // With clauses of its own a caller's `for` would not be read as one over the members above, so it has none.
    fn next(&mut self) -> Option<PlacedUnit<'a>> {
        if self.left == 0 {
            return None;
        }
        let unit = self.cursor.next_unit().ok().flatten()?;
        self.left -= 1;
        Some(unit)
    }

    fn size_hint(&self) -> (usize, Option<usize>)
        ensures lower { IsWithinCount result.0 (item_count (left_of C.Catalogue) self.now) }
        ensures upper { IfSome result.1 (UpTo (item_count (left_of C.Catalogue) self.now)) }
        ensures exact { result ≡
            (length (left_of C.Catalogue self.now), Some (length (left_of C.Catalogue self.now))) }
    {
        (self.left, Some(self.left))
    }
}

impl<'c, 'a, C: Catalogue> ExactSizeIterator for Units<'c, 'a, C> {
    fn len(&self) -> usize {
        self.left
    }
}
