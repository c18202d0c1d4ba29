// The verdicts, and the checks that give them.
ghost use Rattle.std.specs.Prelude.{◌≡◌};
ghost use Rattle.element.specs.Handed.{walk_of_units};
ghost use Rattle.element.specs.Walk.{unit_of};
ghost use Rattle.judge.specs.Rooms as rooms;
ghost use Rattle.judge.specs.Steps as steps;
ghost use Rattle.judge.specs.Verdicts as verdicts;

use crate::rooms::Room;
use crate::rules::{is_allowed, is_right};
use catalogue::{Catalogue, Companions, Row};
use element::{PlacedUnit, Units};

/// What became of a unit, by the number of the check that failed. All but `Accepted` are turned aside. It is one enum of six,
/// as the rules number six verdicts and a row holds one of them.
#[derive(Clone, Copy, PartialEq, Debug)]
pub enum Verdict {
    Accepted = 0,
    /// The catalogue has no row for the identifier.
    UnsupportedIdentifier = 1,
    /// The rule does not allow so many octets.
    WrongLength = 2,
    /// The rule does not take the value.
    WrongValue = 3,
    /// The row has companions, and none of them stands in the element with right contents.
    CompanionMissing = 4,
    /// Earlier accepted units fill the slot.
    Surplus = 5,
}

impl From<Verdict> for u8 {
    ghost from_gives = { λ v n. n ≡ verdicts.number_of v };

    // `as` is how an enum's numbers are read
    fn from(verdict: Verdict) -> u8 {
        verdict as u8
    }
}

// Checks 1 to 3: the row of an identifier that is supported, if its rule allows the length and takes the value.
#[inline(always)]
fn passing_row(entry: Option<Row>, contents: &[u8]) -> Result<Row, Verdict>
    ensures answer { result ≡ steps.passing_row entry contents.now }
{
    let row = entry.ok_or(Verdict::UnsupportedIdentifier)?;
    if !is_allowed(row.rule, contents.len()) {
        return Err(Verdict::WrongLength);
    }
    if !is_right(row.rule, contents) {
        return Err(Verdict::WrongValue);
    }
    Ok(row)
}

// The units of an element, judged one after the other: all of them for check 4, and for check 5 the room left in the slots.
// No `Model`, as of the units.
#[derive(Drop)]
pub(crate) struct Judge<'c, 'a, C: Catalogue> {
    units: Units<'c, 'a, C>,
    room: Room,
}

impl<'c, 'a, C: Catalogue> Judge<'c, 'a, C> {
    // Nothing is judged yet, so every slot takes as many values as it holds.
    pub(crate) fn new(units: Units<'c, 'a, C>) -> Judge<'c, 'a, C>
        ensures units { walk_of_units C.Catalogue result.units ≡
            walk_of_units C.Catalogue units.entry }
        ensures room { result.room ≡ rooms.all_free }
    {
        Judge {
            units,
            room: Room::new(),
        }
    }

    // The verdict of a unit; if it is accepted, its slot has room for one less.
    pub(crate) fn verdict(&mut self, unit: PlacedUnit<'_>) -> Verdict
        ensures answer { result ≡
            rooms.verdict_on (walk_of_units C.Catalogue self.old.units) self.old.room
            (unit_of unit.entry) }
        ensures room { self.new.room ≡
            rooms.left_on (walk_of_units C.Catalogue self.old.units) self.old.room
            (unit_of unit.entry) }
        ensures units { walk_of_units C.Catalogue self.new.units ≡
            walk_of_units C.Catalogue self.old.units }
    {
        match self.check(unit) {
            Ok(slot) => {
                self.room.take(slot);
                Verdict::Accepted
            }
            Err(verdict) => verdict,
        }
    }

    // All checks, in their order: the slot of a unit that passes, or the verdict that the first to fail gives.
    fn check(&self, unit: PlacedUnit<'_>) -> Result<u8, Verdict>
        ensures answer { result ≡
            steps.slot_or_verdict (walk_of_units C.Catalogue self.now.units) self.now.room
            (unit_of unit.entry) }
    {
        let row = self.row(unit)?;
        if !self.has_companion(row.companions) {
            return Err(Verdict::CompanionMissing);
        }
        if self.room.is_full(row.slot) {
            return Err(Verdict::Surplus);
        }
        Ok(row.slot)
    }

    // Checks 1 to 3 on a unit. Inlined with the answer that it asks for, as each unit comes here.
    #[inline(always)]
    fn row(&self, unit: PlacedUnit<'_>) -> Result<Row, Verdict>
        ensures answer { result ≡
            steps.row_on (walk_of_units C.Catalogue self.now.units) (unit_of unit.entry) }
    {
        passing_row(self.units.answer(unit.identifier).entry, unit.contents)
    }

    // Check 4: one of the companions, if there are any, stands in the element and passes checks 1 to 3.
    fn has_companion(&self, companions: Companions) -> bool
        ensures answer { result ≡
            verdicts.companion_stands (rooms.passes_on (walk_of_units C.Catalogue self.now.units))
            companions }
    {
        match companions {
            Companions::None => true,
            Companions::One(one) => self.has(one),
            Companions::Two(one, other) => self.has(one) || self.has(other),
        }
    }

    // Whether a unit has the identifier and passes checks 1 to 3.
    fn passes_as(&self, unit: PlacedUnit<'_>, identifier: u16) -> bool
        ensures answer { result ≡
            rooms.passes_as_on (walk_of_units C.Catalogue self.now.units) (unit_of unit.entry)
            identifier }
    {
        unit.identifier == identifier && self.row(unit).is_ok()
    }

    // Whether there is such a unit in the element.
    fn has(&self, identifier: u16) -> bool
        ensures answer { result ≡
            rooms.passes_on (walk_of_units C.Catalogue self.now.units) identifier }
    {
        let mut units = self.units;
        units.any(|unit| self.passes_as(unit, identifier))
    }
}
