// Judging a whole element: one row a unit.
ghost use Rattle.std.specs.Prelude.{◌≡◌, ◌≤◌, ◌++◌, length, drop, replicate};
ghost use Rattle.element.specs.Handed.{left_of, walk_of_units};
ghost use Rattle.element.specs.Outer.{options};
ghost use Rattle.judge.specs.Cases as cases;
ghost use Rattle.judge.specs.Judging as judging;
ghost use Rattle.judge.specs.Laws as laws;
ghost use Rattle.judge.specs.declared.judging.JudgeFault.TheVariants.{Reader};

use crate::Verdict;
use crate::verdicts::Judge;
use catalogue::{Catalogue, Direction, Layer, Refusal};
use element::{PlacedUnit, ReaderFault, Units};

/// No element has more units, so this many rows are enough.
pub const MOST_UNITS: usize = 83;

/// A unit judged: its place, its identifier, the place and number of its contents octets, and the verdict.
#[derive(Clone, Copy, PartialEq, Debug)]
pub struct JudgedUnit {
    pub place: usize,
    pub identifier: u16,
    pub start: usize,
    pub octets: usize,
    pub verdict: Verdict,
}

/// Rows that nothing was written to, enough for every element. An array, since the core has no heap.
pub fn blank_rows() -> [JudgedUnit; MOST_UNITS]
    ensures answer { result ≡ replicate (judging.most_units options) judging.blank }
{
    [JudgedUnit {
        place: 0,
        identifier: 0,
        start: 0,
        octets: 0,
        verdict: Verdict::UnsupportedIdentifier,
    }; MOST_UNITS]
}

/// Why an element was not judged.
#[derive(Clone, Copy, PartialEq, Debug)]
pub enum JudgeFault {
    /// The element is not whole: the reader's own fault.
    Reader(ReaderFault),
    /// The element has so many units, and fewer rows were lent.
    TooFewRows(usize),
}

// A fault's line in the table of refusals.
impl From<JudgeFault> for Refusal {
    ghost from_gives = { λ f r. r ≡ judging.refusal_of f };

    fn from(fault: JudgeFault) -> Refusal {
        match fault {
            JudgeFault::Reader(fault) => Refusal::from(fault),
            JudgeFault::TooFewRows(needed) => Refusal {
                number: 9,
                place: needed,
                layer: Layer::Reader,
            },
        }
    }
}

impl From<ReaderFault> for JudgeFault {
    ghost from_gives = { λ f r. r ≡ Reader f };

    fn from(given: ReaderFault) -> JudgeFault {
        JudgeFault::Reader(given)
    }
}

/// Judges an element: writes a row for each unit into the caller's rows and answers their number; later rows stay. Declined,
/// it leaves every row as it was. The rows are the caller's, since the core has no heap; catalogue and direction come in with
/// the element, as at `Units::of`.
#[tactic(auto, using(crate::proofs::Cases::worked_cases))]
pub fn judge<C: Catalogue>(
    catalogue: &C,
    direction: Direction,
    element: &[u8],
    rows: &mut [JudgedUnit],
) -> Result<usize, JudgeFault>
    ensures answer { result ≡
        judging.answer (C.meaning catalogue.now) direction options element.now rows.old }
    ensures rows { rows.new ≡
        judging.rows_after (C.meaning catalogue.now) direction options element.now rows.old }
    ensures law { laws.JudgingLaw (C.meaning catalogue.now) direction options element.now rows.old }
    ensures cases { cases.WorkedCases }
{
    let units = Units::of(catalogue, direction, element)?;
    let needed = units.len();
    // under a name, as the proof of `law` goes by it
    let few = rows.len() < needed;
    if few {
        return Err(JudgeFault::TooFewRows(needed));
    }
    write_rows(units, rows);
    Ok(needed)
}

// Writes the rows of a whole element into rows that are enough.
fn write_rows<C: Catalogue>(units: Units<'_, '_, C>, rows: &mut [JudgedUnit])
    requires room { length (left_of C.Catalogue units) ≤ length rows.old }
    ensures rows { rows.new
        ≡ judging.rows_on (walk_of_units C.Catalogue units.entry)
        ++ drop (length (left_of C.Catalogue units.entry)) rows.old }
{
    let mut judge = Judge::new(units);
    // by index, as a proof knows nothing of what is written through `iter_mut().zip(units)`
    for (n, unit) in units.enumerate() {
        rows[n] = judged(unit, judge.verdict(unit));
    }
}

// The row of a unit with its verdict.
fn judged(unit: PlacedUnit<'_>, verdict: Verdict) -> JudgedUnit
    ensures answer { result ≡
        judging.judged_unit unit.entry.place unit.entry.identifier unit.entry.start
        (length unit.entry.contents.now) verdict }
{
    JudgedUnit {
        place: unit.place,
        identifier: unit.identifier,
        start: unit.start,
        octets: unit.contents.len(),
        verdict,
    }
}
