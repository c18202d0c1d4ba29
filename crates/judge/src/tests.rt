// Judging small elements, through `judge`.
ghost use Rattle.catalogue.specs.Meaning.{answer};
ghost use Rattle.std.proofs.Common.{rules};
ghost use Rattle.std.specs.Prelude.{None};

use crate::{JudgeFault, JudgedUnit, Verdict, judge};
use catalogue::{
    Answer, Catalogue, Direction, Edition, IdentifierList, Layer, NarrowingLayer, OperatorCode,
    OperatorLayer, Refusal,
};
use element::ReaderFault;
use std::test::Fail;

const BLANK: JudgedUnit = JudgedUnit {
    place: 9,
    identifier: 9,
    start: 9,
    octets: 9,
    verdict: Verdict::Surplus,
};

// The verdicts' numbers on the first five units, 9 for each row that judge left. It takes what `judge` takes.
fn verdicts<C: Catalogue>(
    catalogue: &C,
    direction: Direction,
    element: &[u8],
) -> Result<[u8; 5], JudgeFault> {
    let mut rows = [BLANK; 5];
    let units = judge(catalogue, direction, element, &mut rows)?;
    let mut numbers = [9; 5];
    for (number, row) in numbers.iter_mut().zip(&rows[..units]) {
        *number = u8::from(row.verdict);
    }
    Ok(numbers)
}

#[test]
fn five_name_servers(rt: HostRuntime) -> Result<(), Fail> {
    let element =
        b"\x27\x23\x80\x00\x0D\x04\xC0\x00\x02\x01\x00\x0D\x03\xC0\x00\x02\x00\x0D\x04\xC0\x00\x02\x03\x00\x0D\x04\xC0\x00\x02\x04\x00\x0D\x04\xC0\x00\x02\x05";
    assert!(rt; verdicts(&Edition::Long, Direction::ToModem, element)? == [0, 2, 0, 0, 5]);
    assert!(rt; verdicts(&Edition::Short, Direction::ToModem, element)? == [0, 2, 0, 0, 5]);
    Ok(())
}

#[test]
fn checks_in_order(rt: HostRuntime) -> Result<(), Fail> {
    // a mode of the wrong length, a wrong mode, an unsupported identifier, then the mode kept and one too many
    let modes =
        b"\x27\x13\x80\x00\x05\x00\x00\x05\x01\x03\x00\x06\x00\x00\x05\x01\x02\x00\x05\x01\x01";
    assert!(rt; verdicts(&Edition::Long, Direction::ToModem, modes)? == [2, 3, 1, 0, 5]);
    Ok(())
}

#[test]
fn companions(rt: HostRuntime) -> Result<(), Fail> {
    let alone = b"\x27\x04\x80\x00\x12\x00";
    assert!(rt; verdicts(&Edition::Long, Direction::ToNetwork, alone)? == [4, 9, 9, 9, 9]);
    let before = b"\x27\x07\x80\x00\x01\x00\x00\x12\x00";
    assert!(rt; verdicts(&Edition::Long, Direction::ToNetwork, before)? == [0, 0, 9, 9, 9]);
    let after = b"\x27\x07\x80\x00\x12\x00\x00\x0C\x00";
    assert!(rt; verdicts(&Edition::Long, Direction::ToNetwork, after)? == [0, 0, 9, 9, 9]);
    // a companion of the wrong length is no company
    let wrong = b"\x27\x08\x80\x00\x12\x00\x00\x0C\x01\xAA";
    assert!(rt; verdicts(&Edition::Long, Direction::ToNetwork, wrong)? == [4, 2, 9, 9, 9]);
    Ok(())
}

#[test]
fn strike_orders(rt: HostRuntime) -> Result<(), Fail> {
    let home = OperatorLayer {
        code: OperatorCode::new(1, 1, 2)?,
        below: Edition::Long,
    };
    let order = b"\x27\x0A\x80\xFF\x01\x06\x00\xF1\x10\xFE\x0C\x02";
    assert!(rt; verdicts(&home, Direction::ToModem, order)? == [0, 9, 9, 9, 9]);
    assert!(rt; verdicts(&home, Direction::ToNetwork, order)? == [1, 9, 9, 9, 9]);
    assert!(rt; verdicts(&Edition::Long, Direction::ToModem, order)? == [1, 9, 9, 9, 9]);
    let misplaced = b"\x27\x0A\x80\xFF\x01\x06\x00\xF1\x10\xFE\x0C\x03";
    assert!(rt; verdicts(&home, Direction::ToModem, misplaced)? == [3, 9, 9, 9, 9]);
    let other = b"\x27\x0A\x80\xFF\x01\x06\x00\xF1\x20\xFE\x0C\x02";
    assert!(rt; verdicts(&home, Direction::ToModem, other)? == [3, 9, 9, 9, 9]);
    Ok(())
}

#[test]
fn piled_layers(rt: HostRuntime) -> Result<(), Fail> {
    let narrow = NarrowingLayer {
        list: IdentifierList::new(&[0x000D])?,
        below: NarrowingLayer {
            list: IdentifierList::new(&[0x000D, 0x0002])?,
            below: Edition::Long,
        },
    };
    let element = b"\x27\x0B\x80\x00\x0D\x04\xC0\x00\x02\x35\x00\x02\x00";
    assert!(rt; verdicts(&narrow, Direction::ToModem, element)? == [0, 1, 9, 9, 9]);
    Ok(())
}

// A catalogue that lists nothing, with length fields of two octets. The reader's tests have their own: no crate sees
// another's tests, and one for both would be public and no test.
#[derive(Clone, Copy)]
struct Wide;

impl Catalogue for Wide {
    ghost meaning = { λ _ d i. answer 2 None };

    ghost lawful = { Prim.search rules };

    fn answer(&self, direction: Direction, identifier: u16) -> Answer {
        Answer {
            width: 2,
            entry: None,
        }
    }
}

#[test]
fn width_from_below(rt: HostRuntime) -> Result<(), Fail> {
    let narrow = NarrowingLayer {
        list: IdentifierList::new(&[0x000D])?,
        below: Wide,
    };
    let element = b"\x27\x06\x80\x00\x23\x00\x01\xAA";
    let mut rows = [BLANK; 1];
    assert_eq!(rt;
        judge(&narrow, Direction::ToModem, element, &mut rows),
        Ok(1)
    );
    assert_eq!(rt; rows[0].start, 7);
    assert_eq!(rt; rows[0].octets, 1);
    assert_eq!(rt; rows[0].verdict, Verdict::UnsupportedIdentifier);
    Ok(())
}

#[test]
fn declined(rt: HostRuntime) {
    let mut rows = [BLANK; 1];
    let flag = b"\x27\x04\x80\x00\x02\x00";
    assert_eq!(rt;
        judge(&Edition::Long, Direction::ToModem, flag, &mut rows[0..0]),
        Err(JudgeFault::TooFewRows(1))
    );
    // the element is looked at first
    assert_eq!(rt;
        judge(
            &Edition::Long,
            Direction::ToModem,
            &flag[0..5],
            &mut rows[0..0],
        ),
        Err(JudgeFault::Reader(ReaderFault::LengthDiffers(5)))
    );
    assert_eq!(rt; rows[0], BLANK);
    assert_eq!(rt;
        judge(&Edition::Long, Direction::ToModem, flag, &mut rows),
        Ok(1)
    );
    assert_eq!(rt; rows[0].verdict, Verdict::Accepted);
    let refusal = Refusal::from(JudgeFault::TooFewRows(1));
    assert_eq!(rt; refusal.number, 9);
    assert_eq!(rt; refusal.place, 1);
    assert_eq!(rt; refusal.layer, Layer::Reader);
    assert_eq!(rt;
        Refusal::from(JudgeFault::Reader(ReaderFault::RunsPast(3))).number,
        5
    );
}
