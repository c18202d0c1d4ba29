// The reader on small inputs and at its edges.
ghost use Rattle.catalogue.specs.Meaning.{answer};
ghost use Rattle.std.proofs.Common.{rules};
ghost use Rattle.std.specs.Prelude.{None};

use crate::{Cursor, PlacedUnit, ReaderFault, Units, Whole, read};
use catalogue::{Answer, Catalogue, Direction, Edition, Layer, Refusal};
use std::test::Fail;

// A catalogue that supports nothing, with length fields of two octets. The judge's tests have their own: no crate sees
// another's tests, and one for both would be public and no test.
struct Wide;

impl Catalogue for Wide {
    ghost meaning = { λ _ d i. answer 2 None };

    ghost lawful = { Prim.search rules };

    fn answer(&self, direction: Direction, identifier: u16) -> Answer {
        Answer {
            width: 2,
            entry: None,
        }
    }
}

fn read_long(element: &[u8]) -> Result<Whole, ReaderFault> {
    read(&Edition::Long, Direction::ToModem, element)
}

fn whole(configuration: u8, units: usize) -> Result<Whole, ReaderFault> {
    Ok(Whole {
        configuration,
        units,
    })
}

#[test]
fn frames(rt: HostRuntime) {
    assert_eq!(rt; read_long(&[]), Err(ReaderFault::TooShort(0)));
    assert_eq!(rt; read_long(&[0x27, 0x01]), Err(ReaderFault::TooShort(2)));
    assert_eq!(rt;
        read_long(&[0x28, 0x01, 0x80]),
        Err(ReaderFault::WrongFirst)
    );
    assert_eq!(rt;
        read_long(&[0x27, 0x02, 0x80]),
        Err(ReaderFault::LengthDiffers(3))
    );
    assert_eq!(rt; read_long(&[0x27, 0x01, 0x80]), whole(0x80, 0));
    assert_eq!(rt; read_long(&[0x27, 0x01, 0x00]), whole(0x00, 0));
}

#[test]
fn cut_units(rt: HostRuntime) {
    // a cut identifier, a cut length field, contents one octet short; then each behind a whole unit
    assert_eq!(rt;
        read_long(&[0x27, 0x02, 0x80, 0x00]),
        Err(ReaderFault::RunsPast(3))
    );
    assert_eq!(rt;
        read_long(&[0x27, 0x03, 0x80, 0x00, 0x0D]),
        Err(ReaderFault::RunsPast(3))
    );
    assert_eq!(rt;
        read_long(&[0x27, 0x06, 0x80, 0x00, 0x10, 0x03, 0x05, 0xDC]),
        Err(ReaderFault::RunsPast(3))
    );
    assert_eq!(rt;
        read_long(&[0x27, 0x05, 0x80, 0x00, 0x02, 0x00, 0x00]),
        Err(ReaderFault::RunsPast(6))
    );
    assert_eq!(rt;
        read_long(&[0x27, 0x06, 0x80, 0x00, 0x02, 0x00, 0x00, 0x10]),
        Err(ReaderFault::RunsPast(6))
    );
    assert_eq!(rt;
        read_long(&[0x27, 0x07, 0x80, 0x00, 0x02, 0x00, 0x00, 0x10, 0x01]),
        Err(ReaderFault::RunsPast(6))
    );
}

#[test]
fn sizes(rt: HostRuntime) {
    // units of identifier 0000; octets 3 to 5 are the first one's head
    let mut octets = [0u8; 258];
    octets[0] = 0x27;
    octets[1] = 251;
    octets[2] = 0x80;
    octets[5] = 247;
    assert_eq!(rt; read_long(&octets[0..253]), whole(0x80, 1));
    octets[5] = 246;
    assert_eq!(rt; read_long(&octets[0..253]), Err(ReaderFault::RunsPast(252)));
    octets[5] = 248;
    assert_eq!(rt; read_long(&octets[0..253]), Err(ReaderFault::RunsPast(3)));
    octets[5] = 0;
    octets[1] = 252;
    assert_eq!(rt; read_long(&octets[0..254]), Err(ReaderFault::TooLong(254)));
    octets[1] = 255;
    assert_eq!(rt; read_long(&octets[0..257]), Err(ReaderFault::TooLong(257)));
    assert_eq!(rt; read_long(&octets), Err(ReaderFault::LengthDiffers(258)));
}

#[test]
fn walks(rt: HostRuntime) -> Result<(), Fail> {
    let element = [
        0x27, 0x0C, 0x80, 0x00, 0x0D, 0x04, 0xC0, 0x00, 0x02, 0x35, 0x00, 0x02, 0x01, 0xAA,
    ];
    let mut cursor = Cursor::open(&Edition::Long, Direction::ToModem, &element)?;
    let dns = cursor.next_unit()?.ok_or("no first unit")?;
    assert_eq!(rt; dns.place, 3);
    assert_eq!(rt; dns.identifier, 0x000D);
    assert_eq!(rt; dns.start, 6);
    assert!(rt; dns.contents == [0xC0, 0x00, 0x02, 0x35].as_slice());
    let flag = cursor.next_unit()?.ok_or("no second unit")?;
    assert_eq!(rt; flag.place, 10);
    assert_eq!(rt; flag.start, 13);
    assert!(rt; cursor.next_unit()?.is_none());
    // with length fields of two octets the first unit's length is 04C0, and it runs past the end
    let at_first = Cursor::open(&Edition::Long, Direction::ToModem, &element)?;
    let mut wide = at_first.under(&Wide, Direction::ToModem);
    assert_eq!(rt; wide.next_unit(), Err(ReaderFault::RunsPast(3)));
    // the units of the whole element are the same
    let mut units = Units::of(&Edition::Long, Direction::ToModem, &element)?;
    let mut again = units.clone()?;
    assert_eq!(rt; units.next(), Some(dns));
    assert_eq!(rt; units.len(), 1);
    assert_eq!(rt; units.next(), Some(flag));
    assert_eq!(rt; units.next(), None);
    assert_eq!(rt; again.len(), 2);
    assert_eq!(rt; again.next(), Some(dns));
    Ok(())
}

// One step by a catalogue that is lent for this call alone.
fn step_by<'a, C: Catalogue, D: Catalogue>(
    cursor: &mut Cursor<'_, 'a, C>,
    catalogue: &D,
) -> Result<Option<PlacedUnit<'a>>, ReaderFault> {
    cursor.next_unit_under(catalogue, Direction::ToModem)
}

#[test]
fn lent_catalogues(rt: HostRuntime) -> Result<(), Fail> {
    // the first unit has a length field of two octets, the second one of one octet
    let element = [
        0x27, 0x0B, 0x80, 0x00, 0x0D, 0x00, 0x03, 0xC0, 0x00, 0x02, 0x00, 0x02, 0x00,
    ];
    let mut cursor = Cursor::open(&Edition::Long, Direction::ToModem, &element)?;
    let wide = step_by(&mut cursor, &Wide)?.ok_or("no first unit")?;
    assert_eq!(rt; wide.start, 7);
    assert!(rt; wide.contents == [0xC0, 0x00, 0x02].as_slice());
    // the cursor goes on from there by its own catalogue, and stays at a fault
    assert_eq!(rt; step_by(&mut cursor, &Wide), Err(ReaderFault::RunsPast(10)));
    let flag = cursor.next_unit()?.ok_or("no second unit")?;
    assert_eq!(rt; flag.place, 10);
    assert_eq!(rt; step_by(&mut cursor, &Wide), Ok(None));
    Ok(())
}

#[test]
fn two_octet_lengths(rt: HostRuntime) {
    assert_eq!(rt;
        read(
            &Wide,
            Direction::ToModem,
            &[0x27, 0x06, 0x80, 0x00, 0x23, 0x00, 0x01, 0xAA]
        ),
        whole(0x80, 1)
    );
    assert_eq!(rt;
        read(
            &Wide,
            Direction::ToModem,
            &[0x27, 0x04, 0x80, 0x00, 0x23, 0x00]
        ),
        Err(ReaderFault::RunsPast(3))
    );
    assert_eq!(rt;
        read(
            &Wide,
            Direction::ToModem,
            &[0x27, 0x06, 0x80, 0x00, 0x23, 0x01, 0x00, 0xAA]
        ),
        Err(ReaderFault::RunsPast(3))
    );
}

#[test]
fn table_of_refusals(rt: HostRuntime) {
    let refusal = Refusal::from(ReaderFault::RunsPast(3));
    assert_eq!(rt; refusal.number, 5);
    assert_eq!(rt; refusal.place, 3);
    assert_eq!(rt; refusal.layer, Layer::Reader);
    assert_eq!(rt; Refusal::from(ReaderFault::WrongFirst).place, 0);
}
