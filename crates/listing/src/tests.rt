// What the lister prints of some elements.
use crate::{CountLine, FaultLine, UnitLine, heading, hex_figure, list, unit_line};
use catalogue::{Layer, Refusal};
use element::PlacedUnit;
use std::test::Fail;

#[test]
fn figures(rt: HostRuntime) {
    assert_eq!(rt; hex_figure(9), '9');
    assert_eq!(rt; hex_figure(10), 'A');
    assert_eq!(rt; hex_figure(0xBF), 'F');
}

#[test]
fn lines(rt: HostRuntime) -> Result<(), Fail> {
    let alloc = rt.alloc();
    assert!(rt; heading() == "place id length");
    let unit = UnitLine(PlacedUnit {
        place: 22,
        identifier: 0x0AF9,
        start: 25,
        contents: &[1, 2, 3, 4],
    });
    assert!(rt; unit.to_string(alloc)?.as_str() == "22 0AF9 4");
    assert!(rt; unit_line(alloc, unit.0)?.as_str() == "22 0AF9 4");
    let counts = CountLine {
        units: 5,
        octets: 44,
    };
    assert!(rt; counts.to_string(alloc)?.as_str() == "5 units, 44 octets, to modem, long edition");
    let fault = FaultLine(Refusal {
        number: 2,
        place: 0,
        layer: Layer::Reader,
    });
    assert!(rt; fault.to_string(alloc)?.as_str() == "fault 2 at 0");
    Ok(())
}

#[test]
fn listings(rt: HostRuntime) -> Result<(), Fail> {
    let alloc = rt.alloc();
    let none = list(alloc, &[0x27, 0x01, 0x80])?;
    assert!(rt; none.as_str() == "place id length\n0 units, 3 octets, to modem, long edition\n");
    let packet = list(
        alloc,
        &[0x27, 0x08, 0x80, 0xC0, 0x21, 0x04, 0x01, 0x00, 0x00, 0x04],
    )?;
    assert!(rt;
        packet.as_str() == "place id length\n3 C021 4\n1 units, 10 octets, to modem, long edition\n"
    );
    let cut = list(
        alloc,
        &[0x27, 0x07, 0x80, 0x00, 0x02, 0x00, 0x00, 0x0D, 0x04],
    )?;
    assert!(rt; cut.as_str() == "fault 5 at 6\n");
    Ok(())
}
