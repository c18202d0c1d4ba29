// Some rows of both editions, and the layers' parts.
use crate::{
    Catalogue, CatalogueFault, Companions, Direction, Edition, IdentifierList, Layer,
    NarrowingLayer, OperatorCode, OperatorLayer, Refusal, Row, Rule,
};
use std::test::Fail;

fn entry(edition: Edition, direction: Direction, identifier: u16) -> Option<Row> {
    edition.answer(direction, identifier).entry
}

fn row(rule: Rule, slot: u8, companions: Companions) -> Option<Row> {
    Some(Row {
        rule,
        slot,
        companions,
    })
}

#[test]
fn shared_rows(rt: HostRuntime) {
    let dns = row(Rule::Ipv4, 3, Companions::None);
    assert_eq!(rt; entry(Edition::Short, Direction::ToModem, 0x000D), dns);
    assert_eq!(rt; entry(Edition::Long, Direction::ToModem, 0x000D), dns);
    let request = row(Rule::Empty, 0, Companions::None);
    assert_eq!(rt;
        entry(Edition::Short, Direction::ToNetwork, 0x000D),
        request
    );
    assert_eq!(rt; entry(Edition::Long, Direction::ToNetwork, 0x0006), None);
}

#[test]
fn added_rows(rt: HostRuntime) {
    let reselection = row(Rule::Empty, 0, Companions::Two(0x0001, 0x000C));
    assert_eq!(rt;
        entry(Edition::Long, Direction::ToNetwork, 0x0012),
        reselection
    );
    assert_eq!(rt; entry(Edition::Long, Direction::ToModem, 0x0012), None);
    assert_eq!(rt; entry(Edition::Short, Direction::ToNetwork, 0x0012), None);
    assert_eq!(rt; entry(Edition::Long, Direction::ToModem, 0xFF01), None);
}

fn code(first: u8, second: u8, third: u8) -> Result<OperatorCode, CatalogueFault> {
    Ok(OperatorCode {
        first,
        second,
        third,
    })
}

#[test]
fn operators(rt: HostRuntime) {
    assert_eq!(rt; OperatorCode::new(1, 1, 2), code(0x00, 0xF1, 0x10));
    assert_eq!(rt; OperatorCode::new(1, 1, 3), code(0x00, 0x11, 0x00));
    assert_eq!(rt; OperatorCode::new(234, 15, 2), code(0x32, 0xF4, 0x51));
    assert_eq!(rt; OperatorCode::new(999, 987, 3), code(0x99, 0x79, 0x89));
    assert_eq!(rt;
        OperatorCode::new(1000, 1000, 4),
        Err(CatalogueFault::MccTooLarge)
    );
    assert_eq!(rt;
        OperatorCode::new(999, 1000, 4),
        Err(CatalogueFault::WrongDigits)
    );
    assert_eq!(rt;
        OperatorCode::new(999, 100, 2),
        Err(CatalogueFault::MncTooLarge)
    );
    assert_eq!(rt;
        OperatorCode::new(999, 1000, 3),
        Err(CatalogueFault::MncTooLarge)
    );
}

#[test]
fn lists(rt: HostRuntime) -> Result<(), Fail> {
    let identifiers = [0x000D; 17];
    assert!(rt; IdentifierList::new(&identifiers[0..16]).is_ok());
    let Err(fault) = IdentifierList::new(&identifiers) else {
        return Err("a list of 17".into());
    };
    assert_eq!(rt; fault, CatalogueFault::TooManyIdentifiers(17));
    assert_eq!(rt; Refusal::from(fault).number, 11);
    assert_eq!(rt; Refusal::from(fault).place, 17);
    assert_eq!(rt; Refusal::from(fault).layer, Layer::Catalogue);
    assert_eq!(rt; Refusal::from(CatalogueFault::MncTooLarge).place, 3);
    Ok(())
}

#[test]
fn layers(rt: HostRuntime) -> Result<(), Fail> {
    let code = OperatorCode::new(1, 1, 2)?;
    let order = row(Rule::StrikeOrder(code), 9, Companions::None);
    let home = OperatorLayer {
        code,
        below: Edition::Long,
    };
    assert_eq!(rt; home.answer(Direction::ToModem, 0xFF01).entry, order);
    assert_eq!(rt; home.answer(Direction::ToNetwork, 0xFF01).entry, None);
    let narrow = NarrowingLayer {
        list: IdentifierList::new(&[0x000D, 0xFF01])?,
        below: home,
    };
    assert_eq!(rt; narrow.answer(Direction::ToModem, 0xFF01).entry, order);
    assert_eq!(rt; narrow.answer(Direction::ToModem, 0x000C).entry, None);
    Ok(())
}
