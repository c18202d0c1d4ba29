// The short and the long edition. Each decides a row by ranges of identifiers, with the direction as a guard: a rule of the
// project asks for this form, in which an identifier that has one row both ways stands once.
ghost use Rattle.std.specs.Prelude.{◌≡◌};
ghost use Rattle.catalogue.specs.Editions as tables;
ghost use Rattle.catalogue.specs.declared.editions.Edition.TheVariants.{Short, Long};
ghost use Rattle.std.proofs.Common.{rules};

use crate::{Answer, Catalogue, Companions, Direction, Row, Rule};

/// The two texts of the standard's table.
#[derive(Clone, Copy, PartialEq, Debug)]
pub enum Edition {
    /// An earlier text, whose containers end at 0011.
    Short,
    /// A later text, whose containers end at 0022: the short edition and its additions.
    Long,
}

/// Both editions have length fields of one octet throughout.
const WIDTH: u8 = 1;

impl Catalogue for Edition {
    ghost meaning = { tables.meaning_of };

    ghost lawful = { elim [ Short ↦ Prim.search rules | Long ↦ Prim.search rules ] };

    // Inlined, like all that answers with a row here and in the layers: a walk reads the width alone, and then no row is decided.
    #[inline(always)]
    fn answer(&self, direction: Direction, identifier: u16) -> Answer {
        let entry = match self {
            Edition::Short => short_row(direction, identifier),
            Edition::Long => long_row(direction, identifier),
        };
        Answer {
            width: WIDTH,
            entry,
        }
    }
}

#[inline(always)]
fn short_row(direction: Direction, identifier: u16) -> Option<Row>
    ensures answer { result ≡ (tables.short direction identifier).entry }
{
    let to_network = direction == Direction::ToNetwork;
    match identifier {
        0x0001..=0x0003 | 0x0005 | 0x0007..=0x0011 if to_network => row(Rule::Empty, 0),
        0x0001 if !to_network => row(Rule::Ipv6, 2),
        0x0002 if !to_network => row(Rule::Empty, 8),
        0x0003 if !to_network => row(Rule::Ipv6, 4),
        0x0004 if !to_network => row(Rule::OneOctet, 0),
        0x0005 if !to_network => row(Rule::Mode, 7),
        0x0007 if !to_network => row(Rule::Ipv6, 0),
        0x0008 if !to_network => row(Rule::Prefix, 5),
        0x0009 if !to_network => row(Rule::Ipv4, 0),
        0x000C if !to_network => row(Rule::Ipv4, 1),
        0x000D if !to_network => row(Rule::Ipv4, 3),
        0x000E if !to_network => row(Rule::Any, 0),
        0x000F | 0x0011 if !to_network => row(Rule::Empty, 0),
        0x0010 if !to_network => row(Rule::Number, 6),
        0x8021 | 0xC021 | 0xC023 | 0xC223 => row(Rule::PppPacket, 0),
        _ => None,
    }
}

// The identifiers that the long edition adds.
#[inline(always)]
fn added_row(direction: Direction, identifier: u16) -> Option<Row>
    ensures answer { result ≡ (tables.added direction identifier).entry }
{
    let to_network = direction == Direction::ToNetwork;
    match identifier {
        0x0012 if to_network => Some(Row {
            rule: Rule::Empty,
            slot: 0,
            companions: Companions::Two(0x0001, 0x000C),
        }),
        0x0015..=0x0016 | 0x0019 | 0x0020..=0x0021 if to_network => row(Rule::Empty, 0),
        0x0017 if to_network => row(Rule::Mode, 0),
        0x001A | 0x0022 if to_network => row(Rule::Any, 0),
        0x0017 if !to_network => row(Rule::Empty, 0),
        0x0015 | 0x001E | 0x0020..=0x0021 if !to_network => row(Rule::Number, 0),
        0x0016 | 0x0019 | 0x001B..=0x001D | 0x001F if !to_network => row(Rule::Any, 0),
        0x0013 | 0x0018 => row(Rule::Empty, 0),
        0x0014 => row(Rule::Indicator, 0),
        _ => None,
    }
}

#[inline(always)]
#[tactic(auto, using(crate::proofs::Tables::long_is))]
fn long_row(direction: Direction, identifier: u16) -> Option<Row>
    ensures answer { result ≡ (tables.long direction identifier).entry }
{
    short_row(direction, identifier).or_else(|| added_row(direction, identifier))
}

// A row with no companions.
#[inline(always)]
fn row(rule: Rule, slot: u8) -> Option<Row>
    ensures answer { result ≡ tables.listed rule slot Companions.None }
{
    Some(Row {
        rule,
        slot,
        companions: Companions::None,
    })
}
