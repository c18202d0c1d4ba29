// The rules on the contents of a unit: the lengths allowed, and the values that are right.
ghost use Rattle.std.specs.Prelude.{◌≡◌, ◌≤◌, true, length};
ghost use Rattle.judge.specs.Rules as rules;

use catalogue::{OperatorCode, Rule};

// The greatest prefix length of an IPv6 address.
const PREFIX_BITS: u8 = 128;

// Whether contents may have so many octets.
pub(crate) fn is_allowed(rule: Rule, octets: usize) -> bool
    ensures answer { result ≡ rules.allowed rule octets }
{
    match rule {
        Rule::Empty => octets == 0,
        Rule::Ipv4 => octets == 4,
        Rule::Ipv6 => octets == 16,
        Rule::Prefix => octets == 17,
        Rule::OneOctet | Rule::Mode | Rule::Indicator => octets == 1,
        Rule::Number => octets == 2,
        Rule::Any => true,
        Rule::PppPacket => octets >= 4,
        Rule::StrikeOrder(_) => octets >= 6,
    }
}

// Whether contents of an allowed length have a right value.
pub(crate) fn is_right(rule: Rule, contents: &[u8]) -> bool
    requires allowed { rules.allowed rule (length contents.now) ≡ true }
    ensures answer { result ≡ rules.right rule contents.now }
{
    match rule {
        Rule::Prefix => contents[16] <= PREFIX_BITS,
        Rule::Mode => matches!(contents[0], 1 | 2),
        Rule::Indicator => contents[0] <= 1,
        Rule::PppPacket => {
            usize::from(u16::from_be_bytes([contents[2], contents[3]])) == contents.len()
        },
        Rule::StrikeOrder(code) => is_strike_order(code, contents),
        _ => true,
    }
}

// A strike order opens with the operator's octets.
fn is_strike_order(code: OperatorCode, contents: &[u8]) -> bool
    requires long { 6 ≤ length contents.now }
    ensures answer { result ≡ rules.right (Rule.StrikeOrder code) contents.now }
{
    match contents {
        [first, second, third, rest @ ..] => {
            let opening = OperatorCode {
                first: *first,
                second: *second,
                third: *third,
            };
            opening == code && points_to_trim(rest)
        }
        _ => false,
    }
}

// The last octet says how far before it the trim begins. The trim has two octets, and all of it stands in the octets that
// follow the operator's.
fn points_to_trim(rest: &[u8]) -> bool
    requires some { 1 ≤ length rest.now }
    ensures answer { result ≡ rules.points_to_trim rest.now }
{
    let [.., back] = rest else {
        return false;
    };
    (2..rest.len()).contains(&usize::from(*back))
}
