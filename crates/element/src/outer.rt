// The outer form of the protocol configuration options element. Its numbers stand here and nowhere else in the code.

/// The octet that every element begins with.
pub const FIRST_OCTET: u8 = 0x27;

/// How many octets the length field has.
pub const LENGTH_OCTETS: usize = 1;

/// The fewest octets of an element: a header and no units.
pub const LEAST: usize = 3;

/// The most octets of an element.
pub const GREATEST: usize = 253;

/// The length field follows the first octet.
pub const LENGTH_PLACE: usize = 1;

/// The length field counts the octets after itself, so these are not counted.
pub const UNCOUNTED: usize = LENGTH_PLACE + LENGTH_OCTETS;

/// The configuration octet is the first that is counted.
pub const CONFIGURATION_PLACE: usize = UNCOUNTED;

/// The octets before the first unit.
pub const HEADER: usize = CONFIGURATION_PLACE + 1;
