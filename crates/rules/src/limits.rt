// Every limit once. specs/Settings has them for the definitions, docs/LAYOUT.md says how many cells they make.

// Of the settings.
pub const VERSION_MOST: u64 = 255;

pub const WINDOW_MOST: u64 = 64;

pub const TIMEOUT_MOST: u64 = 1000;

pub const PURGE_MOST: u64 = 4294967295;

pub const CAPACITY_MOST: u64 = 256;

// The tie's two values.
pub const NEWEST_WINS: u64 = 0;

pub const PRESENT_STAYS: u64 = 1;

pub const TIE_MOST: u64 = PRESENT_STAYS;

// Of interfaces in use, of neighbour rows held, and of the links of one originator.
pub const INTERFACES_MOST: u64 = 4;

pub const NEIGHBOURS_MOST: u64 = 32;

pub const LINKS_MOST: u64 = 8;

// Of the HNA entries of one originator.
pub const ENTRIES_MOST: u64 = 16;

// Of the packets of a burst.
pub const PACKETS_MOST: u64 = 32;

// The least TTL of a packet that is passed on, and of an own packet.
pub const TTL_LEAST: u8 = 2;

// How many addresses there are, how many values an octet has, and how many links: a link is the pair address * INTERFACES_MOST + interface.
pub const ADDRESSES: u64 = 4294967296;

pub const OCTETS: u64 = 256;

pub const PAIRS: u64 = ADDRESSES * INTERFACES_MOST;

// And how many entries: an entry is the number network * OCTETS + mask.
pub const ENTRY_VALUES: u64 = ADDRESSES * OCTETS;
