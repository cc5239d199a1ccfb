// The plain structs that the calls take and answer. The definitions in specs/ see them as records, so rules and code share one type.

#![tactic(auto)]

pub mod limits;
pub mod verdicts;

// The settings of a table. They are wide, so that values that are not allowed can be given and refused.
#[repr(C)]
#[derive(Clone, Copy)]
pub struct Settings {
    // The packet version.
    pub version: u64,
    // The window size W, in sequence numbers.
    pub window: u64,
    // The link timeout B, in own messages.
    pub timeout: u64,
    // The purge timeout, in milliseconds.
    pub purge: u64,
    // How many originators are held.
    pub capacity: u64,
    // Which link is best where counts are equal: NEWEST_WINS or PRESENT_STAYS.
    pub tie: u64,
}

// An interface row: own address, broadcast address, first sequence number.
#[repr(C)]
#[derive(Clone, Copy)]
pub struct Interface {
    pub own: u32,
    pub broadcast: u32,
    pub first: u16,
}

// An originator message on its way to a record: the link that it came by, its sequence number, TTL and time. A further field is a line here. Its HNA
// octets are lent beside it: a struct that holds a slice is not taken by the prover.
#[derive(Clone, Copy)]
pub struct Ogm {
    pub link: u64,
    pub sequence: u16,
    pub ttl: u8,
    pub time: u64,
}

// What counting is told of the settings: the window size W, and the tie, the number that C gives.
#[derive(Clone, Copy)]
pub struct Policy {
    pub window: u64,
    pub tie: u64,
}

// What the best question answers. No route is all zeros.
#[repr(C)]
#[derive(Clone, Copy, Default)]
pub struct Route {
    pub neighbour: u32,
    pub interface: u32,
    pub count: u32,
    pub window: u32,
}

// A row of the list call: one held link. `best` is 1 or 0 and no bool, so that a caller may lend rows that hold anything.
#[repr(C)]
#[derive(Clone, Copy, Default)]
pub struct LinkRow {
    pub neighbour: u32,
    pub interface: u32,
    pub count: u32,
    pub window: u32,
    pub best: u32,
}

// The answer to a received packet: a refusal or verdict, the place that 8 and 16 carry, the route of the packet's originator, and the flags octet for the
// other interfaces. The octet is last, so that the struct has no gap inside and is copied in whole words.
#[repr(C)]
#[derive(Clone, Copy)]
pub struct Received {
    pub number: u64,
    pub place: u64,
    pub route: Route,
    pub flags: u8,
}

// The answer to an own packet: its length and sequence number.
#[repr(C)]
#[derive(Clone, Copy)]
pub struct Written {
    pub number: u64,
    pub place: u64,
    pub length: u64,
    pub sequence: u16,
}

// The answer to a sweep: how many records were removed.
#[repr(C)]
#[derive(Clone, Copy)]
pub struct Swept {
    pub number: u64,
    pub removed: u64,
}

// The answer to the best question.
#[repr(C)]
#[derive(Clone, Copy)]
pub struct Asked {
    pub number: u64,
    pub route: Route,
}

// The answer to a burst: how many octets were written.
#[repr(C)]
#[derive(Clone, Copy)]
pub struct Burst {
    pub number: u64,
    pub written: u64,
}

// The answer to the lookup: whether an entry covers the address (1 or 0), and then its originator, its network as announced and its mask.
#[repr(C)]
#[derive(Clone, Copy)]
pub struct Located {
    pub number: u64,
    pub found: u32,
    pub originator: u32,
    pub network: u32,
    pub mask: u32,
}

// The answer to the list call: how many rows were filled.
#[repr(C)]
#[derive(Clone, Copy)]
pub struct Listed {
    pub number: u64,
    pub filled: u64,
}
