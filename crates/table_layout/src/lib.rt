// The layout of a table in its cells: docs/LAYOUT.md.

#![tactic(auto)]

use rules::limits::{INTERFACES_MOST, NEIGHBOURS_MOST};

// The places in the head: the settings, then interfaces in use, time, neighbour rows held, originators held.
pub const VERSION: usize = 0;

pub const WINDOW: usize = 1;

pub const TIMEOUT: usize = 2;

pub const PURGE: usize = 3;

pub const CAPACITY: usize = 4;

pub const TIE: usize = 5;

// The cells of the settings.
const SETTINGS: usize = 6;

pub const USED: usize = SETTINGS;

pub const TIME: usize = SETTINGS + 1;

pub const ROWS: usize = SETTINGS + 2;

pub const RECORDS: usize = SETTINGS + 3;

pub const HEAD: usize = SETTINGS + 4;

// The places in an interface row, and its cells.
pub const OWN: usize = 0;

pub const BROADCAST: usize = 1;

pub const FIRST: usize = 2;

pub const SENT: usize = 3;

pub const LAST: usize = 4;

pub const INTERFACE: usize = 5;

// The cells of a neighbour row.
pub const NEIGHBOUR: usize = 2;

// The cells that there is room for: interface rows, neighbour rows.
pub const INTERFACE_AREA: usize = INTERFACES_MOST as usize * INTERFACE;

pub const NEIGHBOUR_AREA: usize = NEIGHBOURS_MOST as usize * NEIGHBOUR;

// Where interface rows, neighbour rows and records start.
pub const INTERFACES_FROM: usize = HEAD;

pub const NEIGHBOURS_FROM: usize = INTERFACES_FROM + INTERFACE_AREA;

pub const RECORDS_FROM: usize = NEIGHBOURS_FROM + NEIGHBOUR_AREA;

// Where the own addresses stand.
pub const OWN_0: usize = INTERFACES_FROM;

pub const OWN_1: usize = OWN_0 + INTERFACE;

pub const OWN_2: usize = OWN_1 + INTERFACE;

pub const OWN_3: usize = OWN_2 + INTERFACE;
