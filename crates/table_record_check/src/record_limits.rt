// What a record is held to.
ghost use Rattle.std.specs.Prelude.{◌≤◌};
ghost use Rattle.rules.specs.Settings.{window_most};

// Window, interfaces in use, the table's time, and the own addresses, the first again for each that is not in use.
#[derive(Clone, Copy)]
pub struct Limits {
    pub window: u64,
    pub used: u64,
    pub time: u64,
    pub own: [u64; 4],

    // A window size that is allowed.
    pub ghost windowed: { (1 ≤ window) × (window ≤ window_most) },
}
