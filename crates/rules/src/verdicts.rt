// RULES 6.1: the verdicts, each with its number. include/batman.h has them for C by the same names in capitals.
#[derive(Clone, Copy, Debug, PartialEq, Eq)]
pub enum Verdict {
    OwnSender = 20,
    OwnBroadcast = 21,
    Echo = 22,
    OwnOriginator = 23,
    Unidirectional = 24,
    Kept = 25,
    PassedOn = 26,
    Stale = 27,
}
