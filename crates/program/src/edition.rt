// What a program offers.
#[derive(Clone, Copy, PartialEq, Debug)]
pub enum Edition {
    // reading routines
    Reading,
    // also checking them
    Checking,
}
