// The machines of the network.
ghost use Rattle.std.specs.Prelude.{◌≤◌};
ghost use Rattle.ff_io.specs.declared.station.TheConstants.{FIRST_MACHINE, LAST_MACHINE};

/// The least number of a machine.
pub const FIRST_MACHINE: u8 = 1;

/// The greatest number of a machine.
pub const LAST_MACHINE: u8 = 254;

/// A machine of the network, by its number, which is from 1 to 254.
#[derive(Clone, Copy, Debug, PartialEq, Eq)]
pub struct Station {
    /// The machine's number.
    pub machine: u8,
    pub ghost at_least: { FIRST_MACHINE ≤ machine },
    pub ghost at_most: { machine ≤ LAST_MACHINE },
}
