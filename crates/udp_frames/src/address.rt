//! The addresses of the machines.
ghost use Rattle.std.specs.Prelude.{◌≡◌};
ghost use Rattle.udp_frames.specs.Frame;

use ff_io::Station;

/// The Ethernet address 02:00:0a:00:00:m.
pub(crate) fn ethernet_address(station: Station) -> [u8; 6]
    ensures { result ≡ Frame.ethernet_address station.machine }
{
    [0x02, 0x00, 0x0a, 0x00, 0x00, station.machine]
}

/// The IP address 10.0.0.m.
pub(crate) fn internet_address(station: Station) -> [u8; 4]
    ensures { result ≡ Frame.internet_address station.machine }
{
    [10, 0, 0, station.machine]
}
