//! Why some bytes are no frame for a machine.
ghost use Rattle.std.specs.Prelude.{◌≡◌, ◌-◌, ◌≤◌, ℕ, List, Some, map, slice_get};

use thiserror::Error;

/// Why some bytes are no frame for a machine of this network, each with its number. Where several apply, the one of
/// the least number is given.
#[derive(Clone, Copy, PartialEq, Eq, Debug, Error)]
pub enum FrameFault {
    #[error("fewer bytes than the headers have")]
    Short = 1,
    #[error("an Ethernet destination other than this machine")]
    NotForUs = 2,
    #[error("an Ethernet type other than IP")]
    NotIp = 3,
    #[error("an IP version other than 4")]
    Version = 4,
    #[error("IP options")]
    Options = 5,
    #[error("an IP length other than that of the frame")]
    IpLength = 6,
    #[error("a fragment of an IP datagram")]
    IpFragment = 7,
    #[error("an IP protocol other than UDP")]
    NotUdp = 8,
    #[error("a wrong IP header checksum")]
    IpChecksum = 9,
    #[error("an IP address from outside this network, or of another machine")]
    Address = 10,
    #[error("a port of another service")]
    Port = 11,
    #[error("a UDP length other than that of the IP datagram")]
    UdpLength = 12,
    #[error("no UDP checksum")]
    NoChecksum = 13,
    #[error("a wrong UDP checksum")]
    UdpChecksum = 14,
}

impl FrameFault {
    ghost use Rattle.udp_frames.specs.Reading.{checks};

    /// The fault's number: its place among the checks of a frame, counted from 1.
    pub fn number(self) -> u8
        ensures from_one { 1 ≤ result }
        ensures place { (bytes : List ℕ) (me : ℕ) → slice_get (map (λ check. check.0) (checks bytes me)) (result - 1) ≡ Some self }
    {
        self as u8
    }
}
