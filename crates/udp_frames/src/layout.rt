//! Where the fields of a frame stand, and the values that they have in this network. The Ethernet header is that
//! of RFC 894, the IP header that of RFC 791 without options, the UDP header that of RFC 768.

/// The place of each field's first byte. Frames are written and read by these places.
pub(crate) mod place {
    // The Ethernet header.
    pub const ETHERNET_DESTINATION: usize = 0;

    pub const ETHERNET_SOURCE: usize = 6;

    pub const ETHERNET_TYPE: usize = 12;

    // The IP header.
    pub const INTERNET_HEADER: usize = 14;

    pub const VERSION_AND_LENGTH: usize = 14;

    pub const TYPE_OF_SERVICE: usize = 15;

    pub const TOTAL_LENGTH: usize = 16;

    pub const IDENTIFICATION: usize = 18;

    pub const FLAGS_AND_OFFSET: usize = 20;

    pub const TIME_TO_LIVE: usize = 22;

    pub const PROTOCOL: usize = 23;

    pub const INTERNET_CHECKSUM: usize = 24;

    pub const SOURCE_ADDRESS: usize = 26;

    pub const SOURCE_MACHINE: usize = 29;

    pub const DESTINATION_ADDRESS: usize = 30;

    // The UDP header, and the data behind it.
    pub const UDP_HEADER: usize = 34;

    pub const SOURCE_PORT: usize = 34;

    pub const DESTINATION_PORT: usize = 36;

    pub const UDP_LENGTH: usize = 38;

    pub const UDP_CHECKSUM: usize = 40;

    pub const PAYLOAD: usize = 42;
}

/// The bytes of a frame in front of its payload: the headers of Ethernet, IP and UDP.
pub const HEADERS_LEN: usize = place::PAYLOAD;

/// The length of an IP header without options.
pub(crate) const INTERNET_LEN: usize = place::UDP_HEADER - place::INTERNET_HEADER;

/// The largest length of data in one frame.
pub const LARGEST_PAYLOAD: usize = 1472;

/// The largest length of a frame.
pub const LARGEST_FRAME: usize = HEADERS_LEN + LARGEST_PAYLOAD;

/// The Ethernet type of an IP datagram.
pub(crate) const TYPE_IP: u16 = 0x0800;
/// The version of IP.
pub(crate) const VERSION_4: u8 = 4;
/// The length of an IP header without options, in words of 4 bytes.
pub(crate) const HEADER_WORDS: u8 = 5;
/// The flag of a datagram that no router may cut into fragments.
pub(crate) const DO_NOT_FRAGMENT: u16 = 0x4000;
/// How many routers a written datagram may pass.
pub(crate) const TIME_TO_LIVE: u8 = 64;
/// The IP protocol number of UDP.
pub(crate) const PROTOCOL_UDP: u8 = 17;
/// The UDP port of every machine.
pub(crate) const PORT: u16 = 4003;
/// The sum of a text whose checksum is right.
pub(crate) const RIGHT_SUM: u16 = 0xffff;
