use thiserror::Error;

/// Why octets are no frame of a layout: the first check that fails. `as u8` gives its number in the formats.
#[derive(Clone, Copy, Debug, PartialEq, Eq, Error)]
pub enum FrameFault {
    /// Too few octets.
    #[error("frame has too few octets")]
    Short = 1,
    /// Too many octets.
    #[error("frame has too many octets")]
    Long = 2,
    /// The TC length field is not the number of octets minus 1.
    #[error("length field is not the number of octets minus 1")]
    LengthField = 3,
    /// The transfer frame version number is not the frame kind's.
    #[error("version number is another kind's")]
    Version = 4,
    /// A spare bit is set.
    #[error("spare bit is set")]
    Spare = 5,
    /// The TM secondary header has another version, or no room.
    #[error("secondary header has another version, or no room")]
    SecondaryHeader = 6,
    /// The frame error control field is not the remainder.
    #[error("frame error control field is not the remainder")]
    Fecf = 7,
}

/// What a link says of its TC transfer frames (CCSDS 232.0-B-4).
#[derive(Clone, Copy, Debug, PartialEq, Eq)]
pub struct TcLayout {
    /// Frames without the control command flag have a segment header.
    pub segment: bool,
    /// Frames end with a frame error control field.
    pub fecf: bool,
    /// The most octets of a frame.
    pub most: u16,
}

/// What a link says of its TM transfer frames (CCSDS 132.0-B-3).
#[derive(Clone, Copy, Debug, PartialEq, Eq)]
pub struct TmLayout {
    /// The octets of each frame.
    pub length: u16,
    /// Frames end with a frame error control field.
    pub fecf: bool,
}

/// What a link says of its AOS transfer frames (CCSDS 732.0-B-4).
#[derive(Clone, Copy, Debug, PartialEq, Eq)]
pub struct AosLayout {
    /// The octets of each frame.
    pub length: u16,
    /// The octets of the insert zone.
    pub insert: u8,
    /// Frames have an operational control field.
    pub ocf: bool,
    /// Frames end with a frame error control field.
    pub fecf: bool,
}
