// The bytes that each header and each root begins or ends with, as in the specs.

// A map of two entries, and the text `roots`.
pub(crate) const HEADER_START: [u8; 7] = [0xa2, 0x65, 0x72, 0x6f, 0x6f, 0x74, 0x73];

// The text `version`, and 1.
pub(crate) const HEADER_END: [u8; 9] = [0x67, 0x76, 0x65, 0x72, 0x73, 0x69, 0x6f, 0x6e, 0x01];

// The tag of a link, the head of 37 bytes, and the identity multibase.
pub(crate) const ROOT_START: [u8; 5] = [0xd8, 0x2a, 0x58, 0x25, 0x00];

// The length of an identifier's bytes.
pub(crate) const CID_LEN: usize = 36;
