//! How long the parts of a request may be, which the definitions cite and the code compares with.

/// The longest head, in bytes: the request line and the header lines, with their line ends and the empty lines round them.
pub const MAX_HEAD_BYTES: usize = 65_536;

/// The most header lines of a head.
pub const MAX_HEADER_LINES: usize = 64;

/// The longest line that tells a chunk's size, in bytes, with its extension and its line end.
pub const MAX_CHUNK_LINE_BYTES: usize = 4096;

/// The most bytes of all trailer lines of a chunked body.
pub const MAX_TRAILER_BYTES: usize = 8192;

/// The most bytes of a trailer section: its lines and the longest empty line.
pub const MAX_TRAILER_SECTION_BYTES: usize = 8194;
