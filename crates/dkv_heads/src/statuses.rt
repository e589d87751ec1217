//! The status codes that this server answers (RFC 9110, section 15; for 431 RFC 6585, section 5).

/// The request was served.
pub const OK: u16 = 200;

/// The bytes are no request, or the request asks for nothing that can be done.
pub const BAD_REQUEST: u16 = 400;

/// The request has no token, or none that opens this database.
pub const UNAUTHORIZED: u16 = 401;

/// No such target.
pub const NOT_FOUND: u16 = 404;

/// The target is not asked by this method.
pub const METHOD_NOT_ALLOWED: u16 = 405;

/// The body is longer than it may be.
pub const CONTENT_TOO_LARGE: u16 = 413;

/// The head is longer than it may be.
pub const HEADER_FIELDS_TOO_LARGE: u16 = 431;

/// The request can't be served now.
pub const SERVICE_UNAVAILABLE: u16 = 503;
