// The statuses that are answered (RFC 9110, 15).

pub(crate) const OK: u16 = 200;

pub(crate) const SEE_OTHER: u16 = 303;

pub(crate) const BAD_REQUEST: u16 = 400;

pub(crate) const UNAUTHORIZED: u16 = 401;

pub(crate) const FORBIDDEN: u16 = 403;

pub(crate) const NOT_FOUND: u16 = 404;

pub(crate) const METHOD_NOT_ALLOWED: u16 = 405;

pub(crate) const LENGTH_REQUIRED: u16 = 411;

pub(crate) const PAYLOAD_TOO_LARGE: u16 = 413;

pub(crate) const UNSUPPORTED_MEDIA_TYPE: u16 = 415;

pub(crate) const NOT_IMPLEMENTED: u16 = 501;

pub(crate) const SERVICE_UNAVAILABLE: u16 = 503;
