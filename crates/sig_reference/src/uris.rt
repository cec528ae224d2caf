// The algorithms that signatures name.

/// Exclusive XML Canonicalization 1.0, without comments: the algorithm and the namespace of its parameters.
pub(crate) const EXCLUSIVE: &str = "http://www.w3.org/2001/10/xml-exc-c14n#";

/// The transform that leaves out the signature itself (XML Signature, 6.6.4).
pub(crate) const ENVELOPED: &str = "http://www.w3.org/2000/09/xmldsig#enveloped-signature";

/// HMAC with SHA-256 (RFC 4051, 2.2.2).
pub(crate) const HMAC_SHA256: &str = "http://www.w3.org/2001/04/xmldsig-more#hmac-sha256";

/// SHA-256 (XML Encryption, 5.7.2).
pub(crate) const SHA256: &str = "http://www.w3.org/2001/04/xmlenc#sha256";
