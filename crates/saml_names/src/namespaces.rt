// The namespaces of the messages.

/// The namespace of assertions (SAML Core, 1.1).
pub const SAML: &str = "urn:oasis:names:tc:SAML:2.0:assertion";

/// The namespace of protocol messages (SAML Core, 1.1).
pub const SAMLP: &str = "urn:oasis:names:tc:SAML:2.0:protocol";

/// The namespace of signatures (XML Signature, 1.2).
pub const DS: &str = "http://www.w3.org/2000/09/xmldsig#";

/// The namespace of metadata (SAML Metadata, 1.1).
pub const MD: &str = "urn:oasis:names:tc:SAML:2.0:metadata";
