// The URIs that messages hold.

/// The status of a request that succeeded (SAML Core, 3.2.2.2).
pub const SUCCESS: &str = "urn:oasis:names:tc:SAML:2.0:status:Success";

/// The status of a request that the responder could not perform (SAML Core, 3.2.2.2).
pub const RESPONDER: &str = "urn:oasis:names:tc:SAML:2.0:status:Responder";

/// The second status of an answer where the user could not be authenticated passively (SAML Core, 3.2.2.2).
pub const NO_PASSIVE: &str = "urn:oasis:names:tc:SAML:2.0:status:NoPassive";

/// The second status of a logout that did not reach all participants (SAML Core, 3.2.2.2).
pub const PARTIAL_LOGOUT: &str = "urn:oasis:names:tc:SAML:2.0:status:PartialLogout";

/// The binding of messages in forms that a browser posts (SAML Bindings, 3.5.1).
pub const POST: &str = "urn:oasis:names:tc:SAML:2.0:bindings:HTTP-POST";

/// The confirmation that who holds the assertion is its subject (SAML Profiles, 3.3).
pub const BEARER: &str = "urn:oasis:names:tc:SAML:2.0:cm:bearer";

/// The class of an authentication by password (SAML Authentication Context, 3.4.8).
pub const PASSWORD: &str = "urn:oasis:names:tc:SAML:2.0:ac:classes:Password";
