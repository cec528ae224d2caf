//! What no clause says: which local name a name has when it is run.

use saml_names::{ds, saml};

#[test]
fn names_have_their_namespaces(rt: HostRuntime) {
    assert!(rt; saml("Issuer").namespace == "urn:oasis:names:tc:SAML:2.0:assertion");
    assert!(rt; ds("Signature").local == "Signature");
}
