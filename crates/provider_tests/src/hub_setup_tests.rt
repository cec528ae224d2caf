//! What no clause says: that there is memory to set a hub up.

use hub_setup::{SetupFault, set_up};
use saml_outside::MemFiles;
use std::alloc::Global;
use std::test::Fail;

const CONFIG: &[u8] =
    b"entity urn:example:hub\nbase http://127.0.0.1:8082\nlisten 127.0.0.1:8082\nskew 60\nidp idp\nkey_in key\nkey_out key\nid_key key\npeer sp key key\n";

const IDP: &[u8] =
    b"<md:EntityDescriptor xmlns:md=\"urn:oasis:names:tc:SAML:2.0:metadata\" entityID=\"urn:example:idp\"><md:IDPSSODescriptor><md:SingleSignOnService Binding=\"urn:oasis:names:tc:SAML:2.0:bindings:HTTP-POST\" Location=\"http://127.0.0.1:8080/sso\"/></md:IDPSSODescriptor></md:EntityDescriptor>";

const SP: &[u8] =
    b"<md:EntityDescriptor xmlns:md=\"urn:oasis:names:tc:SAML:2.0:metadata\" entityID=\"urn:example:sp\"><md:SPSSODescriptor><md:AssertionConsumerService Binding=\"urn:oasis:names:tc:SAML:2.0:bindings:HTTP-POST\" Location=\"http://127.0.0.1:8081/acs\" index=\"0\"/></md:SPSSODescriptor></md:EntityDescriptor>";

/// The files of a hub, with this config.
fn files_of(alloc: Global, config: &[u8]) -> Result<MemFiles, Fail> {
    let mut files = MemFiles::new(alloc);
    files.add("idp", IDP)?;
    files.add("sp", SP)?;
    files.add("key", &[0x99; 32])?;
    files.add("hub.conf", config)?;
    Ok(files)
}

#[test]
fn a_hub_is_set_up(rt: HostRuntime) -> Result<(), Fail> {
    let alloc = rt.alloc();
    let mut files = files_of(alloc, CONFIG)?;
    let Ok(config) = set_up(alloc, &mut files, "hub.conf") else {
        return Err(Fail::from("a hub that is not set up"));
    };
    assert_eq!(rt; config.upstream.idp.entity.as_str(), "urn:example:idp");
    assert_eq!(rt; config.upstream.skew, 60_000);
    assert_eq!(rt; config.peers.len(), 1);
    Ok(())
}

#[test]
fn a_bad_line_of_a_hub_is_told(rt: HostRuntime) -> Result<(), Fail> {
    let alloc = rt.alloc();
    let mut files = files_of(alloc, b"entity urn:example:hub\nguard\n")?;
    let Err(SetupFault::BadFile { file, line }) = set_up(alloc, &mut files, "hub.conf") else {
        return Err(Fail::from("a guard that is not told"));
    };
    assert_eq!(rt; file.as_str(), "hub.conf");
    assert_eq!(rt; line, 2);
    Ok(())
}
