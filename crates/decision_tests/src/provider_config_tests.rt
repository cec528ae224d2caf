//! What no clause says: configs that others read, and that there is memory for a config.

use provider_config::{
    ConfigFault, FileRole, HubFile, IdpFile, Purpose, SignMode, SpFile, Times, read_hub_config,
    read_idp_config, read_sp_config,
};
use std::alloc::Global;
use std::process::Abort;
use std::test::Fail;

const HEAD: &str = "entity urn:example:sp\nbase http://127.0.0.1:8081\n";

const REST: &str =
    "listen 127.0.0.1:8081\nskew 60\nasked _r1 rel1 /app 1704068000000\nidp idp.xml\nkey_in key_in\nkey_out key_out\nid_key id_key\n";

/// Whether a config with these bytes as its third line has this fault, or none.
fn reads_as(
    rt: &impl Abort,
    alloc: Global,
    line: &[u8],
    fault: Option<ConfigFault>,
) -> Result<(), Fail> {
    let mut text = Vec::from_slice(alloc, HEAD.as_bytes())?;
    text.extend_from_slice(line)?;
    text.push(b'\n')?;
    text.extend_from_slice(REST.as_bytes())?;
    if text.len() > 1000 {
        return Err(Fail::from("a long line"));
    }
    let read = read_sp_config(alloc, text.as_slice(), Purpose::Check);
    assert_eq!(rt; read.err(), fault, "{line:?}");
    Ok(())
}

#[test]
fn lines_are_bad_where_others_find_them_so(rt: HostRuntime) -> Result<(), Fail> {
    let alloc = rt.alloc();
    for line in [
        b"Entity x".as_slice(),
        b"users u".as_slice(),
        b"asked".as_slice(),
        b"asked a b c 1 d".as_slice(),
        b"asked a b c 18446744073709551616".as_slice(),
        b"asked a b c 01".as_slice(),
        b"asked a  c 1".as_slice(),
        b"asked a b c 1 ".as_slice(),
        b"asked a b c 1\r".as_slice(),
        b"asked a b c \xD9\xA1".as_slice(),
        b"# \xEF\xBF\xBE".as_slice(),
        b"next_in next_in 0 253402300800000".as_slice(),
        b"next_in next_in 2 1".as_slice(),
        b"policy".as_slice(),
        b"policy p q".as_slice(),
        b"registry a k".as_slice(),
        b"registry a k ".as_slice(),
    ] {
        reads_as(&rt, alloc, line, Some(ConfigFault::Line(3)))?;
    }
    reads_as(&rt, alloc, b"skew 60", Some(ConfigFault::Line(5)))?;
    reads_as(&rt, alloc, b"asked \xC3\xA9 # <&> 0", None)?;
    reads_as(&rt, alloc, b"#entity x", None)?;
    Ok(())
}

#[test]
fn a_config_is_read(rt: HostRuntime) -> Result<(), Fail> {
    let text =
        b"id_key id_key\nkey_out key_out\nkey_in key_in\nidp idp.xml\nopened _r9 urn:example:idp _a1 1704068000000\nskew 60\nlisten 127.0.0.1:8081\nbase http://127.0.0.1:8081\nentity urn:example:sp\nnext_in next_in 1704067200000 1704067260000";
    let lines = read_sp_config(rt.alloc(), text, Purpose::Check)?;
    assert_eq!(rt; lines.base.as_str(), "http://127.0.0.1:8081");
    assert_eq!(rt; lines.skew, 60_000);
    assert_eq!(rt;
        lines.next_in,
        Some(Times {
            from: 1_704_067_200_000,
            until: 1_704_067_260_000
        })
    );
    assert_eq!(rt; lines.opened.len(), 1);
    let Some(SpFile::One(first)) = lines.files.first() else {
        return Err(Fail::from("no file"));
    };
    assert_eq!(rt; first.role, FileRole::IdKey);
    assert_eq!(rt; lines.files.len(), 5);
    Ok(())
}

#[test]
fn a_config_of_an_identity_provider_is_read(rt: HostRuntime) -> Result<(), Fail> {
    let alloc = rt.alloc();
    let text =
        b"entity urn:example:idp\nbase http://127.0.0.1:8080\nlisten 127.0.0.1:8080\nusers users\nid_key id_key\nskew 60\n# c\npeer sp.xml in out\nsign both\n";
    let lines = read_idp_config(alloc, text)?;
    assert_eq!(rt; lines.entity.as_str(), "urn:example:idp");
    assert_eq!(rt; lines.sign, SignMode::Both);
    assert_eq!(rt; lines.files.len(), 3);
    let Some(IdpFile::Peer(peer)) = lines.files.last() else {
        return Err(Fail::from("no peer"));
    };
    assert_eq!(rt; peer.line, 8);
    assert_eq!(rt; peer.key_out.as_str(), "out");
    assert_eq!(rt;
        read_idp_config(alloc, b"entity a\nidp b\n").err(),
        Some(ConfigFault::Line(2))
    );
    Ok(())
}

#[test]
fn a_config_of_a_hub_is_read(rt: HostRuntime) -> Result<(), Fail> {
    let alloc = rt.alloc();
    let text =
        b"entity urn:example:hub\nbase http://127.0.0.1:8082\nlisten 127.0.0.1:8082\npeer sp.xml in out\nid_key id_key\nskew 60\nidp idp.xml\nkey_in key_in\nkey_out key_out\nnext_in next 0 9\n";
    let lines = read_hub_config(alloc, text)?;
    assert_eq!(rt; lines.listen.as_str(), "127.0.0.1:8082");
    assert_eq!(rt; lines.next_in, Some(Times { from: 0, until: 9 }));
    assert_eq!(rt; lines.files.len(), 6);
    let Some(HubFile::Peer(peer)) = lines.files.first() else {
        return Err(Fail::from("no peer"));
    };
    assert_eq!(rt; peer.line, 4);
    let Some(HubFile::Above(SpFile::One(last))) = lines.files.last() else {
        return Err(Fail::from("no file"));
    };
    assert_eq!(rt; last.role, FileRole::NextIn);
    assert_eq!(rt;
        read_hub_config(alloc, b"entity a\npolicy b\n").err(),
        Some(ConfigFault::Line(2))
    );
    Ok(())
}
