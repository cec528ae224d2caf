//! What no clause says: that there is memory for a login that a hub passes on, over disks in memory.
ghost use Rattle.std.specs.Prelude.{Some};
ghost use Rattle.crash_disk.specs.Memory.{state_of};

use crash_disk::MemDisk;
use http_wire::{Answer, Found, request_of};
use identity_hub::{HubNode, HubRole};
use idp_server::{IdpNode, IdpRole};
use owned_values::NoMemory;
use post_agent::{Agent, Outgoing, Site, What};
use post_binding::Field;
use saml_outside::MemFiles;
use serve_loop::Node;
use std::alloc::Global;
use std::test::Fail;

/// The config of a hub `h` between the provider `s` below and the identity provider `i` above.
const HUB: &[u8] =
    b"entity h\nbase http://127.0.0.1:8081\nlisten 127.0.0.1:8081\nskew 60\nidp above\nkey_in down\nkey_out up\nid_key hub_ids\npeer below up down\n";

/// The config of `i`, which knows the hub alone.
const IDP: &[u8] =
    b"entity i\nbase http://127.0.0.1:8080\nlisten 127.0.0.1:8080\nskew 60\nusers users\nid_key idp_ids\npeer hub up down\n";

const ABOVE: &[u8] =
    b"<md:EntityDescriptor xmlns:md=\"urn:oasis:names:tc:SAML:2.0:metadata\" entityID=\"i\"><md:IDPSSODescriptor><md:SingleSignOnService Binding=\"urn:oasis:names:tc:SAML:2.0:bindings:HTTP-POST\" Location=\"http://127.0.0.1:8080/sso\"/></md:IDPSSODescriptor></md:EntityDescriptor>";

const BETWEEN: &[u8] =
    b"<md:EntityDescriptor xmlns:md=\"urn:oasis:names:tc:SAML:2.0:metadata\" entityID=\"h\"><md:SPSSODescriptor><md:AssertionConsumerService Binding=\"urn:oasis:names:tc:SAML:2.0:bindings:HTTP-POST\" Location=\"http://127.0.0.1:8081/acs\" index=\"0\"/></md:SPSSODescriptor></md:EntityDescriptor>";

const BELOW: &[u8] =
    b"<md:EntityDescriptor xmlns:md=\"urn:oasis:names:tc:SAML:2.0:metadata\" entityID=\"s\"><md:SPSSODescriptor><md:AssertionConsumerService Binding=\"urn:oasis:names:tc:SAML:2.0:bindings:HTTP-POST\" Location=\"http://127.0.0.1:8082/acs\" index=\"0\"/></md:SPSSODescriptor></md:EntityDescriptor>";

/// A form of a provider below with `<p:AuthnRequest xmlns:p=".." ID="q" IssueInstant="2024-01-01T00:00:00Z" Version="2.0"><Issuer xmlns="..">s</Issuer></p:AuthnRequest>`.
const ASKING: &[u8] =
    b"POST /sso HTTP/1.1\r\nContent-Type: application/x-www-form-urlencoded\r\nContent-Length: 286\r\n\r\nSAMLRequest=PHA6QXV0aG5SZXF1ZXN0IHhtbG5zOnA9InVybjpvYXNpczpuYW1lczp0YzpTQU1MOjIuMDpwcm90b2NvbCIgSUQ9InEiIElzc3VlSW5zdGFudD0iMjAyNC0wMS0wMVQwMDowMDowMFoiIFZlcnNpb249IjIuMCI%2BPElzc3VlciB4bWxucz0idXJuOm9hc2lzOm5hbWVzOnRjOlNBTUw6Mi4wOmFzc2VydGlvbiI%2BczwvSXNzdWVyPjwvcDpBdXRoblJlcXVlc3Q%2B";

/// The same with `IsPassive="true"`.
const ASKING_PASSIVELY: &[u8] =
    b"POST /sso HTTP/1.1\r\nContent-Type: application/x-www-form-urlencoded\r\nContent-Length: 308\r\n\r\nSAMLRequest=PHA6QXV0aG5SZXF1ZXN0IHhtbG5zOnA9InVybjpvYXNpczpuYW1lczp0YzpTQU1MOjIuMDpwcm90b2NvbCIgSUQ9InEiIElzUGFzc2l2ZT0idHJ1ZSIgSXNzdWVJbnN0YW50PSIyMDI0LTAxLTAxVDAwOjAwOjAwWiIgVmVyc2lvbj0iMi4wIj48SXNzdWVyIHhtbG5zPSJ1cm46b2FzaXM6bmFtZXM6dGM6U0FNTDoyLjA6YXNzZXJ0aW9uIj5zPC9Jc3N1ZXI%2BPC9wOkF1dGhuUmVxdWVzdD4%3D";

/// A user whose password is `password`.
const USERS: &[u8] =
    b"user alice 1 73616c74 120fb6cffcf8b32c43e7225256c4f837a86548c92ccc35480805987cb70be17b\n";

/// The files of both; each message is signed with the key of its direction.
fn files(alloc: Global) -> Result<MemFiles, Fail> {
    let mut files = MemFiles::new(alloc);
    files.add("hub.conf", HUB)?;
    files.add("idp.conf", IDP)?;
    files.add("above", ABOVE)?;
    files.add("hub", BETWEEN)?;
    files.add("below", BELOW)?;
    files.add("users", USERS)?;
    files.add("up", &[0x11; 32])?;
    files.add("down", &[0x22; 32])?;
    files.add("hub_ids", &[0x44; 32])?;
    files.add("idp_ids", &[0x55; 32])?;
    Ok(files)
}

fn hub_role(alloc: Global) -> Result<HubRole, Fail> {
    match hub_setup::set_up(alloc, &mut files(alloc)?, "hub.conf") {
        Ok(config) => Ok(HubRole::new(alloc, config)),
        Err(_) => Err(Fail::from("a hub that is not set up")),
    }
}

fn idp_role(alloc: Global) -> Result<IdpRole, Fail> {
    match idp_setup::set_up(alloc, &mut files(alloc)?, "idp.conf") {
        Ok(config) => Ok(IdpRole::new(alloc, config)),
        Err(_) => Err(Fail::from("a provider that is not set up")),
    }
}

/// What an agent sees of the answer to a request, which comes whole.
fn seen<N: Node>(
    node: &mut N,
    disk: &mut MemDisk,
    agent: &mut Agent,
    site: Site,
    bytes: &[u8],
) -> Result<What, NoMemory>
    requires { N.rules.own node.old (Some (state_of disk.old)) }
    ensures { N.rules.own node.new (Some (state_of disk.new)) }
{
    let Found::Whole(request) = request_of(bytes) else {
        return Ok(What::Status);
    };
    match node.answer(&request, 0, disk) {
        Answer::Fixed(code) => Ok(What::Code(code)),
        Answer::Full(page) => Ok(agent.receive(site, page.as_slice())?.what),
    }
}

/// The same of what the agent sends itself.
fn sent<N: Node>(
    node: &mut N,
    disk: &mut MemDisk,
    agent: &mut Agent,
    outgoing: &Option<Outgoing>,
) -> Result<What, NoMemory>
    requires { N.rules.own node.old (Some (state_of disk.old)) }
    ensures { N.rules.own node.new (Some (state_of disk.new)) }
{
    match outgoing {
        Some(request) => seen(node, disk, agent, request.site, request.bytes.as_slice()),
        None => Ok(What::End),
    }
}

#[test]
fn a_login_is_passed_on_once(rt: HostRuntime) -> Result<(), Fail> {
    let alloc = rt.alloc();
    let mut hub_disk = MemDisk::new(alloc);
    let mut idp_disk = MemDisk::new(alloc);
    let mut hub = HubNode::start(alloc, hub_role(alloc)?, &mut hub_disk)?;
    let mut idp = IdpNode::start(alloc, idp_role(alloc)?, &mut idp_disk)?;
    let mut agent = Agent::new(alloc);
    let passive = seen(
        &mut hub,
        &mut hub_disk,
        &mut agent,
        Site::Sp,
        ASKING_PASSIVELY,
    )?;
    let asked = seen(&mut hub, &mut hub_disk, &mut agent, Site::Sp, ASKING)?;
    let request = agent.submit()?;
    let login = sent(&mut idp, &mut idp_disk, &mut agent, &request)?;
    let request = agent.login("alice", "password")?;
    let issued = sent(&mut idp, &mut idp_disk, &mut agent, &request)?;
    let request = agent.submit()?;
    let passed = sent(&mut hub, &mut hub_disk, &mut agent, &request)?;
    let again = sent(&mut hub, &mut hub_disk, &mut agent, &request)?;
    assert!(rt; asked == What::Form(Field::Request) && login == What::Login);
    assert!(rt; issued == What::Form(Field::Response) && passed == What::Form(Field::Response));
    assert!(rt; passive == What::Form(Field::Response) && again == What::Code(21));
    assert!(rt; hub.compact(&mut hub_disk, 0).is_ok() && hub.restart(&mut hub_disk).is_ok());
    Ok(())
}
