//! What no clause says: that there is memory for a call, over a disk in memory. The journal with a session of two providers,
//! and what is sent while a logout asks both, are those of another implementation.
ghost use Rattle.std.specs.Prelude.{Some};
ghost use Rattle.crash_disk.specs.Memory.{state_of};
ghost use Rattle.idp_ledger.specs.Record.{idp_rules};
ghost use Rattle.provider_node.specs.Step.{OwnsDisk};

use crash_disk::MemDisk;
use http_wire::{Answer, Found, request_of};
use idp_server::{IdpNode, IdpRole};
use idp_setup::set_up;
use saml_outside::MemFiles;
use serve_loop::Node;
use std::alloc::Global;
use std::test::Fail;

const CONFIG: &[u8] =
    b"entity urn:example:idp\nbase http://127.0.0.1:8080\nlisten 127.0.0.1:8080\nskew 60\nusers users\nid_key id\nfanout\npeer sp1 in1 out1\npeer sp2 in2 out2\n";

const SP1: &[u8] =
    b"<md:EntityDescriptor xmlns:md=\"urn:oasis:names:tc:SAML:2.0:metadata\" entityID=\"urn:example:sp1\"><md:SPSSODescriptor><md:SingleLogoutService Binding=\"urn:oasis:names:tc:SAML:2.0:bindings:HTTP-POST\" Location=\"http://127.0.0.1:8091/slo\"/><md:AssertionConsumerService Binding=\"urn:oasis:names:tc:SAML:2.0:bindings:HTTP-POST\" Location=\"http://127.0.0.1:8091/acs\" index=\"0\"/></md:SPSSODescriptor></md:EntityDescriptor>";

const SP2: &[u8] =
    b"<md:EntityDescriptor xmlns:md=\"urn:oasis:names:tc:SAML:2.0:metadata\" entityID=\"urn:example:sp2\"><md:SPSSODescriptor><md:SingleLogoutService Binding=\"urn:oasis:names:tc:SAML:2.0:bindings:HTTP-POST\" Location=\"http://127.0.0.1:8092/slo\"/><md:AssertionConsumerService Binding=\"urn:oasis:names:tc:SAML:2.0:bindings:HTTP-POST\" Location=\"http://127.0.0.1:8092/acs\" index=\"0\"/></md:SPSSODescriptor></md:EntityDescriptor>";

/// 2024-01-01T00:00:00Z.
const NOW: u64 = 1_704_067_200_000;

/// A form with an AuthnRequest of the first provider.
const ASKING: &[u8] =
    b"POST /sso HTTP/1.1\r\nContent-Type: application/x-www-form-urlencoded\r\nContent-Length: 308\r\n\r\nSAMLRequest=PHA6QXV0aG5SZXF1ZXN0IHhtbG5zOnA9InVybjpvYXNpczpuYW1lczp0YzpTQU1MOjIuMDpwcm90b2NvbCIgSUQ9InEiIElzc3VlSW5zdGFudD0iMjAyNC0wMS0wMVQwMDowMDowMFoiIFZlcnNpb249IjIuMCI%2BPElzc3VlciB4bWxucz0idXJuOm9hc2lzOm5hbWVzOnRjOlNBTUw6Mi4wOmFzc2VydGlvbiI%2BdXJuOmV4YW1wbGU6c3AxPC9Jc3N1ZXI%2BPC9wOkF1dGhuUmVxdWVzdD4%3D";

/// The same with `IsPassive="true"`.
const ASKING_PASSIVELY: &[u8] =
    b"POST /sso HTTP/1.1\r\nContent-Type: application/x-www-form-urlencoded\r\nContent-Length: 328\r\n\r\nSAMLRequest=PHA6QXV0aG5SZXF1ZXN0IHhtbG5zOnA9InVybjpvYXNpczpuYW1lczp0YzpTQU1MOjIuMDpwcm90b2NvbCIgSUQ9InEiIElzUGFzc2l2ZT0idHJ1ZSIgSXNzdWVJbnN0YW50PSIyMDI0LTAxLTAxVDAwOjAwOjAwWiIgVmVyc2lvbj0iMi4wIj48SXNzdWVyIHhtbG5zPSJ1cm46b2FzaXM6bmFtZXM6dGM6U0FNTDoyLjA6YXNzZXJ0aW9uIj51cm46ZXhhbXBsZTpzcDE8L0lzc3Vlcj48L3A6QXV0aG5SZXF1ZXN0Pg%3D%3D";

/// A journal with a session that was issued to both providers.
const JOURNAL: &[u8] =
    b"\x01SAMLJNL\x00\x00\x00\x00\x00\x00\x00\x01\x00\x00\x00\x00\x00\x00\x00\x00\x00\x00\x00\x00\x00\x00\x00\x01\x02\x00\x00\x00\x00\x00\x00\x00\x00\x00\x00\x00\x00\x00\x00\x00\x00\x00\x00\x00\x00\x00\x00\x00\x00\x00\x00\x00\x00\x00\x00\x00\x00\x00\x00\x00\x00\x00\x01\x00\x00\x00\x00\x93\x0b\x00\x00\x00\x00\x00\x00\x00\x01\x00\x00\x01\x8c\xc2Q\xf4\x00\x00\x00\x01\x8c\xc2[\x1b\xc0\x00\x00\x009_00000000000000015b3728ce0a69cba027bc5c9eca386ddf9192f0c7\x00\x00\x00\x03_q0\x00\x00\x00\x0furn:example:sp2\x00\x00\x00\x19http://127.0.0.1:8092/acs\x01\x00\x00\x00\x01r\x01\x00\x00\x01\xea\x0c\x00\x00\x00\x00\x00\x00\x00\x02\x00\x00\x01\x8c\xc2Q\xf4\x00\x01\x00\x00\x009_00000000000000015b3728ce0a69cba027bc5c9eca386ddf9192f0c7\x00\x00\x009_000000000000000431d14783853a7e9bd5f33e7429da602b07ba66d8\x00\x00\x009_0000000000000005a5741293ddeab7875a4697ec8bbb73d3927a7519\x00\x00\x01\x8c\xc4\x09h\x00\x00\x00\x009_00000000000000026a5bb4fb9c55c9a9289f4acf9aeb0cfc19c8f8f2\x00\x00\x009_00000000000000035e7882b45a11f178b0f4921ea96fb1f9b77d7198\x00\x00\x00\x05alice\x00\x00\x00\x0furn:example:sp2\x00\x00\x00\x19http://127.0.0.1:8092/acs\x00\x00\x00\x03_q0\x01\x00\x00\x00\x01r\x00\x00\x01\x8c\xc2V\x87\xe0\x00\x00\x00\x03\x00\x00\x00\x04mail\x00\x00\x00\x01\x00\x00\x00\x11alice@example.org\x00\x00\x00\x05group\x00\x00\x00\x01\x00\x00\x00\x05staff\x00\x00\x00\x04role\x00\x00\x00\x01\x00\x00\x00\x06reader\x01\x00\x00\x01\xad\x0c\x00\x00\x00\x00\x00\x00\x00\x06\x00\x00\x01\x8c\xc2Q\xf4\x00\x00\x00\x00\x009_000000000000000431d14783853a7e9bd5f33e7429da602b07ba66d8\x00\x00\x009_0000000000000005a5741293ddeab7875a4697ec8bbb73d3927a7519\x00\x00\x01\x8c\xc4\x09h\x00\x00\x00\x009_0000000000000006ff5db7a1b2b9679922e5e23d2207607dcfa91367\x00\x00\x009_0000000000000007e8680d256045b4deabaff3a76459ff585f626987\x00\x00\x00\x05alice\x00\x00\x00\x0furn:example:sp1\x00\x00\x00\x19http://127.0.0.1:8091/acs\x00\x00\x00\x03_q1\x01\x00\x00\x00\x01r\x00\x00\x01\x8c\xc2V\x87\xe0\x00\x00\x00\x03\x00\x00\x00\x04mail\x00\x00\x00\x01\x00\x00\x00\x11alice@example.org\x00\x00\x00\x05group\x00\x00\x00\x01\x00\x00\x00\x05staff\x00\x00\x00\x04role\x00\x00\x00\x01\x00\x00\x00\x06reader\x00";

/// Its user leaves.
const LEAVING: &[u8] =
    b"POST /logout HTTP/1.1\r\nHost: 127.0.0.1:8080\r\nCookie: idp_sid=_000000000000000431d14783853a7e9bd5f33e7429da602b07ba66d8\r\nContent-Type: application/x-www-form-urlencoded\r\nContent-Length: 0\r\n\r\n";

/// The second provider, which was asked first, confirms.
const FIRST: &[u8] =
    b"POST /slo HTTP/1.1\r\nHost: 127.0.0.1:8080\r\nContent-Type: application/x-www-form-urlencoded\r\nContent-Length: 1755\r\n\r\nSAMLResponse=PHNhbWxwOkxvZ291dFJlc3BvbnNlIHhtbG5zOnNhbWxwPSJ1cm46b2FzaXM6bmFtZXM6dGM6U0FNTDoyLjA6cHJvdG9jb2wiIERlc3RpbmF0aW9uPSJodHRwOi8vMTI3LjAuMC4xOjgwODAvc2xvIiBJRD0iX2wyIiBJblJlc3BvbnNlVG89Il8wMDAwMDAwMDAwMDAwMDA5Njc4ZGMxNWFmYzk3N2VlNjU0NThlMjZhYTg3MDgxMDM5NDMyYTQ4NCIgSXNzdWVJbnN0YW50PSIyMDI0LTAxLTAxVDAwOjAwOjAwLjAwMFoiIFZlcnNpb249IjIuMCI%2BPHNhbWw6SXNzdWVyIHhtbG5zOnNhbWw9InVybjpvYXNpczpuYW1lczp0YzpTQU1MOjIuMDphc3NlcnRpb24iPnVybjpleGFtcGxlOnNwMjwvc2FtbDpJc3N1ZXI%2BPGRzOlNpZ25hdHVyZSB4bWxuczpkcz0iaHR0cDovL3d3dy53My5vcmcvMjAwMC8wOS94bWxkc2lnIyI%2BPGRzOlNpZ25lZEluZm8%2BPGRzOkNhbm9uaWNhbGl6YXRpb25NZXRob2QgQWxnb3JpdGhtPSJodHRwOi8vd3d3LnczLm9yZy8yMDAxLzEwL3htbC1leGMtYzE0biMiPjwvZHM6Q2Fub25pY2FsaXphdGlvbk1ldGhvZD48ZHM6U2lnbmF0dXJlTWV0aG9kIEFsZ29yaXRobT0iaHR0cDovL3d3dy53My5vcmcvMjAwMS8wNC94bWxkc2lnLW1vcmUjaG1hYy1zaGEyNTYiPjwvZHM6U2lnbmF0dXJlTWV0aG9kPjxkczpSZWZlcmVuY2UgVVJJPSIjX2wyIj48ZHM6VHJhbnNmb3Jtcz48ZHM6VHJhbnNmb3JtIEFsZ29yaXRobT0iaHR0cDovL3d3dy53My5vcmcvMjAwMC8wOS94bWxkc2lnI2VudmVsb3BlZC1zaWduYXR1cmUiPjwvZHM6VHJhbnNmb3JtPjxkczpUcmFuc2Zvcm0gQWxnb3JpdGhtPSJodHRwOi8vd3d3LnczLm9yZy8yMDAxLzEwL3htbC1leGMtYzE0biMiPjwvZHM6VHJhbnNmb3JtPjwvZHM6VHJhbnNmb3Jtcz48ZHM6RGlnZXN0TWV0aG9kIEFsZ29yaXRobT0iaHR0cDovL3d3dy53My5vcmcvMjAwMS8wNC94bWxlbmMjc2hhMjU2Ij48L2RzOkRpZ2VzdE1ldGhvZD48ZHM6RGlnZXN0VmFsdWU%2BTSt5aGl6eHY0MHd4V2dTYzFVODRydEhZZ0toZUxodzlxTWRXWERLWHo3QT08L2RzOkRpZ2VzdFZhbHVlPjwvZHM6UmVmZXJlbmNlPjwvZHM6U2lnbmVkSW5mbz48ZHM6U2lnbmF0dXJlVmFsdWU%2BanpuQVhqRTRXdktZTlBkaXppQ09rMVhyeWVtOXF1RVlLc1JIVzMwaUJuMD08L2RzOlNpZ25hdHVyZVZhbHVlPjwvZHM6U2lnbmF0dXJlPjxzYW1scDpTdGF0dXM%2BPHNhbWxwOlN0YXR1c0NvZGUgVmFsdWU9InVybjpvYXNpczpuYW1lczp0YzpTQU1MOjIuMDpzdGF0dXM6U3VjY2VzcyI%2BPC9zYW1scDpTdGF0dXNDb2RlPjwvc2FtbHA6U3RhdHVzPjwvc2FtbHA6TG9nb3V0UmVzcG9uc2U%2B";

/// The first provider confirms.
const LAST: &[u8] =
    b"POST /slo HTTP/1.1\r\nHost: 127.0.0.1:8080\r\nContent-Type: application/x-www-form-urlencoded\r\nContent-Length: 1755\r\n\r\nSAMLResponse=PHNhbWxwOkxvZ291dFJlc3BvbnNlIHhtbG5zOnNhbWxwPSJ1cm46b2FzaXM6bmFtZXM6dGM6U0FNTDoyLjA6cHJvdG9jb2wiIERlc3RpbmF0aW9uPSJodHRwOi8vMTI3LjAuMC4xOjgwODAvc2xvIiBJRD0iX2wyIiBJblJlc3BvbnNlVG89Il8wMDAwMDAwMDAwMDAwMDBhNWYwMDc5ZTY5Mjg1YTkyY2NkNDZjNWNjZDJkZDdkYTFlNjc3NjhjNCIgSXNzdWVJbnN0YW50PSIyMDI0LTAxLTAxVDAwOjAwOjAwLjAwMFoiIFZlcnNpb249IjIuMCI%2BPHNhbWw6SXNzdWVyIHhtbG5zOnNhbWw9InVybjpvYXNpczpuYW1lczp0YzpTQU1MOjIuMDphc3NlcnRpb24iPnVybjpleGFtcGxlOnNwMTwvc2FtbDpJc3N1ZXI%2BPGRzOlNpZ25hdHVyZSB4bWxuczpkcz0iaHR0cDovL3d3dy53My5vcmcvMjAwMC8wOS94bWxkc2lnIyI%2BPGRzOlNpZ25lZEluZm8%2BPGRzOkNhbm9uaWNhbGl6YXRpb25NZXRob2QgQWxnb3JpdGhtPSJodHRwOi8vd3d3LnczLm9yZy8yMDAxLzEwL3htbC1leGMtYzE0biMiPjwvZHM6Q2Fub25pY2FsaXphdGlvbk1ldGhvZD48ZHM6U2lnbmF0dXJlTWV0aG9kIEFsZ29yaXRobT0iaHR0cDovL3d3dy53My5vcmcvMjAwMS8wNC94bWxkc2lnLW1vcmUjaG1hYy1zaGEyNTYiPjwvZHM6U2lnbmF0dXJlTWV0aG9kPjxkczpSZWZlcmVuY2UgVVJJPSIjX2wyIj48ZHM6VHJhbnNmb3Jtcz48ZHM6VHJhbnNmb3JtIEFsZ29yaXRobT0iaHR0cDovL3d3dy53My5vcmcvMjAwMC8wOS94bWxkc2lnI2VudmVsb3BlZC1zaWduYXR1cmUiPjwvZHM6VHJhbnNmb3JtPjxkczpUcmFuc2Zvcm0gQWxnb3JpdGhtPSJodHRwOi8vd3d3LnczLm9yZy8yMDAxLzEwL3htbC1leGMtYzE0biMiPjwvZHM6VHJhbnNmb3JtPjwvZHM6VHJhbnNmb3Jtcz48ZHM6RGlnZXN0TWV0aG9kIEFsZ29yaXRobT0iaHR0cDovL3d3dy53My5vcmcvMjAwMS8wNC94bWxlbmMjc2hhMjU2Ij48L2RzOkRpZ2VzdE1ldGhvZD48ZHM6RGlnZXN0VmFsdWU%2BWHRNblNZQk1zdXBBMS9xWWxWdWsrMFpWY29PbGRvTFcwY0p2UlNPVFlvND08L2RzOkRpZ2VzdFZhbHVlPjwvZHM6UmVmZXJlbmNlPjwvZHM6U2lnbmVkSW5mbz48ZHM6U2lnbmF0dXJlVmFsdWU%2BQUxhYlVzbi9vSkNrU3lpdkZ6ZmhqcWJpNi9aQ2Rxb2g3MFkvZVNwdzNPOD08L2RzOlNpZ25hdHVyZVZhbHVlPjwvZHM6U2lnbmF0dXJlPjxzYW1scDpTdGF0dXM%2BPHNhbWxwOlN0YXR1c0NvZGUgVmFsdWU9InVybjpvYXNpczpuYW1lczp0YzpTQU1MOjIuMDpzdGF0dXM6U3VjY2VzcyI%2BPC9zYW1scDpTdGF0dXNDb2RlPjwvc2FtbHA6U3RhdHVzPjwvc2FtbHA6TG9nb3V0UmVzcG9uc2U%2B";

/// The role of a provider that asks all others at a logout.
fn role(alloc: Global) -> Result<IdpRole, Fail> {
    let mut files = MemFiles::new(alloc);
    files.add("idp.conf", CONFIG)?;
    files.add("users", b"")?;
    files.add("id", &[0x33; 32])?;
    files.add("sp1", SP1)?;
    files.add("in1", &[0xa1; 32])?;
    files.add("out1", &[0xb1; 32])?;
    files.add("sp2", SP2)?;
    files.add("in2", &[0xa2; 32])?;
    files.add("out2", &[0xb2; 32])?;
    match set_up(alloc, &mut files, "idp.conf") {
        Ok(config) => Ok(IdpRole::new(alloc, config)),
        Err(_) => Err(Fail::from("a provider that is not set up")),
    }
}

/// The code of the answer to a request, which comes whole; 0 where it has a page.
fn code_answered(node: &mut IdpNode, disk: &mut MemDisk, bytes: &[u8]) -> u16
    requires { OwnsDisk idp_rules node.old (Some (state_of disk.old)) }
    ensures { OwnsDisk idp_rules node.new (Some (state_of disk.new)) }
{
    let Found::Whole(request) = request_of(bytes) else {
        return 400;
    };
    match node.answer(&request, NOW, disk) {
        Answer::Fixed(code) => code,
        Answer::Full(_) => 0,
    }
}

/// Whether each call of a provider has what it needs.
fn answers(node: &mut IdpNode, disk: &mut MemDisk) -> bool
    requires { OwnsDisk idp_rules node.old (Some (state_of disk.old)) }
{
    let asked = code_answered(node, disk, ASKING);
    let passive = code_answered(node, disk, ASKING_PASSIVELY);
    let shown = code_answered(node, disk, b"GET /metadata HTTP/1.1\r\n\r\n");
    let codes = (asked, passive, shown);
    codes == (0, 0, 0) && node.compact(disk, NOW).is_ok() && node.restart(disk).is_ok()
}

#[test]
fn there_is_memory_for_each_call(rt: HostRuntime) -> Result<(), Fail> {
    let alloc = rt.alloc();
    let mut disk = MemDisk::new(alloc);
    let mut node = IdpNode::start(alloc, role(alloc)?, &mut disk)?;
    assert!(rt; answers(&mut node, &mut disk));
    Ok(())
}

#[test]
fn there_is_memory_for_a_logout_that_asks_all(rt: HostRuntime) -> Result<(), Fail> {
    let alloc = rt.alloc();
    let mut disk = MemDisk::of(alloc, JOURNAL, b"")?;
    let mut node = IdpNode::start(alloc, role(alloc)?, &mut disk)?;
    let left = code_answered(&mut node, &mut disk, LEAVING);
    let first = code_answered(&mut node, &mut disk, FIRST);
    let last = code_answered(&mut node, &mut disk, LAST);
    assert!(rt; (left, first, last) == (0, 0, 0));
    Ok(())
}
