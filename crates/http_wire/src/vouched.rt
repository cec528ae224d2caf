//! The answer that says whom a server vouches for.
ghost use Rattle.std.specs.Prelude.{◌≡◌, ◌++◌, IfOk, OnOk};
ghost use Rattle.std.specs.String.{string_bytes};
ghost use Rattle.form_urlencoded.specs.Form.{extend_pairs};
ghost use Rattle.http_wire.specs.Vouched as spec;

use crate::answer::put_head;
use crate::status::OK;
use form_urlencoded::Serializer;
use owned_values::{Attribute, Attributes, Blob, NoMemory};
use percent_encoding::percent_encode_byte;
use std::alloc::Global;

/// Whether a name keeps this byte in a line.
fn is_name_byte(byte: u8) -> bool
    ensures { result ≡ spec.is_name_byte byte }
{
    byte.is_ascii_graphic() && byte != b'%'
}

/// Puts a name, with all that may not stand in a line escaped. Where there is no memory, a part of it may have been put.
fn put_name(name: &str, out: &mut Blob) -> Result<(), NoMemory>
    ensures { OnOk result (out.new ≡ out.old ++ spec.escaped_name name.now) }
{
    for byte in name.as_bytes() {
        if is_name_byte(*byte) {
            out.push(&[*byte])?;
        } else {
            out.push(percent_encode_byte(*byte).as_bytes())?;
        }
    }
    Ok(())
}

/// Puts a pair for each value of an attribute.
fn put_values(attribute: &Attribute, form: &mut Serializer) -> Result<(), NoMemory>
    ensures ok { OnOk result (form.new.form ≡ extend_pairs form.old.form (spec.value_pairs attribute.now)) }
    ensures prefix { form.new.prefix ≡ form.old.prefix }
{
    for value in attribute.values.as_slice() {
        form.append_pair(attribute.name.as_str(), value.as_str())?;
    }
    Ok(())
}

/// The pairs of attributes, as a form writes them.
fn attributes_form(alloc: Global, attributes: &Attributes) -> Result<String, NoMemory>
    ensures { IfOk result (λ text. string_bytes text ≡ spec.attributes_form attributes.now) }
{
    let mut form = Serializer::new(String::new(alloc));
    for attribute in attributes.as_slice() {
        put_values(attribute, &mut form)?;
    }
    Ok(form.finish())
}

/// All bytes of an answer of status 200 without a body, which tells a proxy in front of an application who a request comes
/// from: `Remote-User` holds the name, with each byte outside 0x21 to 0x7E and each `%` as `%` and two upper-case digits, and
/// `Remote-Attributes` one pair for each value of each attribute, in order, as a form (URL Standard, 5). Both may be empty.
pub fn vouched_answer(alloc: Global, name: &str, attributes: &Attributes) -> Result<Blob, NoMemory>
    ensures { IfOk result (λ bytes. bytes ≡ spec.vouched_answer name.now attributes.now) }
{
    let form = attributes_form(alloc, attributes)?;
    let mut answer = Blob::new(alloc);
    put_head(OK, 0, &mut answer)?;
    answer.push(b"Remote-User: ")?;
    put_name(name, &mut answer)?;
    answer.push(b"\r\nRemote-Attributes: ")?;
    answer.push(form.as_bytes())?;
    answer.push(b"\r\n\r\n")?;
    Ok(answer)
}
