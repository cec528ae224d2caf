// Metadata that is written (SAML Metadata, 2.3 and 2.4).

ghost use Rattle.std.specs.Prelude.{◌≡◌, ◌++◌, [], IfOk};
ghost use Rattle.xml_spec.specs.Characters.{IsText, IsNoColonName};
ghost use Rattle.element_make.specs.Made.{alone, joined, written};
ghost use Rattle.metadata.specs.Making.{endpoint, logout_endpoint, sign_on_endpoint, role_descriptor, entity_descriptor, plain, metadata};

use crate::peer::Role;
use element_make::{Made, Ns};
use owned_values::{Blob, NoMemory};
use saml_names::{POST, SAMLP};
use std::alloc::Global;

/// An endpoint of HTTP POST at a path below the base address.
fn endpoint(alloc: Global, local: &'static str, base: &str, path: &str) -> Result<Made, NoMemory>
    requires name { IsNoColonName local.now }
    requires base { IsText base.now }
    requires path { IsText path.now }
    ensures { IfOk result (λ made. made ≡ endpoint local.now (base.now ++ path.now) []) }
{
    let mut location = String::from_str(alloc, base)?;
    location.push_str(path)?;
    let mut made = Made::new(alloc, Ns::Md, local);
    made.attr("Binding", POST)?;
    made.attr("Location", location.as_str())?;
    Ok(made)
}

/// The endpoint for sign-on.
fn sign_on_endpoint(alloc: Global, role: Role, base: &str) -> Result<Made, NoMemory>
    requires { IsText base.now }
    ensures { IfOk result (λ made. made ≡ sign_on_endpoint role base.now) }
{
    match role {
        Role::Idp => endpoint(alloc, "SingleSignOnService", base, "/sso"),
        Role::Sp => {
            let mut made = endpoint(alloc, "AssertionConsumerService", base, "/acs")?;
            made.attr("index", "0")?;
            Ok(made)
        }
    }
}

/// The descriptor of a role with the endpoint for sign-on.
fn plain_descriptor(alloc: Global, role: Role, base: &str) -> Result<Made, NoMemory>
    requires { IsText base.now }
    ensures { IfOk result (λ made. made ≡ role_descriptor role (alone (sign_on_endpoint role base.now))) }
{
    let mut made = Made::new(alloc, Ns::Md, role.descriptor());
    made.attr("protocolSupportEnumeration", SAMLP)?;
    made.child(sign_on_endpoint(alloc, role, base)?)?;
    Ok(made)
}

/// The descriptor of a role with the endpoints for logout and for sign-on.
fn full_descriptor(alloc: Global, role: Role, base: &str) -> Result<Made, NoMemory>
    requires { IsText base.now }
    ensures { IfOk result (λ made. made ≡ role_descriptor role (joined (alone (logout_endpoint base.now)) (alone (sign_on_endpoint role base.now)))) }
{
    let mut made = Made::new(alloc, Ns::Md, role.descriptor());
    made.attr("protocolSupportEnumeration", SAMLP)?;
    made.child(endpoint(alloc, "SingleLogoutService", base, "/slo")?)?;
    made.child(sign_on_endpoint(alloc, role, base)?)?;
    Ok(made)
}

/// EntityDescriptor with this descriptor.
fn entity_descriptor(alloc: Global, entity: &str, described: Made) -> Result<Made, NoMemory>
    requires { IsText entity.now }
    ensures { IfOk result (λ made. made ≡ entity_descriptor entity.now described) }
{
    let mut made = Made::new(alloc, Ns::Md, "EntityDescriptor");
    made.attr("entityID", entity)?;
    made.child(described)?;
    Ok(made)
}

/// The metadata of a provider in this role, whose addresses stand below `base`: `/sso` or `/acs`, and `/slo`.
///
/// # Errors
///
/// `NoMemory` alone.
pub fn put_metadata(alloc: Global, role: Role, entity: &str, base: &str) -> Result<Blob, NoMemory>
    requires entity { IsText entity.now }
    requires base { IsText base.now }
    ensures { IfOk result (λ bytes. bytes ≡ written (metadata role entity.now base.now)) }
{
    let described = full_descriptor(alloc, role, base)?;
    let made = entity_descriptor(alloc, entity, described)?;
    made.written(alloc)
}

/// The same without an address for logout.
///
/// # Errors
///
/// `NoMemory` alone.
pub fn put_plain_metadata(
    alloc: Global,
    role: Role,
    entity: &str,
    base: &str,
) -> Result<Blob, NoMemory>
    requires entity { IsText entity.now }
    requires base { IsText base.now }
    ensures { IfOk result (λ bytes. bytes ≡ written (plain role entity.now base.now)) }
{
    let described = plain_descriptor(alloc, role, base)?;
    let made = entity_descriptor(alloc, entity, described)?;
    made.written(alloc)
}
