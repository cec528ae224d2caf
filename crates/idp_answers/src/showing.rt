//! The pages that need no message.
ghost use Rattle.std.specs.Prelude.{◌≡◌, IfOk};
ghost use Rattle.xml_spec.specs.Characters.{IsText};
ghost use Rattle.idp_answers.specs.Answers as spec;

use crate::sending::page_answer;
use metadata::{Role, put_metadata, put_plain_metadata};
use owned_values::{Blob, NoMemory};
use post_binding::login_page;
use std::alloc::Global;

/// The answer with the page where a user logs in, for the pending login of this ID.
///
/// # Errors
///
/// `NoMemory` alone.
pub fn login_answer(alloc: Global, pending: &str) -> Result<Blob, NoMemory>
    ensures { IfOk result (λ bytes. bytes ≡ spec.login_answer pending.now) }
{
    let page = login_page(alloc, pending)?;
    page_answer(alloc, page.as_slice(), None)
}

/// The answer that shows the metadata of the provider with this name, whose addresses begin with `base` (SAML Metadata,
/// 2.4.3).
///
/// # Errors
///
/// `NoMemory` alone.
pub fn metadata_answer(alloc: Global, entity: &str, base: &str) -> Result<Blob, NoMemory>
    requires entity { IsText entity.now }
    requires base { IsText base.now }
    ensures { IfOk result (λ bytes. bytes ≡ spec.metadata_answer entity.now base.now) }
{
    let bytes = put_metadata(alloc, Role::Idp, entity, base)?;
    page_answer(alloc, bytes.as_slice(), None)
}

/// The answer that shows the metadata in this role of a provider without logout, with this name, whose addresses begin with `base`
/// (SAML Metadata, 2.4.3 and 2.4.4).
///
/// # Errors
///
/// `NoMemory` alone.
pub fn plain_metadata_answer(
    alloc: Global,
    role: Role,
    entity: &str,
    base: &str,
) -> Result<Blob, NoMemory>
    requires entity { IsText entity.now }
    requires base { IsText base.now }
    ensures { IfOk result (λ bytes. bytes ≡ spec.plain_metadata_answer role entity.now base.now) }
{
    let bytes = put_plain_metadata(alloc, role, entity, base)?;
    page_answer(alloc, bytes.as_slice(), None)
}
