//! The page of a user whom a rule denies.
ghost use Rattle.std.specs.Prelude.{◌≡◌, IfOk};
ghost use Rattle.access_policy.specs.Denied as spec;

use owned_values::{Blob, NoMemory};
use post_binding::Page;
use std::alloc::Global;

/// A page that names the rule that denied it, or `default`.
pub fn denied_page(alloc: Global, rule: &str) -> Result<Blob, NoMemory>
    ensures { IfOk result (λ page. page ≡ spec.denied_page rule.now) }
{
    let mut page = Page::new(alloc)?;
    page.markup("<p>Denied by ")?;
    page.text(rule)?;
    page.markup("</p>")?;
    page.finish()
}
