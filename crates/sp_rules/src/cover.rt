// Which signatures cover an Assertion (SAML Profiles, 4.1.4.5; SAML Core, 5.4).

ghost use Rattle.std.specs.Prelude.{◌≡◌, ◌≤◌, ◌++◌, codes, [], ◌∷◌, true, IfOk, IfErr, IfSome};
ghost use Rattle.saml_names.specs.Names.{saml};
ghost use Rattle.tree_read.specs.Children.{children};
ghost use Rattle.tree_read.specs.Views.{tree_of};
ghost use Rattle.sp_rules.specs.Keys.{usable};
ghost use Rattle.sp_rules.specs.Covering.{is_signed, IsUnverified, IsUncovered};
ghost use Rattle.sp_rules.specs.Views.{first_of, second_of, keys_of, IsVerifiedWith, IsCoverOf};

use crate::config::{FIRST, SECOND, SpConfig};
use crate::keys::UsableKeys;
use saml_names::ds;
use saml_tree::NodeNo;
use sig_reference::{SigFault, Vouched, verify, within};
use std::alloc::Global;
use tree_read::{At, ElementChildren};

/// An element that a signature vouches for, and the number of the key that made its tag.
#[derive(Drop)]
struct Verified<'d, 'a> {
    vouched: Vouched<'d, 'a>,
    key: u8,
}

/// An Assertion that is covered.
#[derive(Drop)]
pub(crate) struct Cover<'d, 'a> {
    /// The Assertion.
    pub assertion: Vouched<'d, 'a>,
    /// The first signed element: the Response, or the Assertion.
    pub first: NodeNo,
    /// Its Signature.
    pub signature: NodeNo,
    /// The number of the key that made its tag.
    pub key: u8,
}

/// Verifies an element under a key of this number.
fn verify_under<'d, 'a>(
    alloc: Global,
    at: At<'d, 'a>,
    key: &[u8],
    number: u8,
) -> Result<Verified<'d, 'a>, SigFault>
    ensures ok { IfOk result (IsVerifiedWith (record { number = number; bytes = key.now } ∷ []) at.entry.doc.now at.entry.node.0) }
    ensures err { IfErr result (IsUnverified (record { number = number; bytes = key.now } ∷ []) (tree_of at.entry) at.entry.node.0) }
{
    assertion_model::laws::the_signature_left_out_vouches();
    let vouched = verify(alloc, at.doc, at.node, key)?;
    Ok(Verified {
        vouched,
        key: number,
    })
}

/// Verifies an element under the first of the keys that makes its tag.
fn verify_by<'d, 'a>(
    alloc: Global,
    at: At<'d, 'a>,
    keys: &UsableKeys<'_>,
) -> Result<Verified<'d, 'a>, SigFault>
    ensures ok { IfOk result (IsVerifiedWith (keys_of keys.now) at.entry.doc.now at.entry.node.0) }
    ensures err { IfErr result (IsUnverified (keys_of keys.now) (tree_of at.entry) at.entry.node.0) }
{
    match keys {
        UsableKeys::First(first) => verify_under(alloc, at, first, FIRST),
        UsableKeys::Second(second) => verify_under(alloc, at, second, SECOND),
        UsableKeys::Both(first, second) => verify_by_both(alloc, at, first, second),
    }
}

/// Verifies an element under the first key, and under the second where the first does not make its tag.
fn verify_by_both<'d, 'a>(
    alloc: Global,
    at: At<'d, 'a>,
    first: &[u8],
    second: &[u8],
) -> Result<Verified<'d, 'a>, SigFault>
    ensures ok { IfOk result (IsVerifiedWith (first_of first.now ++ second_of second.now) at.entry.doc.now at.entry.node.0) }
    ensures err { IfErr result (IsUnverified (first_of first.now ++ second_of second.now) (tree_of at.entry) at.entry.node.0) }
{
    match verify_under(alloc, at, first, FIRST) {
        Ok(verified) => Ok(verified),
        Err(SigFault::TagDiffers) => verify_under(alloc, at, second, SECOND),
        Err(fault) => Err(fault),
    }
}

/// Whether an element has a Signature.
fn is_signed(at: At<'_, '_>) -> bool
    ensures { result ≡ is_signed (tree_of at.entry) at.entry.node.0 }
{
    let left = ElementChildren::of(at);
    !left.has_no(ds("Signature"))
}

/// The cover of an Assertion in a Response that is signed.
fn cover_of_response<'d, 'a>(
    alloc: Global,
    root: At<'d, 'a>,
    assertion: At<'d, 'a>,
    keys: &UsableKeys<'_>,
) -> Result<Cover<'d, 'a>, SigFault>
    requires document { assertion.doc.now ≡ root.doc.now }
    requires top { root.node.0 ≡ 0 }
    requires child { children (tree_of root) 0 (saml (codes "Assertion")) ≡ assertion.node.0 ∷ [] }
    requires signed { is_signed (tree_of root) 0 ≡ true }
    ensures ok { IfOk result (IsCoverOf (keys_of keys.now) root.entry.doc.now assertion.entry.node.0) }
    ensures err { IfErr result (IsUncovered (keys_of keys.now) (tree_of root.entry) assertion.entry.node.0) }
{
    let response = verify_by(alloc, root, keys)?;
    if is_signed(assertion) {
        verify_by(alloc, assertion, keys)?;
    }
    Ok(Cover {
        first: root.node,
        signature: response.vouched.signature(),
        key: response.key,
        assertion: within(&response.vouched, assertion.node),
    })
}

/// The cover of the one Assertion of a Response, which is the root.
///
/// # Errors
///
/// `BadSignatureForm` where neither is signed; else the first fault of the Signature of the Response or, behind it, of that of
/// the Assertion.
pub(crate) fn cover_of<'d, 'a>(
    alloc: Global,
    config: &SpConfig,
    now: u64,
    root: At<'d, 'a>,
    assertion: At<'d, 'a>,
) -> Result<Cover<'d, 'a>, SigFault>
    requires times { IfSome config.now.next_in (λ next. next.from ≤ next.until) }
    requires document { assertion.doc.now ≡ root.doc.now }
    requires top { root.node.0 ≡ 0 }
    requires child { children (tree_of root) 0 (saml (codes "Assertion")) ≡ assertion.node.0 ∷ [] }
    ensures ok { IfOk result (IsCoverOf (usable config.now now) root.entry.doc.now assertion.entry.node.0) }
    ensures err { IfErr result (IsUncovered (usable config.now now) (tree_of root.entry) assertion.entry.node.0) }
{
    let keys = config.usable_keys(now);
    if is_signed(root) {
        return cover_of_response(alloc, root, assertion, &keys);
    }
    if !is_signed(assertion) {
        return Err(SigFault::BadSignatureForm);
    }
    let verified = verify_by(alloc, assertion, &keys)?;
    Ok(Cover {
        first: assertion.node,
        signature: verified.vouched.signature(),
        key: verified.key,
        assertion: verified.vouched,
    })
}
