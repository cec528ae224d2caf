//! Tags as they are written: Canonical XML 1.0, 2.3.
ghost use Rattle.std.specs.Prelude.{◌≡◌, ℕ, ◌∷◌, ◌++◌, List, [], codes, IfSome, OnOk, OnErr, IsTrue};
ghost use Rattle.xml_spec.specs.Ascii.{less_than, quotation_mark, space_character};
ghost use Rattle.xml_spec.specs.Canonical.{declaration_name, escape_value, print_attribute, print_binding, print_end, print_instruction};
ghost use Rattle.canon_octets.specs.Places.{AppendsPart};
ghost use Rattle.canon_octets.specs.Names.{joined_name};

use crate::escape::escape_value;
use crate::octets::Octets;
use arrayvec::ArrayVec;
use owned_values::NoMemory;

/// Short pieces are put together up to so many bytes: to put a piece costs as much as some hundred bytes of one.
const SHORT: usize = 64;

/// A name as it is written, in two parts (Namespaces in XML 1.0, 4).
#[derive(Clone, Copy, Debug)]
pub struct QualifiedName<'d> {
    /// What stands before the colon; empty where there is none, or where the name is held in one piece.
    pub prefix: &'d str,
    /// What stands behind the colon, or the whole name.
    pub local: &'d str,
}

impl<'d> QualifiedName<'d> {
    /// The name that is written so, in one piece.
    pub fn written(name: &'d str) -> QualifiedName<'d>
        ensures { joined_name result.prefix.now result.local.now ≡ name.now }
    {
        QualifiedName {
            prefix: "",
            local: name,
        }
    }
}

/// A name that is held in one piece.
fn in_one_piece<'d>(name: QualifiedName<'d>) -> Option<&'d [u8]>
    ensures { IfSome result (λ bytes. bytes.now ≡ joined_name name.entry.prefix.now name.entry.local.now) }
{
    if name.prefix.is_empty() {
        Some(name.local.as_bytes())
    } else {
        None
    }
}

/// Pieces one behind the other, where they are short.
#[inline(always)]
fn together(first: &[u8], second: &[u8], third: &[u8]) -> Option<ArrayVec<u8, SHORT>>
    ensures { IfSome result (λ piece. piece.items ≡ first.now ++ (second.now ++ third.now)) }
{
    let mut piece = ArrayVec::new();
    piece.try_extend_from_slice(first).ok()?;
    piece.try_extend_from_slice(second).ok()?;
    piece.try_extend_from_slice(third).ok()?;
    Some(piece)
}

/// What stands between an instruction's target and its value.
fn space_before(value: &str) -> &'static [u8]
    ensures { (target : List ℕ) → codes "<?" ++ (target ++ (result.now ++ (value.now ++ codes "?>"))) ≡ print_instruction target value.now }
{
    if value.is_empty() { b"" } else { b" " }
}

/// Appends two pieces.
fn put_two<O: Octets>(first: &[u8], second: &[u8], out: &mut O) -> Result<(), NoMemory>
    ensures ok { OnOk result (O.appends out.old out.new (first.now ++ second.now)) }
    ensures err { OnErr result (AppendsPart O.appends out.old out.new (first.now ++ second.now)) }
    ensures refusing { OnErr result (IsTrue O.may_refuse) }
{
    if let Some(piece) = together(first, second, b"") {
        return out.put(piece.as_slice());
    }
    out.put(first)?;
    out.put(second)
}

/// Appends three pieces.
fn put_three<O: Octets>(
    first: &[u8],
    second: &[u8],
    third: &[u8],
    out: &mut O,
) -> Result<(), NoMemory>
    ensures ok { OnOk result (O.appends out.old out.new (first.now ++ (second.now ++ third.now))) }
    ensures err { OnErr result (AppendsPart O.appends out.old out.new (first.now ++ (second.now ++ third.now))) }
    ensures refusing { OnErr result (IsTrue O.may_refuse) }
{
    if let Some(piece) = together(first, second, third) {
        return out.put(piece.as_slice());
    }
    out.put(first)?;
    put_two(second, third, out)
}

/// Appends a name as it is written.
fn put_name<O: Octets>(name: QualifiedName<'_>, out: &mut O) -> Result<(), NoMemory>
    ensures ok { OnOk result (O.appends out.old out.new (joined_name name.entry.prefix.now name.entry.local.now)) }
    ensures err { OnErr result (AppendsPart O.appends out.old out.new (joined_name name.entry.prefix.now name.entry.local.now)) }
    ensures refusing { OnErr result (IsTrue O.may_refuse) }
{
    if name.prefix.is_empty() {
        return out.put(name.local.as_bytes());
    }
    put_three(name.prefix.as_bytes(), b":", name.local.as_bytes(), out)
}

/// Appends a value and the quotation mark behind it.
fn put_value<O: Octets>(value: &str, out: &mut O) -> Result<(), NoMemory>
    ensures ok { OnOk result (O.appends out.old out.new (escape_value value.now ++ quotation_mark ∷ [])) }
    ensures err { OnErr result (AppendsPart O.appends out.old out.new (escape_value value.now ++ quotation_mark ∷ [])) }
    ensures refusing { OnErr result (IsTrue O.may_refuse) }
{
    escape_value(value, out)?;
    out.put(b"\"")
}

/// Appends a value in quotation marks, behind an equals sign.
fn put_quoted<O: Octets>(value: &str, out: &mut O) -> Result<(), NoMemory>
    ensures ok { OnOk result (O.appends out.old out.new (codes "=\"" ++ (escape_value value.now ++ quotation_mark ∷ []))) }
    ensures err { OnErr result (AppendsPart O.appends out.old out.new (codes "=\"" ++ (escape_value value.now ++ quotation_mark ∷ []))) }
    ensures refusing { OnErr result (IsTrue O.may_refuse) }
{
    out.put(b"=\"")?;
    put_value(value, out)
}

/// Appends the beginning of a start tag: `<` and the name. The declarations, the attributes and `>` are to follow.
///
/// # Errors
///
/// `NoMemory`, where the place refuses a piece, here and below: a part from the first byte on may have been appended.
pub fn put_start<O: Octets>(name: QualifiedName<'_>, out: &mut O) -> Result<(), NoMemory>
    ensures ok { OnOk result (O.appends out.old out.new (less_than ∷ joined_name name.entry.prefix.now name.entry.local.now)) }
    ensures err { OnErr result (AppendsPart O.appends out.old out.new (less_than ∷ joined_name name.entry.prefix.now name.entry.local.now)) }
    ensures refusing { OnErr result (IsTrue O.may_refuse) }
{
    if let Some(written) = in_one_piece(name) {
        return put_two(b"<", written, out);
    }
    out.put(b"<")?;
    put_name(name, out)
}

/// Appends an end tag.
pub fn put_end<O: Octets>(name: QualifiedName<'_>, out: &mut O) -> Result<(), NoMemory>
    ensures ok { OnOk result (O.appends out.old out.new (print_end (joined_name name.entry.prefix.now name.entry.local.now))) }
    ensures err { OnErr result (AppendsPart O.appends out.old out.new (print_end (joined_name name.entry.prefix.now name.entry.local.now))) }
    ensures refusing { OnErr result (IsTrue O.may_refuse) }
{
    if let Some(written) = in_one_piece(name) {
        return put_three(b"</", written, b">", out);
    }
    out.put(b"</")?;
    put_name(name, out)?;
    out.put(b">")
}

/// Appends an attribute: a space, its name, and its value in quotation marks.
pub fn put_attribute<O: Octets>(
    name: QualifiedName<'_>,
    value: &str,
    out: &mut O,
) -> Result<(), NoMemory>
    ensures ok { OnOk result (O.appends out.old out.new (print_attribute (joined_name name.entry.prefix.now name.entry.local.now) value.now)) }
    ensures err { OnErr result (AppendsPart O.appends out.old out.new
        (print_attribute (joined_name name.entry.prefix.now name.entry.local.now) value.now)) }
    ensures refusing { OnErr result (IsTrue O.may_refuse) }
{
    if let Some(written) = in_one_piece(name) {
        put_three(b" ", written, b"=\"", out)?;
        return put_value(value, out);
    }
    out.put(b" ")?;
    put_name(name, out)?;
    put_quoted(value, out)
}

/// Appends what a declaration begins with: a space, and xmlns with the prefix that is declared.
fn put_declared<O: Octets>(prefix: &str, out: &mut O) -> Result<(), NoMemory>
    ensures ok { OnOk result (O.appends out.old out.new (space_character ∷ declaration_name prefix.now)) }
    ensures err { OnErr result (AppendsPart O.appends out.old out.new (space_character ∷ declaration_name prefix.now)) }
    ensures refusing { OnErr result (IsTrue O.may_refuse) }
{
    if prefix.is_empty() {
        return out.put(b" xmlns");
    }
    put_two(b" xmlns:", prefix.as_bytes(), out)
}

/// Appends the declaration of a prefix, or of the default namespace where it is empty.
pub fn put_declaration<O: Octets>(
    prefix: &str,
    namespace: &str,
    out: &mut O,
) -> Result<(), NoMemory>
    ensures ok { OnOk result (O.appends out.old out.new (print_binding (record { prefix = prefix.now; namespace = namespace.now }))) }
    ensures err { OnErr result (AppendsPart O.appends out.old out.new
        (print_binding (record { prefix = prefix.now; namespace = namespace.now }))) }
    ensures refusing { OnErr result (IsTrue O.may_refuse) }
{
    put_declared(prefix, out)?;
    put_quoted(namespace, out)
}

/// Appends an instruction.
pub fn put_instruction<O: Octets>(target: &str, value: &str, out: &mut O) -> Result<(), NoMemory>
    ensures ok { OnOk result (O.appends out.old out.new (print_instruction target.now value.now)) }
    ensures err { OnErr result (AppendsPart O.appends out.old out.new (print_instruction target.now value.now)) }
    ensures refusing { OnErr result (IsTrue O.may_refuse) }
{
    let space = space_before(value);
    put_three(b"<?", target.as_bytes(), space, out)?;
    put_two(value.as_bytes(), b"?>", out)
}
