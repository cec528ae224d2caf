// What `canon` answers for the bytes of a file.

ghost use Rattle.std.specs.Prelude.{◌≡◌, ◌≢◌, ◌≤◌, [], false, length, IfSome};
ghost use Rattle.std.specs.Option.{option_map};
ghost use Rattle.saml_tree.specs.Elements.{IsElement};
ghost use Rattle.saml_outside.specs.Counts.{Rose};
ghost use Rattle.saml_commands.specs.Canon.{OfCanon};
ghost use Rattle.saml_commands.specs.Documents.{OfDocument, OfElement, element_of};
ghost use Rattle.saml_commands.specs.Running.{EndsWith, IsVerdictOf};
ghost use Rattle.xml_spec.specs.declared.TheConstants.{MAX_DOCUMENT_LENGTH};

use crate::answer::Answer;
use crate::printing::SinkOctets;
use crate::status::Status;
use excl_c14n::canon_into;
use fault_verdicts::of_document;
use saml_outside::{NoMemory, Sink, Texts, Verdict};
use saml_tree::{Doc, NodeNo, read_document};
use std::alloc::Global;

/// The element that is asked for: the root, or the one with this ID.
pub(crate) fn element_of(doc: &Doc<'_>, id: Option<&str>) -> Option<NodeNo>
    ensures number { option_map (λ node. node.0) result ≡ element_of doc.now.tree (option_map (λ text. text.now) id.entry) }
    ensures element { IfSome result (λ node. IsElement doc.now.tree node.0) }
{
    match id {
        None => Some(doc.root()),
        Some(id) => doc.by_id(id),
    }
}

/// Prints a refusal, where there is a verdict; else memory ran out.
fn refuse<K: Sink>(alloc: Global, verdict: Option<Verdict>, out: &mut K) -> Status
    ensures ends { EndsWith (IsVerdictOf verdict) (K.taken out.old) (K.taken out.new) result }
    ensures no_read_fault { result ≢ Status.ReadFault }
    ensures write_fault { result ≡ Status.WriteFault → Rose (K.faults_of out.old) (K.faults_of out.new) }
    ensures never_falls { K.faults_of out.old ≤ K.faults_of out.new }
{
    match verdict {
        Some(verdict) => Answer::Refused(verdict).print(alloc, out),
        None => Status::NoMemory,
    }
}

/// Puts the canonical form of an element into a sink.
fn put_whole<K: Sink>(
    alloc: Global,
    doc: &Doc<'_>,
    node: NodeNo,
    place: &mut SinkOctets<'_, K>,
) -> Status
    requires element { IsElement doc.now.tree node.0 }
    requires none { place.old.kept.now.items ≡ [] }
    requires whole { place.old.failed ≡ false }
    ensures same_reference { place.new.out.ghost_name ≡ place.old.out.ghost_name }
    ensures ends { EndsWith (OfCanon doc.now.tree node.0) (K.taken place.old.out.now) (K.taken place.new.out.now) result }
    ensures no_read_fault { result ≢ Status.ReadFault }
    ensures write_fault { result ≡ Status.WriteFault → Rose (K.faults_of place.old.out.now) (K.faults_of place.new.out.now) }
    ensures never_falls { K.faults_of place.old.out.now ≤ K.faults_of place.new.out.now }
{
    let none = Texts::new(alloc);
    match canon_into(alloc, doc, node, None, &none, place) {
        Ok(()) => match place.flush() {
            Ok(()) => Status::Done,
            Err(NoMemory) => Status::WriteFault,
        },
        Err(NoMemory) if place.failed => Status::WriteFault,
        Err(NoMemory) => Status::NoMemory,
    }
}

/// Prints the canonical form of an element, piece by piece. Where memory runs out, a part of it may have been printed.
fn put_form<K: Sink>(alloc: Global, doc: &Doc<'_>, node: NodeNo, out: &mut K) -> Status
    requires { IsElement doc.now.tree node.0 }
    ensures ends { EndsWith (OfCanon doc.now.tree node.0) (K.taken out.old) (K.taken out.new) result }
    ensures no_read_fault { result ≢ Status.ReadFault }
    ensures write_fault { result ≡ Status.WriteFault → Rose (K.faults_of out.old) (K.faults_of out.new) }
    ensures never_falls { K.faults_of out.old ≤ K.faults_of out.new }
{
    let mut room = Vec::new(alloc);
    let mut place = SinkOctets::new(out, &mut room);
    put_whole(alloc, doc, node, &mut place)
}

/// What `canon` prints of a document.
fn canon_document<K: Sink>(alloc: Global, doc: &Doc<'_>, id: Option<&str>, out: &mut K) -> Status
    ensures ends { EndsWith (OfElement OfCanon (option_map (λ text. text.now) id.entry) doc.now.tree) (K.taken out.old) (K.taken out.new) result }
    ensures no_read_fault { result ≢ Status.ReadFault }
    ensures write_fault { result ≡ Status.WriteFault → Rose (K.faults_of out.old) (K.faults_of out.new) }
    ensures never_falls { K.faults_of out.old ≤ K.faults_of out.new }
{
    match element_of(doc, id) {
        Some(node) => put_form(alloc, doc, node, out),
        None => Answer::Refused(Verdict::BadReference).print(alloc, out),
    }
}

/// What `canon` prints for the bytes of a file, where it asks for the element with this ID, or the root.
pub(crate) fn canon<K: Sink>(alloc: Global, bytes: &[u8], id: Option<&str>, out: &mut K) -> Status
    requires { length bytes.now ≤ MAX_DOCUMENT_LENGTH }
    ensures ends { EndsWith (OfDocument OfCanon (option_map (λ text. text.now) id.entry) bytes.now) (K.taken out.old) (K.taken out.new) result }
    ensures no_read_fault { result ≢ Status.ReadFault }
    ensures write_fault { result ≡ Status.WriteFault → Rose (K.faults_of out.old) (K.faults_of out.new) }
    ensures never_falls { K.faults_of out.old ≤ K.faults_of out.new }
{
    match read_document(alloc, bytes) {
        Ok(doc) => canon_document(alloc, &doc, id, out),
        Err(fault) => refuse(alloc, of_document(fault), out),
    }
}
