//! Documents: the tree that bytes spell (XML 1.0, fifth edition; Namespaces in XML 1.0), addressed by node numbers.
//!
//! ```text
//! let doc = read_document(alloc, b"<a ID='x'>1<b/></a>")?;
//! let root = doc.root();                      // NodeNo(0)
//! let text = doc.first_kid(root);             // Some(NodeNo(1)), a text
//! doc.by_id("x")                              // Some(NodeNo(0))
//! doc.bytes_of(root)                          // the bytes from its first '<' to behind its last '>'
//! ```
//!
//! Contracts see a [`Doc`] as its text and the tree that the text spells (`specs/Documents.antt`). Node n is the n-th node
//! of the tree in document order, and each call says what it answers of the tree and the number.
//!
//! A text is read to its end before it is refused: `BadXml` says that it spells no tree, `XmlLimit` that its tree goes beyond
//! the limits, `BadNames` that a name breaks a rule of namespaces, `DuplicateId` that two elements have one ID. The first of
//! these that holds is given. `NoMemory` may come in place of any other answer, and says nothing of the text.
//!
//! # What is proved
//!
//! `read_document`: the tree that the bytes spell, under the limits, named and single; BadXml exactly where they spell
//! none, then XmlLimit, BadNames and DuplicateId, each exactly and the first that holds of the whole text. Every call
//! on `Doc` is exact on the tree and the node's number (`root` to `by_id`, `put_text`, `put_attr`); `span` is the
//! element's range in the very bytes that were read, and `bytes_of` gives those bytes for as long as they live;
//! `namespace_at`, `same_namespace` and `namespace_order` are exact, and `written_name` and `written_attr_name` show
//! names as they are written.
#![tactic(auto)]

mod beyond;
mod build;
mod doc;
mod ids;
mod limits;
mod names;
mod node;
mod open_names;
mod outline;
mod read;

pub use doc::Doc;
pub use node::{Name, NameAt, NodeKind, NodeNo, TreeFault};
pub use read::read_document;
