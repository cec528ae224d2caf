// How a run ends.

/// How a run of the program ends. The number of each is its exit status.
#[derive(Clone, Copy, Debug, PartialEq, Eq)]
pub enum Status {
    /// The command came to its end.
    Done,
    /// The document was refused: `refused NUMBER NAME` was printed.
    Refused,
    /// The words are none of the forms: `usage` was printed.
    Usage,
    /// A named file is absent, too long or outside its grammar: `bad FILE LINE` was printed.
    BadInput,
    /// A file could not be read.
    ReadFault,
    /// The output could not be written.
    WriteFault,
    /// The disk failed while the journal was opened.
    DiskFault,
    /// The link failed.
    LinkFault,
    /// Memory ran out.
    NoMemory,
    /// The journal is not one of this role.
    ForeignJournal,
}
