// How long a form may be that a signature is checked over.

/// The greatest length of a canonical form that a signature is checked over, in bytes: eight times that of a document
/// (profile). Declarations that are written anew at each element can make a form many times as long as its document.
pub const MAX_CHECKED_FORM_LENGTH: usize = 2_097_152;
