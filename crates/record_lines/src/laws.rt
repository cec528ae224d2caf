//! Laws of the definitions that the contracts cite. Each function does nothing: what it ensures is the law.
ghost use Rattle.std.specs.Prelude.{◌≡◌, ◌<◌, ℕ, List, All};
ghost use Rattle.ledger_records.specs.declared.sp_record.SpRecord.{SpRecord};
ghost use Rattle.ledger_records.specs.declared.idp_record.IdpRecord.{IdpRecord};
ghost use Rattle.ledger_records.specs.declared.hub_record.HubRecord.{HubRecord};
ghost use Rattle.record_lines.specs.Laws.{IsOneLine};
ghost use Rattle.record_lines.specs.Lines.{text_piece, sp_line, idp_line};
ghost use Rattle.record_lines.specs.HubLines.{hub_line};
ghost use Rattle.record_lines.specs.Secrets.{sp_without_secrets, idp_without_secrets, hub_without_secrets};

/// Whatever a record holds, its line is one line, in which each space begins a piece: no byte of a record ends a line, begins
/// a piece or stands for a second record.
pub fn a_record_is_one_line()
    ensures sp { (r : SpRecord) → IsOneLine (sp_line r) }
    ensures idp { (r : IdpRecord) → IsOneLine (idp_line r) }
    ensures hub { (r : HubRecord) → IsOneLine (hub_line r) }
{}

/// A text that is printed whole is told by its piece: behind one name two texts are printed alike only where they are the same.
pub fn a_text_is_told_by_its_piece()
    ensures { (name one other : List ℕ) → All (λ b. b < 256) one → All (λ b. b < 256) other → text_piece name one ≡ text_piece name other → one ≡ other }
{}

/// A line tells no secret: it is that of the record without all that stands in a secret behind its number, and without relay
/// states.
pub fn a_line_tells_no_secret()
    ensures sp { (r : SpRecord) → sp_line (sp_without_secrets r) ≡ sp_line r }
    ensures idp { (r : IdpRecord) → idp_line (idp_without_secrets r) ≡ idp_line r }
    ensures hub { (r : HubRecord) → hub_line (hub_without_secrets r) ≡ hub_line r }
{}
