//! Laws of the definitions that the contracts cite. Each function does nothing: what it ensures is the law.
ghost use Rattle.std.specs.Prelude.{◌≡◌, ◌≢◌, ◌^◌, ◌-◌, ◌<◌, ◌↔◌, ◌⊎◌, ◌∷◌, ◌++◌, ℕ, List, Option, []};
ghost use Rattle.saml_outside.specs.Counts.{Rose};
ghost use Rattle.saml_outside.specs.Files.{File, Reads, answer_of, bytes_of};
ghost use Rattle.saml_outside.specs.Sinks.{then_bytes};
ghost use Rattle.saml_outside.specs.declared.reading.FileRead.{FileRead};

/// A count rose where it is greater than before or stands at its end, and nowhere else.
pub fn a_count_rose_where_it_is_greater_or_at_its_end()
    ensures { (before now : ℕ) → before < 2 ^ 64 → now < 2 ^ 64 → Rose before now ↔ ((before < now) ⊎ (now ≡ 2 ^ 64 - 1)) }
{}

/// Where an object tells its files, the content alone decides what reading one answers, but for a failure and for want
/// of memory.
pub fn the_content_decides_the_answer()
    ensures { (files : List File) (name into : List ℕ) (limit : ℕ) (answer : FileRead) →
        Reads (Some files) name limit answer into → answer ≢ FileRead.Failed → answer ≢ FileRead.NoMemory →
        (answer, into) ≡ answer_of (bytes_of files name) limit }
{}

/// The file in front hides those of its name, and no others.
pub fn the_first_file_of_a_name_counts()
    ensures hides { (f : File) (fs : List File) → bytes_of (f ∷ fs) f.name ≡ Some f.bytes }
    ensures others { (f : File) (fs : List File) (name : List ℕ) → f.name ≢ name → bytes_of (f ∷ fs) name ≡ bytes_of fs name }
{}

/// Two pieces that were taken are as one.
pub fn pieces_add_up()
    ensures two { (taken : Option (List ℕ)) (a b : List ℕ) → then_bytes (then_bytes taken a) b ≡ then_bytes taken (a ++ b) }
    ensures none { (taken : Option (List ℕ)) → then_bytes taken [] ≡ taken }
{}
