//! Laws of the definitions: writing and reading are one another's inverse.
ghost use Rattle.std.specs.Prelude.{◌≡◌, ◌^◌, ◌<◌, ℕ, List, Ok, length};
ghost use Rattle.bl_mbi.specs.InfoToWriteFacts.{InfoToWriteFacts, IsText, FitsInfoFields, AreBytes};
ghost use Rattle.bl_mbi.specs.InfoFacts.{InfoFacts, IsSpelling};
ghost use Rattle.bl_mbi.specs.Spelling.{info_spelling};
ghost use Rattle.bl_mbi.specs.Reading.{info_of};

/// A spelling is read again.
pub fn spelled_is_read()
    ensures { (name : List ℕ) (facts : InfoToWriteFacts) → IsText name → FitsInfoFields facts
        → length (info_spelling name facts) < 2 ^ 32
        → info_of (info_spelling name facts) ≡ Ok record { name = name; facts = facts } }
{}

/// Bytes that are read are a spelling of what they are read as.
pub fn read_is_spelled()
    ensures { (bytes : List ℕ) (info : InfoFacts) → AreBytes bytes → info_of bytes ≡ Ok info
        → IsSpelling bytes info }
{}
