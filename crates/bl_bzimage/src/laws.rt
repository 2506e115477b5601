//! Laws of the definitions: a file has one setup or one first fault.
ghost use Rattle.std.specs.Prelude.{◌≡◌, ◌⊎◌, ℕ, List, Some};
ghost use Rattle.bl_bzimage.specs.declared.setup.Setup.{Setup};
ghost use Rattle.bl_bzimage.specs.declared.fault.SetupFault.{SetupFault};
ghost use Rattle.bl_bzimage.specs.Setup.{IsSetup, setup_fault};

/// A file has one setup or one first fault, and never both.
pub fn setup_is_determined()
    ensures one_reading { (bytes : List ℕ) (s t : Setup)
        → IsSetup bytes s → IsSetup bytes t → s ≡ t }
    ensures not_both { (bytes : List ℕ) (setup : Setup) (fault : SetupFault)
        → IsSetup bytes setup
        → setup_fault bytes ≡ Some fault → ⊥ }
    ensures either { (bytes : List ℕ) → ((setup : Setup) × IsSetup bytes setup)
        ⊎ ((fault : SetupFault) × (setup_fault bytes ≡ Some fault)) }
{}
