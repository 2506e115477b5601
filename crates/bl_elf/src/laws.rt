//! Laws of the definitions: a file has one reading or one first fault; what an overlap is.
ghost use Rattle.std.specs.Prelude.{◌≡◌, ◌⊎◌, ℕ, List};
ghost use Rattle.bl_elf.specs.declared.fault.ElfFault.{ElfFault};
ghost use Rattle.bl_elf.specs.declared.fault.ElfFault.TheVariants.{SegmentsOverlap, NoMemory};
ghost use Rattle.bl_elf.specs.ProgramHeaders.{program_header, segment_by_header};
ghost use Rattle.bl_elf.specs.Elf.{ElfFacts, IsElf, HasFirstElfFault, IsAddressOf};

/// A file has exactly one of these: one reading as an executable, or one first fault. Want of
/// memory is no fault of the file. This holds for every list of numbers, be they bytes or not.
pub fn elf_is_determined()
    ensures total { (bytes : List ℕ) → ((facts : ElfFacts) × IsElf bytes facts)
        ⊎ ((fault : ElfFault) × ¬ (fault ≡ NoMemory) × HasFirstElfFault bytes fault) }
    ensures one_reading { (bytes : List ℕ) (f g : ElfFacts)
        → IsElf bytes f → IsElf bytes g → f ≡ g }
    ensures one_fault { (bytes : List ℕ) (f g : ElfFault) → ¬ (f ≡ NoMemory) → ¬ (g ≡ NoMemory)
        → HasFirstElfFault bytes f → HasFirstElfFault bytes g → f ≡ g }
    ensures not_both { (bytes : List ℕ) (facts : ElfFacts) (fault : ElfFault) → ¬ (fault ≡ NoMemory)
        → IsElf bytes facts → HasFirstElfFault bytes fault → ⊥ }
{}

/// Where two segments overlap, some address lies in both.
pub fn overlap_is_shared()
    ensures { (bytes : List ℕ) (i j : ℕ) → HasFirstElfFault bytes (SegmentsOverlap i j)
        → (a : ℕ) × IsAddressOf (segment_by_header (program_header bytes i)) a
        × IsAddressOf (segment_by_header (program_header bytes j)) a }
{}
