//! Laws of the definitions: bytes have one reading or one first fault; page tables.
ghost use Rattle.std.specs.Prelude.{◌≡◌, ◌⊎◌, ◌^◌, ◌+◌, ◌<◌, ◌≤◌, ℕ, List, length, take, All};
ghost use Rattle.std.specs.Prelude.{None, Some, slice_index};
ghost use Rattle.bl_map.specs.NormalMap.{region_end};
ghost use Rattle.bl_bzimage.specs.declared.setup.Setup.{Setup};
ghost use Rattle.bl_bzimage.specs.Setup.{IsSetup};
ghost use Rattle.bl_params.specs.BootParams.{boot_params};
ghost use Rattle.bl_params.specs.ParamsToWriteFacts.{ParamsToWriteFacts, AreE820Runs};
ghost use Rattle.bl_params.specs.ParamsToWriteFacts.{IsToldFirmware};
ghost use Rattle.bl_params.specs.Gdt.{gdt, gdt_part};
ghost use Rattle.bl_params.specs.Paging.{paging};
ghost use Rattle.bl_params.specs.Translation.{translation};
ghost use Rattle.bl_params.specs.Reading.{IsParams, HasFirstParamFault};
ghost use Rattle.bl_params.specs.ParamsFacts.{ParamsFacts};
ghost use Rattle.bl_params.specs.declared.fault.ParamFault.{ParamFault};
ghost use Rattle.bl_params.specs.declared.fault.ParamFault.TheVariants.{NoMemory};
ghost use Rattle.bl_params.specs.WrittenParams.{FitParamFields, params_of};
ghost use Rattle.bl_params.specs.SizesAndOffsets.{page_tables_size};
ghost use Rattle.bl_map.specs.Limits.{frame_size};

/// Boot parameters that were written for the setup of a file are accepted, and tell what they were
/// made of.
pub fn written_is_read()
    ensures { (file : List ℕ) (setup : Setup) (facts : ParamsToWriteFacts) → IsSetup file setup
        → AreE820Runs facts.runs → FitParamFields facts
        → IsParams (boot_params setup.header facts) (params_of setup facts) }
{}

/// Bytes have exactly one of these: one reading as boot parameters, or one first fault. Want of
/// memory is no fault of the bytes. This holds for every list of numbers, be they bytes or not.
pub fn params_are_determined()
    ensures total { (bytes : List ℕ) → ((params : ParamsFacts) × IsParams bytes params)
        ⊎ ((fault : ParamFault) × ¬ (fault ≡ NoMemory) × HasFirstParamFault bytes fault) }
    ensures one_reading { (bytes : List ℕ) (p q : ParamsFacts)
        → IsParams bytes p → IsParams bytes q → p ≡ q }
    ensures one_fault { (bytes : List ℕ) (f g : ParamFault) → ¬ (f ≡ NoMemory) → ¬ (g ≡ NoMemory)
        → HasFirstParamFault bytes f → HasFirstParamFault bytes g → f ≡ g }
    ensures not_both { (bytes : List ℕ) (params : ParamsFacts) (fault : ParamFault)
        → ¬ (fault ≡ NoMemory) → IsParams bytes params → HasFirstParamFault bytes fault → ⊥ }
{}

/// Each run that boot parameters tell of ends at most at 2^52.
pub fn runs_end_low()
    ensures { (bytes : List ℕ) (params : ParamsFacts) → IsParams bytes params
        → All (λ run. region_end run ≤ 2 ^ 52) params.runs }
{}

/// What boot parameters tell of firmware is within its limits, whoever wrote them.
pub fn told_firmware_is_sound()
    ensures { (bytes : List ℕ) (params : ParamsFacts) → ((k : ℕ) → slice_index bytes k < 256)
        → IsParams bytes params → IsToldFirmware params.screen params.rsdp params.efi }
{}

/// The descriptors are the first 32 bytes of their frame.
pub fn gdt_part_begins_with_gdt()
    ensures front { take 32 gdt_part ≡ gdt }
    ensures long { length gdt_part ≡ frame_size }
{}

/// The page tables at an address whose six frames end at most at 2^32 translate each address below
/// 2^32 to itself, and no other.
pub fn paging_keeps_addresses()
    ensures below { (base a : ℕ) → base + page_tables_size ≤ 2 ^ 32 → a < 2 ^ 32
        → translation (paging base) base a ≡ Some a }
    ensures above { (base a : ℕ) → base + page_tables_size ≤ 2 ^ 32 → 2 ^ 32 ≤ a
        → translation (paging base) base a ≡ None }
{}
