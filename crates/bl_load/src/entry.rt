//! What a menu offers.
ghost use Rattle.std.specs.Prelude.{◌≡◌, ◌↔◌, IfOk, IfSome, IsTrue, None, true, false};
ghost use Rattle.bl_load.specs.EntryValue.{file_count, IsRsdpCopy, IsWithinLimits};
ghost use Rattle.bl_load.specs.declared.entry.Entry.TheVariants.{Multiboot2, Linux};

use bl_mem::Bytes;
use bl_plan::{MAX_MODULES, MAX_RSDP_LENGTH};
use std::alloc::{AllocError, Allocator};

/// A module of a Multiboot2 entry: a file of the menu, by its index, and the module's line.
#[derive(Drop)]
pub struct Module<A: Allocator> {
    pub file: u32,
    pub line: Bytes<A>,
}

impl<A: Allocator> Module<A> {
    /// A module with a copy of its line.
    pub fn new(alloc: A, file: u32, line: &[u8]) -> Result<Module<A>, AllocError>
        ensures { IfOk result (λ made. made ≡ record { file = file; line = line.now }) }
    {
        Ok(Module {
            file,
            line: Bytes::copy(alloc, line)?,
        })
    }
}

/// An entry. Files are named by their index; those of an entry are the kernel, and then the modules
/// or the initial ramdisk, in this order. A line has no zero byte and at most 4095 bytes, or is
/// refused. `rsdp_old` and `rsdp_new` are copies of the Root System Description Pointer of ACPI 1.0
/// and of ACPI 2.0 or later (Multiboot2 3.6.16, 3.6.17), 1 to 256 bytes each; they are handed over
/// as they stand. A `wide` entry enters its kernel with 64 bits (Linux/x86 Boot Protocol, "64-bit
/// Boot Protocol").
#[derive(Drop)]
pub enum Entry<A: Allocator> {
    Multiboot2 {
        kernel: u32,
        line: Bytes<A>,
        modules: Vec<Module<A>, A>,
        rsdp_old: Option<Bytes<A>>,
        rsdp_new: Option<Bytes<A>>,
    },
    Linux {
        kernel: u32,
        line: Bytes<A>,
        initrd: Option<u32>,
        wide: bool,
    },
}

/// Whether there is no copy of an RSDP, or one of 1 to 256 bytes.
fn is_copy<A: Allocator>(copy: &Option<Bytes<A>>) -> bool
    ensures { IsTrue result ↔ IfSome copy.now IsRsdpCopy }
{
    match copy {
        Some(bytes) => !bytes.is_empty() && bytes.len() <= MAX_RSDP_LENGTH,
        None => true,
    }
}

impl<A: Allocator> Entry<A> {
    /// A Multiboot2 entry with a copy of its line, which hands over no copy of an RSDP.
    pub fn multiboot2(
        alloc: A,
        kernel: u32,
        line: &[u8],
        modules: Vec<Module<A>, A>,
    ) -> Result<Entry<A>, AllocError>
        ensures { IfOk result (λ entry. entry ≡ Multiboot2 kernel line.now modules None None) }
    {
        Ok(Entry::Multiboot2 {
            kernel,
            line: Bytes::copy(alloc, line)?,
            modules,
            rsdp_old: None,
            rsdp_new: None,
        })
    }

    /// A Linux entry with a copy of its line, whose kernel is entered with 32 bits.
    pub fn linux(
        alloc: A,
        kernel: u32,
        line: &[u8],
        initrd: Option<u32>,
    ) -> Result<Entry<A>, AllocError>
        ensures { IfOk result (λ entry. entry ≡ Linux kernel line.now initrd false) }
    {
        Ok(Entry::Linux {
            kernel,
            line: Bytes::copy(alloc, line)?,
            initrd,
            wide: false,
        })
    }

    /// A Linux entry with a copy of its line, whose kernel is entered with 64 bits.
    pub fn linux64(
        alloc: A,
        kernel: u32,
        line: &[u8],
        initrd: Option<u32>,
    ) -> Result<Entry<A>, AllocError>
        ensures { IfOk result (λ entry. entry ≡ Linux kernel line.now initrd true) }
    {
        Ok(Entry::Linux {
            kernel,
            line: Bytes::copy(alloc, line)?,
            initrd,
            wide: true,
        })
    }

    /// How many files it has: the kernel, and the modules or the initial ramdisk. `prepare` takes
    /// as many.
    pub fn file_count(&self) -> usize
        ensures { result ≡ file_count self.now }
    {
        match self {
            Entry::Multiboot2 { modules, .. } => 1 + modules.len(),
            Entry::Linux { initrd: None, .. } => 1,
            Entry::Linux {
                initrd: Some(_),
                ..
            } => 2,
        }
    }

    /// Whether it has at most 64 modules, and copies of an RSDP of 1 to 256 bytes, as `prepare`
    /// requires. Each entry of a menu is so.
    #[tactic(auto, unfolding(crate::specs::EntryValue::IsWithinLimits))]
    pub fn is_within_limits(&self) -> bool
        ensures { IsTrue result ↔ IsWithinLimits self.now }
    {
        match self {
            Entry::Multiboot2 {
                modules,
                rsdp_old,
                rsdp_new,
                ..
            } => modules.len() <= MAX_MODULES && is_copy(rsdp_old) && is_copy(rsdp_new),
            Entry::Linux { .. } => true,
        }
    }
}
