//! A Linux kernel's file.
ghost use Rattle.std.specs.Prelude.{◌≡◌, IfOk, IfErr};
ghost use Rattle.bl_load.specs.LinuxKernel as linux;
ghost use Rattle.bl_load.specs.LinuxKernel.{IsLinuxKernel, entering_fault, telling_fault};
ghost use Rattle.bl_load.specs.internal.Checks.{Tells};
ghost use Rattle.bl_load.specs.internal.ReadKernels.{IsLinuxFault};
ghost use Rattle.bl_load.specs.declared.refusal.PrepFault.TheVariants.{Refused};

use crate::refusal::{PrepFault, Refusal};
use bl_bzimage::{Setup, SetupFault, read_setup};
use bl_map::Region;
use bl_mem::ByteView;
use bl_params::MAX_E820_ENTRIES;
use bl_plan::Protocol;

/// The first version of the boot protocol whose `xloadflags` tells of the 64-bit entry.
const FIRST_64_VERSION: u16 = 0x020C;

/// Where the 64-bit entry lies, behind the first byte that is loaded ("64-bit Boot Protocol").
pub(crate) const ENTRY_64: u64 = 0x200;

/// A setup's fault as a refusal.
fn setup_refusal(fault: SetupFault) -> Refusal
    ensures { result ≡ linux.setup_refusal fault }
{
    match fault {
        SetupFault::NotBzImage => Refusal::NotBzImage,
        SetupFault::OldProtocol => Refusal::OldProtocol,
        SetupFault::NotHigh => Refusal::NotHigh,
        SetupFault::SetupCut => Refusal::SetupCut,
        SetupFault::BadAlign => Refusal::BadAlign,
        SetupFault::BadPreferred => Refusal::BadPreferred,
    }
}

impl From<SetupFault> for PrepFault {
    ghost from_gives = { λ fault prep. prep ≡ Refused (linux.setup_refusal fault) };

    fn from(fault: SetupFault) -> PrepFault {
        PrepFault::Refused(setup_refusal(fault))
    }
}

/// Whether a kernel has the 64-bit entry ("xloadflags", XLF_KERNEL_64).
fn has_64_bit_entry(setup: &Setup) -> bool
    ensures { result ≡ linux.has_64_bit_entry setup.now }
{
    setup.version >= FIRST_64_VERSION && setup.xloadflags % 2 == 1
}

/// Checks that a kernel can be entered by the protocol. Each kernel has the 32-bit entry; the
/// 64-bit one must be there, and then lie within what is loaded.
fn check_entering(protocol: Protocol, setup: &Setup) -> Result<(), Refusal>
    ensures { Tells result (entering_fault protocol setup.now) }
{
    match protocol {
        Protocol::Multiboot2 => Ok(()),
        Protocol::Linux => Ok(()),
        Protocol::Linux64 => {
            if !has_64_bit_entry(setup) {
                return Err(Refusal::No64Entry);
            }
            if setup.payload_size <= ENTRY_64 {
                return Err(Refusal::EntryOutside);
            }
            Ok(())
        }
    }
}

/// Checks what a kernel is told: first that `cmdline_size` allows the line, then that boot
/// parameters have room for the memory map.
fn check_told(setup: &Setup, line: &[u8], runs: &[Region]) -> Result<(), Refusal>
    ensures { Tells result (telling_fault runs.now line.now setup.now) }
{
    if line.len() > setup.cmdline_size as usize {
        return Err(Refusal::LineTooLong);
    }
    if runs.len() > MAX_E820_ENTRIES as usize {
        return Err(Refusal::MapTooLong);
    }
    Ok(())
}

/// What is read of a Linux kernel's file, whose kernel is entered by this protocol and told this
/// line and this memory map, or the first fault.
pub fn read_linux<V: ByteView>(
    protocol: Protocol,
    file: &V,
    line: &[u8],
    runs: &[Region],
) -> Result<Setup, PrepFault>
    ensures kernel { IfOk result (IsLinuxKernel protocol runs.now line.now (V.bytes file.now)) }
    ensures fault { IfErr result (IsLinuxFault protocol runs.now line.now (V.bytes file.now)) }
{
    let setup = read_setup(file)?;
    check_entering(protocol, &setup)?;
    check_told(&setup, line, runs)?;
    Ok(setup)
}
