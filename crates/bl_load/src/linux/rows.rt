//! The table of places of a Linux entry's parts.
ghost use Rattle.std.specs.Prelude.{◌≡◌, ◌≤◌, ◌<◌, ◌+◌, ◌^◌, ◌++◌, ℕ, List, length, map, IfOk};
ghost use Rattle.bl_plan.specs.declared.part.Role.TheVariants as role;
ghost use Rattle.bl_load.specs.LinuxRows as table;
ghost use Rattle.bl_load.specs.internal.Placing as kept;
ghost use Rattle.bl_load.specs.internal.Placing.{IsFixedAbove};
ghost use Rattle.bl_load.specs.EntryValue.{initrd_file};
ghost use Rattle.bl_map.specs.Limits.{high_start};

use crate::capped_lengths::capped_length;
use bl_bzimage::Setup;
use bl_map::{FIRST_USABLE, FRAME_SIZE, HIGH_START, MAX_SIZE};
use bl_mem::ByteView;
use bl_params::TABLES_SIZE;
use bl_plan::{Choice, Protocol, Role, Row};
use std::alloc::{AllocError, Allocator};

/// Where the line ends at most ("cmd_line_ptr").
const LINE_END_LIMIT: u64 = 0xA_0000;

/// What a processor takes the address of a table to be a multiple of (Intel SDM, volume 3, chapter
/// 4.5: bits 12 and up of CR3 and of a word that names a table).
const TABLE_ALIGN: u64 = 0x1000;

/// The row of a kernel that may be moved.
fn relocatable_kernel_row(setup: &Setup) -> Row
    ensures { result ≡ table.relocatable_kernel_row setup.now }
{
    Row {
        role: Role::Kernel,
        index: 0,
        length: setup.payload_size.max(setup.init_size as u64),
        choice: Choice::Lowest {
            align: setup.kernel_alignment as u64,
            low: HIGH_START.max(setup.pref_address),
            high: MAX_SIZE,
        },
    }
}

/// The row of a kernel that lies at 1 MiB and runs at `pref_address`. What it needs is told from
/// 1 MiB on, so that no sum wraps.
fn fixed_kernel_row(setup: &Setup) -> Row
    requires from { high_start ≤ setup.now.pref_address }
    requires upto { setup.now.pref_address < 2 ^ 32 }
    ensures { result ≡ table.fixed_kernel_row setup.now }
{
    let needed = setup.pref_address - HIGH_START + setup.init_size as u64;
    Row {
        role: Role::Kernel,
        index: 0,
        length: setup.payload_size.max(needed),
        choice: Choice::Fixed(HIGH_START),
    }
}

/// The kernel's row.
fn kernel_row(setup: &Setup) -> Row
    requires { IsFixedAbove setup.now }
    ensures { result ≡ table.linux_kernel_row setup.now }
{
    if setup.relocatable_kernel == 0 {
        fixed_kernel_row(setup)
    } else {
        relocatable_kernel_row(setup)
    }
}

/// The row of a part of one frame that ends at most at `high`.
fn frame_row(role: Role, high: u64) -> Row
    ensures { result ≡ table.frame_row role high }
{
    Row {
        role,
        index: 0,
        length: FRAME_SIZE,
        choice: Choice::Lowest {
            align: FRAME_SIZE,
            low: FIRST_USABLE,
            high,
        },
    }
}

/// The row of the page tables that a kernel of this protocol is entered with, if any.
fn paging_row(protocol: Protocol) -> Option<Row>
    ensures { result ≡ table.paging_row protocol }
{
    match protocol {
        Protocol::Multiboot2 => None,
        Protocol::Linux => None,
        Protocol::Linux64 => Some(Row {
            role: Role::PageTables,
            index: 0,
            length: TABLES_SIZE as u64,
            choice: Choice::Lowest {
                align: TABLE_ALIGN,
                low: FIRST_USABLE,
                high: MAX_SIZE,
            },
        }),
    }
}

/// How many bytes the initrd has, 0 where there is none.
pub fn initrd_size<V: ByteView>(files: &[V]) -> u64
    ensures { result ≡ length (initrd_file (map V.bytes files.now)) }
{
    match files {
        [_, initrd, ..] => initrd.len(),
        _ => 0,
    }
}

/// Appends the row of an initrd of so many bytes, if it has any.
fn push_initrd_row<A: Allocator>(
    rows: &mut Vec<Row, A>,
    setup: &Setup,
    size: u64,
) -> Result<(), AllocError>
    ensures { IfOk result (λ _. (initrd : List ℕ) → length initrd ≡ size
        → rows.new.items ≡ rows.old.items ++ kept.capped_initrd_rows setup.now initrd) }
{
    if size > 0 {
        rows.push(Row {
            role: Role::Initrd,
            index: 0,
            length: capped_length(size),
            choice: Choice::Highest {
                align: FRAME_SIZE,
                low: FIRST_USABLE,
                high: setup.initrd_addr_max as u64 + 1,
            },
        })?;
    }
    Ok(())
}

/// The rows of a Linux entry's parts.
pub fn linux_rows<A: Allocator, V: ByteView>(
    alloc: A,
    protocol: Protocol,
    setup: &Setup,
    files: &[V],
) -> Result<Vec<Row, A>, AllocError>
    requires { IsFixedAbove setup.now }
    ensures { IfOk result (λ rows. rows.items
        ≡ kept.capped_linux_rows protocol setup.now (initrd_file (map V.bytes files.now))) }
{
    let mut rows = Vec::new(alloc);
    rows.extend_from_slice(&[
        kernel_row(setup),
        frame_row(Role::BootParams, MAX_SIZE),
        frame_row(Role::CommandLine, LINE_END_LIMIT),
        frame_row(Role::Gdt, MAX_SIZE),
    ])?;
    if let Some(row) = paging_row(protocol) {
        rows.push(row)?;
    }
    push_initrd_row(&mut rows, setup, initrd_size(files))?;
    Ok(rows)
}
