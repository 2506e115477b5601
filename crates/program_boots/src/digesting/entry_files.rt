//! The files of an entry, as they were found.
ghost use Rattle.std.specs.Prelude.{◌≡◌, ◌++◌, IfOk, None, map, slice_index_or};
ghost use Rattle.bl_stage.specs.Files.{missing, size_of, file_bytes, stored_files};
ghost use Rattle.bl_session.specs.menu.Menu.{files_of};
ghost use Rattle.program_boots.specs.EntryPlans.{file_texts};

use bl_load::{Entry, Module};
use bl_mem::SliceView;
use bl_session::Fetched;
use std::alloc::{AllocError, Allocator};

/// Appends the indices of modules' files.
fn push_modules<A: Allocator>(
    indices: &mut Vec<u32, A>,
    modules: &[Module<A>],
) -> Result<(), AllocError>
    ensures { IfOk result (λ _.
        indices.new.items ≡ indices.old.items ++ map (λ m. m.file) modules.now) }
{
    for module in modules {
        indices.push(module.file)?;
    }
    Ok(())
}

/// The indices of an entry's files, in order, the kernel's first.
pub fn indices_of<A: Allocator + Copy>(
    alloc: A,
    entry: &Entry<A>,
) -> Result<Vec<u32, A>, AllocError>
    ensures { IfOk result (λ indices. indices.items ≡ files_of entry.now) }
{
    let mut indices = Vec::new(alloc);
    match entry {
        Entry::Multiboot2 {
            kernel,
            modules,
            ..
        } => {
            indices.push(*kernel)?;
            push_modules(&mut indices, modules)?;
        }
        Entry::Linux { kernel, initrd, .. } => {
            indices.push(*kernel)?;
            if let Some(file) = initrd {
                indices.push(*file)?;
            }
        }
    }
    Ok(indices)
}

/// The size of the file of this index; none if it is missing.
pub fn size_in<A: Allocator>(files: &[Fetched<A>], file: u32) -> Option<u64>
    ensures { result ≡ slice_index_or (map size_of (stored_files files.now)) file None }
{
    match files.get(file as usize) {
        Some(file) => file.size(),
        None => None,
    }
}

/// The bytes of the file of this index; none if it is missing or too long.
fn bytes_in<A: Allocator>(files: &[Fetched<A>], file: u32) -> &[u8]
    ensures { result.now ≡ file_bytes (slice_index_or (stored_files files.now) file missing) }
{
    match files.get(file as usize) {
        Some(Fetched::Bytes(bytes)) => bytes.as_slice(),
        _ => &[],
    }
}

/// The bytes of the files of these indices, in order.
pub fn file_texts<'f, A: Allocator + Copy>(
    alloc: A,
    files: &'f [Fetched<A>],
    indices: &[u32],
) -> Result<Vec<SliceView<'f>, A>, AllocError>
    ensures { IfOk result (λ texts. map (λ t. t.bytes.now) texts.items
        ≡ file_texts (stored_files files.now) indices.now) }
{
    let mut texts = Vec::new(alloc);
    for file in indices {
        texts.push(SliceView::new(bytes_in(files, *file)))?;
    }
    Ok(texts)
}
