//! Why a table of a description is not read.
ghost use Rattle.std.specs.Prelude.{◌≡◌};
ghost use Rattle.program_desc.specs.declared.table_fault.TableFault.TheVariants.{NoMemory};

use crate::bad_key::BadKey;
use std::alloc::{AllocError, AllocFailed};

/// Why a table is not read: a key of it is not as it must be, or memory ran out.
#[derive(Clone, Copy)]
pub enum TableFault<'a> {
    BadKey(BadKey<'a>),
    NoMemory,
}

impl<'a> From<AllocError> for TableFault<'a> {
    ghost from_gives = { λ _ fault. fault ≡ NoMemory };

    fn from(_: AllocError) -> TableFault<'a> {
        TableFault::NoMemory
    }
}

impl<'a, T: Drop> From<AllocFailed<T>> for TableFault<'a> {
    ghost from_gives = { λ _ fault. fault ≡ NoMemory };

    fn from(_: AllocFailed<T>) -> TableFault<'a> {
        TableFault::NoMemory
    }
}
