//! Why a call through a handle is not made.

/// Why a call through a handle is not made. It has changed nothing.
#[derive(Clone, Copy)]
pub enum HandleFault {
    /// The handle keeps no session.
    NoSession,
    /// The memory's end is not the machine's.
    WrongSize,
    /// The pool begins below the memory's base.
    BelowBase,
}
