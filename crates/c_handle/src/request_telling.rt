//! What a call through a handle answers in C.
ghost use Rattle.std.specs.Prelude.{◌≡◌, slice_index_or};
ghost use Rattle.c_handle.specs.HandleTold.{TellsRequest, progress_status};

use crate::handle_fault::HandleFault;
use crate::records::RequestRecord;
use bl_session::{Menu, Progress, Request};
use std::alloc::Allocator;

/// The number of what `start` and `event` answer.
pub fn status_of(told: Result<Progress, HandleFault>) -> u32
    ensures { result ≡ progress_status told }
{
    match told {
        Ok(Progress::Done) => 0,
        Ok(Progress::Failed) => 5,
        Ok(Progress::Waiting) => 2,
        Ok(Progress::Next(_)) => 3,
        Err(HandleFault::NoSession) => 116,
        Err(HandleFault::WrongSize) => 110,
        Err(HandleFault::BelowBase) => 117,
    }
}

/// The index of the entry of an attempt; 0 if there is no such attempt.
fn entry_of<A: Allocator>(menu: &Menu<A>, attempt: u32) -> u32
    ensures { result ≡ slice_index_or menu.now.attempts attempt 0 }
{
    let attempt = attempt as usize;
    if attempt < menu.attempts() {
        menu.entry_of(attempt)
    } else {
        0
    }
}

/// Tells a piece of a menu's file that is awaited, if there is one, and whether there is.
pub fn tell_request<A: Allocator>(
    menu: &Menu<A>,
    request: Option<Request>,
    told: &mut RequestRecord,
) -> bool
    ensures { TellsRequest menu.now.attempts request result told.old told.new }
{
    match request {
        Some(request) => {
            *told = RequestRecord {
                entry: entry_of(menu, request.ticket.attempt),
                attempt: request.ticket.attempt,
                place: request.ticket.file,
                piece: request.ticket.piece,
                length: request.len,
            };
            true
        }
        None => false,
    }
}
