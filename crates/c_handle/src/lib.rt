//! A session and a digest that a caller keeps through handles, as one in C must.
#![tactic(auto)]

mod c_calls;
mod digest_handle;
mod digest_handle_calls;
mod handle;
mod handle_calls;
mod handle_fault;
mod handle_over_slice;
mod layouts;
mod lent_digest_handle;
mod lent_handle;
mod raw_box;
mod records;
mod request_telling;
mod session_over_slice;

pub use digest_handle::DigestHandle;
pub use handle::Handle;
pub use handle_fault::HandleFault;
pub use lent_digest_handle::LentDigestHandle;
pub use lent_handle::LentHandle;
pub use records::RequestRecord;
pub use request_telling::{status_of, tell_request};
