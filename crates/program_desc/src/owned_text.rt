//! Text of one's own.
ghost use Rattle.std.specs.Prelude.{◌≡◌, ℕ, List, string_bytes, IfOk};

use std::alloc::{AllocError, Allocator};
use std::marker::Model;

/// Text of one's own, which contracts see as the list of its bytes. It is made from a `String`, and
/// gives it back, without taking memory.
#[derive(Drop)]
pub struct Text<A: Allocator> {
    held: String<A>,
}

impl<A: Allocator> Model for Text<A> {
    ghost Value = { List ℕ };

    ghost view = { λ text. string_bytes text.held };
}

impl<A: Allocator> Text<A> {
    /// A copy of a text.
    pub fn from_str(alloc: A, text: &str) -> Result<Text<A>, AllocError>
        ensures { IfOk result (λ own. own ≡ text.now) }
    {
        let held = String::from_str(alloc, text)?;
        Ok(Text { held })
    }

    /// The text.
    pub fn as_str(&self) -> &str
        ensures { result.now ≡ self.now }
    {
        self.held.as_str()
    }

    /// The string that it is held in.
    pub fn into_string(self) -> String<A>
        ensures { string_bytes result ≡ self }
    {
        let Text { held } = self;
        held
    }
}

impl<A: Allocator> From<String<A>> for Text<A> {
    ghost from_gives = { λ string text. text ≡ string_bytes string };

    fn from(held: String<A>) -> Text<A> {
        Text { held }
    }
}
