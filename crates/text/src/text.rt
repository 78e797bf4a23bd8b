//! A text that grows at its end.

ghost use Rattle.std.specs.Prelude.{◌≡◌, [], Ok};
ghost use Rattle.text.specs.Pushed.{Pushed, bytes_of, whole_of};

use std::alloc::{AllocError, Global};

/// A text that is appended to, and whether there was memory for each append. So only its end has to be asked for success.
#[derive(Drop)]
pub struct Text {
    pub(crate) text: String,
    pub(crate) kept: Result<(), AllocError>,
}

impl Text {
    /// An empty text.
    pub fn new(heap: Global) -> Text
        ensures kept { result.kept ≡ Ok tt }
        ensures bytes { bytes_of result ≡ [] }
    {
        Text {
            text: String::new(heap),
            kept: Ok(()),
        }
    }

    /// Appends a text.
    pub fn push_str(&mut self, s: &str)
        ensures { Pushed self.old self.new s.now }
    {
        if self.kept.is_ok() {
            self.kept = self.text.push_str(s);
        }
    }

    /// The whole text, unless memory ran out.
    pub fn finish(self) -> Result<String, AllocError>
        ensures { result ≡ whole_of self }
    {
        self.kept.map(|_| self.text)
    }
}
