//! Words and numbers by turns.

ghost use Rattle.std.specs.Prelude.{◌≡◌, ◌++◌, codes};
ghost use Rattle.text.specs.Fields.{fields_text, labelled};
ghost use Rattle.text.specs.Pushed.{Pushed};

use crate::text::Text;

/// Words, and the number that follows them.
#[derive(Clone, Copy)]
pub struct Field<'a> {
    pub words: &'a str,
    pub value: u64,
}

impl<'a> Field<'a> {
    /// The field of these words and this number.
    pub fn new(words: &'a str, value: u64) -> Field<'a>
        ensures { result ≡ record { words = words.entry; value = value } }
    {
        Field { words, value }
    }
}

impl Text {
    /// Appends the words and then the number of each field.
    pub fn push_fields(&mut self, fields: &[Field<'_>])
        ensures { Pushed self.old self.new (fields_text (labelled fields.now)) }
    {
        for field in fields {
            self.push_str(field.words);
            self.push_number(field.value);
        }
    }

    /// Appends fields, and ends the line.
    pub fn push_line(&mut self, fields: &[Field<'_>])
        ensures { Pushed self.old self.new (fields_text (labelled fields.now) ++ codes "\n") }
    {
        self.push_fields(fields);
        self.push_str("\n");
    }
}
