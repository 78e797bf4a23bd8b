//! The lines of a list.

ghost use Rattle.std.specs.Prelude.{◌≡◌};
ghost use Rattle.text.specs.Fields.{labelled};
ghost use Rattle.format.specs.Shown.{heading_fields, heading_text, line_text, refused_fields, refused_text};

use crate::values::Shown;
use reading::Reading;
use text::{Field, Text};

/// The first line of a list: how large a table is, and how a run of it is laid out.
#[derive(Clone, Copy)]
pub struct Heading {
    pub rows: usize,
    pub stages: u8,
    pub lead: u32,
    pub cells: usize,
}

impl Heading {
    fn fields(&self) -> [Field<'static>; 4]
        ensures { labelled result ≡ heading_fields self.now }
    {
        [
            Field::new("rows ", self.rows as u64),
            Field::new(" stages ", self.stages as u64),
            Field::new(" lead ", self.lead as u64),
            Field::new(" cells ", self.cells as u64),
        ]
    }
}

impl Shown for Heading {
    ghost text = { heading_text };

    fn push_to(&self, out: &mut Text) {
        out.push_line(&self.fields());
    }
}

/// A tick, and what is read there.
#[derive(Clone, Copy)]
pub struct Line<V> {
    pub tick: u32,
    pub reading: Reading<V>,
}

impl<V: Shown> Shown for Line<V> {
    ghost text = { line_text V.Shown.text };

    fn push_to(&self, out: &mut Text) {
        out.push_number(self.tick);
        out.push_str(" ");
        self.reading.push_to(out);
        out.push_str("\n");
    }
}

/// A refusal, by its number and the place that it is about.
#[derive(Clone, Copy)]
pub struct Refused {
    pub number: u8,
    pub place: usize,
}

impl Refused {
    fn fields(&self) -> [Field<'static>; 2]
        ensures { labelled result ≡ refused_fields self.now }
    {
        [
            Field::new("refused ", self.number as u64),
            Field::new(" at ", self.place as u64),
        ]
    }
}

impl Shown for Refused {
    ghost text = { refused_text };

    fn push_to(&self, out: &mut Text) {
        out.push_line(&self.fields());
    }
}
