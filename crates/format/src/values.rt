//! Values, faults and readings.

ghost use Rattle.std.specs.Prelude.{◌≡◌, ℕ, List};
ghost use Rattle.text.specs.Fields.{labelled};
ghost use Rattle.text.specs.Pushed.{Pushed};
ghost use Rattle.format.specs.Shown.{truth_text, integer_text, finite_text, value_text, fault_fields, fault_text, reading_text};

use kind::{Finite, Integer, Value};
use reading::{Fault, Reading};
use text::{Field, Text};

/// What is printed of a value. `text` gives its bytes, and they are what is appended.
// Not `Display`, which was tried: of a text whose item's `fmt` gave up, nothing is known, so that it could not be promised
// that nothing is lost where there is room.
pub trait Shown {
    ghost text: { Self → List ℕ };

    fn push_to(&self, out: &mut Text)
        ensures { Pushed out.old out.new (text self.now) };
}

impl Shown for bool {
    ghost text = { truth_text };

    fn push_to(&self, out: &mut Text) {
        out.push_str(if *self { "true" } else { "false" });
    }
}

impl Shown for Integer {
    ghost text = { integer_text };

    fn push_to(&self, out: &mut Text) {
        out.push_number(self.value);
    }
}

impl Shown for Finite {
    ghost text = { finite_text };

    fn push_to(&self, out: &mut Text) {
        out.push_hex(self.bits);
    }
}

impl<N: Shown> Shown for Value<N> {
    ghost text = { value_text N.Shown.text };

    fn push_to(&self, out: &mut Text) {
        match self {
            Value::Number(n) => n.push_to(out),
            Value::Truth(b) => b.push_to(out),
        }
    }
}

fn fault_fields(fault: &Fault) -> [Field<'static>; 3]
    ensures { labelled result ≡ fault_fields fault.now }
{
    [
        Field::new("fault ", fault.number.number() as u64),
        Field::new(" row ", fault.row as u64),
        Field::new(" tick ", fault.tick as u64),
    ]
}

impl Shown for Fault {
    ghost text = { fault_text };

    fn push_to(&self, out: &mut Text) {
        out.push_fields(&fault_fields(self));
    }
}

impl<V: Shown> Shown for Reading<V> {
    ghost text = { reading_text V.Shown.text };

    fn push_to(&self, out: &mut Text) {
        match self {
            Ok(v) => v.push_to(out),
            Err(f) => f.push_to(out),
        }
    }
}
