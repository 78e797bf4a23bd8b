//! Numbers, as text.

ghost use Rattle.std.specs.Prelude.{◌≡◌};
ghost use Rattle.text.specs.Hexadecimal.{bits_text};
ghost use Rattle.text.specs.Pushed.{Pushed};

use crate::text::Text;
use hex::encode_to_slice;
use itoa::{Buffer, Integer};

/// The sixteen hexadecimal digits of a word, the letters small.
fn hex_digits(bits: u64) -> [u8; 16]
    ensures { result ≡ bits_text bits }
{
    let mut digits = [0; 16];
    encode_to_slice(bits.to_be_bytes(), &mut digits).unwrap();
    digits
}

impl Text {
    /// Appends a number in decimal, without needless zeros, and with a minus sign below 0.
    pub fn push_number<I: Integer>(&mut self, n: I)
        ensures { Pushed self.old self.new (I.text n) }
    {
        let mut buffer = Buffer::new();
        self.push_str(buffer.format(n));
    }

    /// Appends sixteen hexadecimal digits, the letters small.
    pub fn push_hex(&mut self, bits: u64)
        ensures { Pushed self.old self.new (bits_text bits) }
    {
        let digits = hex_digits(bits);
        self.push_str(str::from_utf8(&digits).unwrap());
    }
}

#[cfg(test)]
mod tests {
    use super::*;
    use std::alloc::AllocError;

    /// No clause says that there is memory: with some, nothing is lost. The digits are those that Python prints.
    #[test]
    fn keeps_numbers(rt: HostRuntime) -> Result<(), AllocError> {
        let mut text = Text::new(rt.alloc());
        text.push_number(-2147483648i32);
        text.push_str(" ");
        text.push_number(18446744073709551615u64);
        text.push_str(" ");
        text.push_number(0u8);
        text.push_str(" ");
        text.push_hex(9218868437227405311);
        let whole = text.finish()?;
        assert_eq!(rt;
            whole.as_str(),
            "-2147483648 18446744073709551615 0 7fefffffffffffff"
        );
        Ok(())
    }
}
