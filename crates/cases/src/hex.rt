//! Bytes written in hexadecimal, where `{..*N}` stands for N times what is between.

use std::alloc::{AllocError, Global};

#[derive(Clone, Copy, Drop)]
enum Part {
    Outside,
    Group,
    Count,
}

/// What was read so far: the bytes, those of the open group and its count, and a digit that waits for the next.
#[derive(Drop)]
struct Decoder {
    bytes: Vec<u8>,
    group: Vec<u8>,
    count: usize,
    part: Part,
    high: Option<u8>,
}

fn hex_value(c: u8) -> Option<u8> {
    match c {
        b'0'..=b'9' => Some(c - b'0'),
        b'a'..=b'f' => Some(c - b'a' + 10),
        _ => None,
    }
}

impl Decoder {
    fn new(heap: Global) -> Decoder {
        Decoder {
            bytes: Vec::new(heap),
            group: Vec::new(heap),
            count: 0,
            part: Part::Outside,
            high: None,
        }
    }

    fn push(&mut self, byte: u8) -> Result<(), AllocError> {
        match self.part {
            Part::Outside => self.bytes.push(byte)?,
            _ => self.group.push(byte)?,
        }
        Ok(())
    }

    /// Takes a digit of a byte, or of a count.
    fn take_digit(&mut self, digit: u8) -> Result<(), AllocError> {
        if let Part::Count = self.part {
            self.count = self.count.saturating_mul(10).saturating_add(digit as usize);
            return Ok(());
        }
        match self.high {
            None => self.high = Some(digit),
            Some(high) => {
                self.high = None;
                self.push((high << 4) | digit)?;
            }
        }
        Ok(())
    }

    /// Repeats the group as often as was counted.
    fn end_group(&mut self) -> Result<(), AllocError> {
        for _ in 0..self.count {
            self.bytes.extend_from_slice(&self.group)?;
        }
        self.group.clear();
        self.count = 0;
        self.part = Part::Outside;
        Ok(())
    }

    /// Takes one character. One that has no meaning is skipped.
    fn take(&mut self, c: u8) -> Result<(), AllocError> {
        match c {
            b'{' => self.part = Part::Group,
            b'*' => self.part = Part::Count,
            b'}' => self.end_group()?,
            _ => {
                if let Some(digit) = hex_value(c) {
                    self.take_digit(digit)?;
                }
            }
        }
        Ok(())
    }
}

/// The bytes that are written in hexadecimal.
pub(crate) fn decode(heap: Global, digits: &str) -> Result<Vec<u8>, AllocError> {
    let mut decoder = Decoder::new(heap);
    for c in digits.bytes() {
        decoder.take(c)?;
    }
    Ok(decoder.bytes)
}
