//! Bytes, printed as hexadecimal text.
ghost use Rattle.std.specs.Prelude.{◌≡◌, ◌<◌, Some};
ghost use Rattle.std.specs.Fmt.{WritesOnOk};
ghost use Rattle.hexadecimal.specs.Hex.{digit, digits, digits_of, ReadsBack};

use std::fmt;

/// Bytes that print as two lower-case digits each.
#[derive(Clone, Copy)]
pub struct Hex<'a>(pub &'a [u8]);

/// The digit of a number below 16.
fn digit(v: u8) -> char
    requires { v < 16 }
    ensures value { result ≡ digit v }
    ensures ascii { result < 128 }
{
    if v < 10 {
        (b'0' + v) as char
    } else {
        (b'a' + (v - 10)) as char
    }
}

fn write_byte<W: fmt::Write>(f: &mut fmt::Formatter<W>, b: u8) -> fmt::Result
    ensures { WritesOnOk W.write_str_gives f.old result (digits b) f.new }
{
    f.write_char(digit(b / 16))?;
    f.write_char(digit(b % 16))
}

impl fmt::Display for Hex<'_> {
    ghost output = { λ h. Some (digits_of h.0.now) };

    fn fmt<W: fmt::Write>(&self, f: &mut fmt::Formatter<W>) -> fmt::Result {
        for b in self.0 {
            write_byte(f, *b)?;
        }
        Ok(())
    }
}

/// Reading gives back what was written.
pub fn hex_stands()
    ensures { ReadsBack }
{}
