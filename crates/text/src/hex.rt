// Bytes as lower-case hexadecimal digits: `println!(rt; "{}", Hex { bytes: &digest })?`.
ghost use Rattle.std.specs.Prelude.{◌≡◌, ◌<◌, Some};
ghost use Rattle.std.specs.Fmt.{WritesOnOk};
ghost use Rattle.text.specs.Hex.{hex_digit, hex_pair, hex_of};

use std::fmt;

#[derive(Clone, Copy, Debug, PartialEq, Eq)]
pub struct Hex<'a> {
    pub bytes: &'a [u8],
}

impl fmt::Display for Hex<'_> {
    ghost output = { λ x. Some (hex_of x.bytes.now) };

    fn fmt<W: fmt::Write>(&self, f: &mut fmt::Formatter<W>) -> fmt::Result {
        for &byte in self.bytes {
            write_byte(f, byte)?;
        }
        Ok(())
    }
}

// Writes both digits of a byte. Each is a character of its own, since a width in what is formatted takes half as many instructions again where a zero has to be put before a digit.
fn write_byte<W: fmt::Write>(f: &mut fmt::Formatter<W>, byte: u8) -> fmt::Result
    ensures { WritesOnOk W.Write.write_str_gives f.old result (hex_pair byte) f.new }
{
    let high = digit(byte / 16);
    let low = digit(byte % 16);
    write!(f, "{high}{low}")
}

fn digit(n: u8) -> char
    requires { n < 16 }
    ensures { result ≡ hex_digit n }
{
    char::from_digit(u32::from(n), 16).unwrap()
}
