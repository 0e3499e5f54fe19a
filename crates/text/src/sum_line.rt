// A file's digest and name, in the line that sha1sum writes.
ghost use Rattle.std.specs.Prelude.{◌≡◌, true, false, Some, MatchOption};
ghost use Rattle.std.proofs.Math.Utf8.{encode};
ghost use Rattle.std.specs.Fmt.{WritesOnOk};
ghost use Rattle.std.specs.Str.{chars};
ghost use Rattle.text.specs.SumLine.{is_escaped, escaped, any_escaped, escaped_name, sum_line};

use crate::hex::Hex;
use std::fmt;

#[derive(Clone, Copy, Debug, PartialEq, Eq)]
pub struct SumLine<'a> {
    pub digest: Hex<'a>,
    pub name: &'a str,
}

impl fmt::Display for SumLine<'_> {
    ghost output = { λ x. Some (sum_line x.digest.bytes.now x.name.now) };

    fn fmt<W: fmt::Write>(&self, f: &mut fmt::Formatter<W>) -> fmt::Result {
        let digest = self.digest;
        let name = Escaped { name: self.name };
        let mark = if name.differs() { "\\" } else { "" };
        write!(f, "{mark}{digest}  {name}")
    }
}

// A name in which a backslash, a line feed and a carriage return are escaped.
#[derive(Clone, Copy, Debug)]
struct Escaped<'a> {
    name: &'a str,
}

impl Escaped<'_> {
    // Whether a character of the name is escaped.
    fn differs(&self) -> bool
        ensures { result ≡ any_escaped (chars self.now.name.now) }
    {
        self.name.chars().any(is_escaped)
    }
}

impl fmt::Display for Escaped<'_> {
    ghost output = { λ x. Some (escaped_name x.name.now) };

    fn fmt<W: fmt::Write>(&self, f: &mut fmt::Formatter<W>) -> fmt::Result {
        for c in self.name.chars() {
            write_escaped(f, c)?;
        }
        Ok(())
    }
}

// Writes one character of a name.
fn write_escaped<W: fmt::Write>(f: &mut fmt::Formatter<W>, c: char) -> fmt::Result
    ensures { WritesOnOk W.Write.write_str_gives f.old result (escaped c) f.new }
{
    match escape(c) {
        Some(text) => f.write_str(text),
        None => f.write_char(c),
    }
}

fn is_escaped(c: char) -> bool
    ensures { result ≡ is_escaped c }
{
    escape(c).is_some()
}

// What stands for a character that is escaped.
fn escape(c: char) -> Option<&'static str>
    ensures { MatchOption result ((is_escaped c ≡ false) × (escaped c ≡ encode c)) (λ s. (is_escaped c ≡ true) × (escaped c ≡ s.now)) }
{
    match c {
        '\\' => Some("\\\\"),
        '\n' => Some("\\n"),
        '\r' => Some("\\r"),
        _ => None,
    }
}
