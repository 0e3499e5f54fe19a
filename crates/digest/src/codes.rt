// The code of a message: twenty bytes that are compared by `agrees` alone. It has no `==`, since a derived one may end at the first byte that differs.
ghost use Rattle.std.specs.Prelude.{◌≡◌, Decides};
ghost use Rattle.digest.specs.Codes.{differences};

#[derive(Clone, Copy, Debug)]
pub struct Code {
    pub bytes: [u8; 20],
}

impl Code {
    // Whether two codes are the same. It looks at all twenty bytes wherever they differ, so that the time it takes tells nothing of the place.
    pub fn agrees(&self, other: &Code) -> bool
        ensures { Decides result (self.now.bytes ≡ other.now.bytes) }
    {
        difference(&self.bytes, &other.bytes) == 0
    }
}

// The bits in which two codes differ, all in one byte.
fn difference(a: &[u8; 20], b: &[u8; 20]) -> u8
    ensures { result ≡ differences a.now b.now }
{
    a.iter().zip(b).fold(0, |bits, (x, y)| bits | (x ^ y))
}
