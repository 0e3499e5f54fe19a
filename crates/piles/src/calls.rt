// Calls that look random and are the same in every run, some of them wrong.
ghost use Rattle.std.specs.Prelude.{◌<◌};

#[derive(Clone, Copy, Debug)]
pub enum Call {
    Read { cell: u16, len: usize },
    Left { cell: u16 },
    Write { cell: u16, byte: u8, len: usize },
}

#[derive(Debug, Drop)]
pub struct Calls {
    state: u64,
    // the highest cell that is drawn
    last: u16,
}

impl Calls {
    pub fn new(last: u16) -> Self {
        Calls { state: 1, last }
    }

    fn below(&mut self, n: u64) -> u64
        requires { 0 < n }
        ensures { result < n }
    {
        self.state = self.state.wrapping_mul(1103515245).wrapping_add(12345) % 2147483648;
        self.state / 256 % n
    }

    fn cell(&mut self) -> u16 {
        let cells = u64::from(self.last) + 1;
        self.below(cells) as u16
    }

    fn byte(&mut self) -> u8 {
        self.below(256) as u8
    }

    // Twenty, or seldom nineteen or twenty-one. What is drawn is a number, so it is matched as one, here and in `next`.
    fn length(&mut self) -> usize {
        match self.below(12) {
            0 => 19,
            1 => 21,
            _ => 20,
        }
    }
}

impl Iterator for Calls {
    type Item = Call;

    fn next(&mut self) -> Option<Call> {
        let kind = self.below(4);
        let cell = self.cell();
        Some(match kind {
            0 => Call::Read {
                cell,
                len: self.length(),
            },
            1 => Call::Left { cell },
            _ => Call::Write {
                cell,
                byte: self.byte(),
                len: self.length(),
            },
        })
    }
}
