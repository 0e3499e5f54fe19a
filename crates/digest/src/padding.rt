// What is put behind a message.
ghost use Rattle.std.specs.Prelude.{◌≡◌, ◌-◌, ◌*◌, ◌%◌, ◌^◌, ◌<◌, ◌∷◌, replicate};
ghost use Rattle.digest.specs.Words.{be64};

const PADDING: [u8; 64] = [
    0x80, 0, 0, 0, 0, 0, 0, 0, 0, 0, 0, 0, 0, 0, 0, 0, 0, 0, 0, 0, 0, 0, 0, 0, 0, 0, 0, 0, 0, 0, 0,
    0, 0, 0, 0, 0, 0, 0, 0, 0, 0, 0, 0, 0, 0, 0, 0, 0, 0, 0, 0, 0, 0, 0, 0, 0, 0, 0, 0, 0, 0, 0, 0,
    0,
];

// A one bit and zeros up to eight bytes before the end of a block, of which `fill` bytes are filled.
pub(crate) fn padding(fill: usize) -> &'static [u8]
    requires { fill < 64 }
    ensures { result.now ≡ 0x80 ∷ replicate ((119 - fill) % 64) 0 }
{
    &PADDING[..(119 - fill) % 64 + 1]
}

// The number of bits in a message of `total` bytes, the high byte first.
pub(crate) fn bit_count(total: u64) -> [u8; 8]
    ensures { result ≡ be64 (total * 8 % 2 ^ 64) }
{
    total.wrapping_mul(8).to_be_bytes()
}
