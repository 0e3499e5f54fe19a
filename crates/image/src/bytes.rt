// The bytes of an image: numbers of two bytes, the high byte first, and values of twenty.
// The functions take bytes and a place: a struct of both would be needed twice, for bytes that are read and for bytes that are written.
ghost use Rattle.std.specs.Prelude.{◌≡◌, ◌+◌, ◌*◌, ◌^◌, ◌<◌, ◌≤◌, length, IfOk};
ghost use Rattle.image.specs.Bytes.{number_bytes, number_at, count_in, number, number_place, value, value_place, overlay, altered, blank};

use std::alloc::{AllocError, Global};

// The number in the two bytes from `at` on.
pub(crate) fn number_at(bytes: &[u8], at: usize) -> u16
    requires { at + 1 < length bytes.now }
    ensures { result ≡ number_at bytes.now at }
{
    u16::from_be_bytes([bytes[at], bytes[at + 1]])
}

// The number of a cell.
pub(crate) fn number_of(bytes: &[u8], cell: u16) -> u16
    requires { number_place cell + 1 < length bytes.now }
    ensures { result ≡ number bytes.now cell }
{
    number_at(bytes, 4 + 2 * usize::from(cell))
}

// One of the values.
pub(crate) fn value_of(bytes: &[u8], slot: usize) -> [u8; 20]
    requires { value_place (count_in bytes.now) slot + 20 ≤ length bytes.now }
    ensures { result ≡ value bytes.now slot }
{
    let count = usize::from(number_at(bytes, 0));
    let at = 4 + 2 * count + 20 * slot;
    let mut value = [0; 20];
    value.copy_from_slice(&bytes[at..at + 20]);
    value
}

// Lays `from` over the bytes from `at` on.
#[tactic(auto, using(crate::proofs::Overlays::overlay_is))]
fn put(bytes: &mut [u8], at: usize, from: &[u8])
    requires { at + length from.now ≤ length bytes.old }
    ensures { bytes.new ≡ overlay bytes.old at from.now }
{
    bytes[at..at + from.len()].copy_from_slice(from);
}

fn number_bytes(number: u16) -> [u8; 2]
    ensures { result ≡ number_bytes number }
{
    number.to_be_bytes()
}

// Alters the number of a cell and one of the values.
pub(crate) fn alter(bytes: &mut [u8], cell: u16, number: u16, slot: usize, value: &[u8; 20])
    requires { (cell < count_in bytes.old) × (value_place (count_in bytes.old) slot + 20 ≤ length bytes.old) }
    ensures { bytes.new ≡ altered bytes.old cell number slot value.now }
{
    let count = usize::from(number_at(bytes, 0));
    put(bytes, 4 + 2 * count + 20 * slot, value);
    put(bytes, 4 + 2 * usize::from(cell), &number_bytes(number));
}

// The bytes of an image whose cells all have one number, with so many values of zeros.
pub(crate) fn blank_bytes(
    heap: Global,
    count: u16,
    second: u16,
    each: u16,
    values: usize,
) -> Result<Vec<u8>, AllocError>
    requires { values < 2 ^ 32 }
    ensures { IfOk result (λ v. v.items ≡ blank count second each values) }
{
    let mut bytes = Vec::new(heap);
    bytes.extend_from_slice(&number_bytes(count))?;
    bytes.extend_from_slice(&number_bytes(second))?;
    let numbers = number_bytes(each).repeat(heap, usize::from(count))?;
    bytes.extend_from_slice(numbers.as_slice())?;
    bytes.resize(4 + 2 * usize::from(count) + 20 * values, 0)?;
    Ok(bytes)
}
