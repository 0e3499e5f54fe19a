// The rounds of SHA-1: each is twenty steps with a function and a constant of its own.
ghost use Rattle.std.specs.Prelude.{◌≡◌, ℕ, ◌≤◌, take, drop};
ghost use Rattle.digest.specs.Sha1.{steps, choose, parity, majority};

pub(crate) fn choose(b: u32, c: u32, d: u32) -> u32
    ensures { result ≡ choose b c d }
{
    (b & c) ^ (!b & d)
}

pub(crate) fn parity(b: u32, c: u32, d: u32) -> u32
    ensures { result ≡ parity b c d }
{
    b ^ c ^ d
}

pub(crate) fn majority(b: u32, c: u32, d: u32) -> u32
    ensures { result ≡ majority b c d }
{
    (b & c) ^ (b & d) ^ (c & d)
}

// The five words after twenty steps from word `FIRST` of the schedule on, which has grown past them.
pub(crate) fn stepped<const FIRST: usize, const ADDED: u32, F: Fn(u32, u32, u32) -> u32>(
    mix: F,
    s: [u32; 5],
    schedule: &[u32; 80],
) -> [u32; 5]
    requires callable { F.IsAlwaysCallable mix }
    requires inside { FIRST ≤ 60 }
    ensures { (f : ℕ → ℕ → ℕ → ℕ) → ((x y z r : ℕ) → F.post mix x y z r → r ≡ f x y z) → result ≡ steps f ADDED s (take 20 (drop FIRST schedule.now)) }
{
    let [mut a, mut b, mut c, mut d, mut e] = s;
    for &word in &schedule[FIRST..FIRST + 20] {
        let next = a
            .rotate_left(5)
            .wrapping_add(mix(b, c, d))
            .wrapping_add(e)
            .wrapping_add(ADDED)
            .wrapping_add(word);
        e = d;
        d = c;
        c = b.rotate_left(30);
        b = a;
        a = next;
    }
    [a, b, c, d, e]
}
