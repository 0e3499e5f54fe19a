// The examples of FIPS 180 for SHA-1.
use digest::digest_of;
use std::io;
use text::Hex;

pub fn print_examples(rt: &HostRuntime) -> io::Result<()> {
    let million = vec![in rt.alloc(); b'a'; 1_000_000]?;
    let examples: [(&str, &[u8]); 3] = [
        ("one block, \"abc\"", b"abc"),
        (
            "two blocks, 448 bits",
            b"abcdbcdecdefdefgefghfghighijhijkijkljklmklmnlmnomnopnopq",
        ),
        ("long message, one million \"a\"", million.as_slice()),
    ];
    for (title, message) in examples {
        let digest = digest_of(message);
        let hex = Hex { bytes: &digest };
        println!(rt; "FIPS 180, {title}: {hex}")?;
    }
    Ok(())
}
