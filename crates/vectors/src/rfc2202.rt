// The HMAC-SHA-1 cases of RFC 2202.
use digest::KeyBlock;
use std::io;
use text::Hex;

#[derive(Clone, Copy, Debug)]
struct Case {
    key: &'static [u8],
    message: &'static [u8],
}

// The key of the fourth case.
const COUNTED: [u8; 25] = [
    0x01, 0x02, 0x03, 0x04, 0x05, 0x06, 0x07, 0x08, 0x09, 0x0a, 0x0b, 0x0c, 0x0d, 0x0e, 0x0f, 0x10,
    0x11, 0x12, 0x13, 0x14, 0x15, 0x16, 0x17, 0x18, 0x19,
];

const CASES: [Case; 7] = [
    Case {
        key: &[0x0b; 20],
        message: b"Hi There",
    },
    Case {
        key: b"Jefe",
        message: b"what do ya want for nothing?",
    },
    Case {
        key: &[0xaa; 20],
        message: &[0xdd; 50],
    },
    Case {
        key: &COUNTED,
        message: &[0xcd; 50],
    },
    Case {
        key: &[0x0c; 20],
        message: b"Test With Truncation",
    },
    Case {
        key: &[0xaa; 80],
        message: b"Test Using Larger Than Block-Size Key - Hash Key First",
    },
    Case {
        key: &[0xaa; 80],
        message: b"Test Using Larger Than Block-Size Key and Larger Than One Block-Size Data",
    },
];

pub fn print_cases(rt: &HostRuntime) -> io::Result<()> {
    let mut block = KeyBlock::new();
    for (i, case) in CASES.iter().enumerate() {
        let code = block.code(case.key, case.message);
        let hex = Hex { bytes: &code.bytes };
        let number = i + 1;
        println!(rt; "RFC 2202, case {number}: {hex}")?;
    }
    Ok(())
}
