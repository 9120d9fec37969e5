//! Values worked out by other programs, and each call at a small and a large size.

use sha2::{Digest, Sha256};
use std::test::Fail;
use tower_field::{B128, Tower};
use transcript::Transcript;

// "abc", fed in two pieces as a transcript feeds its hasher: the first 16 bytes of the digest that
// the examples of FIPS 180-4 give.
#[test]
fn published_digest(rt: HostRuntime) {
    let mut hasher = Sha256::new();
    hasher.update(b"a");
    hasher.update(b"bc");
    let mut high = [0u8; 16];
    high.copy_from_slice(&hasher.finalize()[..16]);
    assert_eq!(rt;
        u128::from_be_bytes(high),
        0xba7816bf8f01cfea414140de5dae2223
    );
}

// The challenges that Python's hashlib gives for the same events.
#[test]
fn challenges(rt: HostRuntime) -> Result<(), Fail> {
    let mut transcript = Transcript::start();
    assert_eq!(rt;
        transcript.draw().number(),
        0x19371985288cc4b30c44c9437424d41f
    );

    let mut transcript = Transcript::start();
    transcript.absorb(0, b"BM3PROOF");
    assert_eq!(rt;
        transcript.draw().number(),
        0x58779db3220e14e538a8fbcb752ad7ec
    );
    transcript.absorb_values(2, &[B128::join(1, 0), B128::join(2, 0), B128::join(3, 0)]);
    assert_eq!(rt;
        transcript.draw().number(),
        0x5f2a8ebb07a9625055719f255d156a60
    );
    assert_eq!(rt;
        transcript.draw().number(),
        0x1392abb415ec0f69d474344d7e3ad1d7
    );
    transcript.absorb_values(2, &[]);
    assert_eq!(rt;
        transcript.draw().number(),
        0xfefc08c8fcbbbe3e08570766362ed8c7
    );

    let mut transcript = Transcript::start();
    let mut values: Vec<B128> = Vec::new(rt.alloc());
    for i in 0..4096u64 {
        values.push(B128::join(i as u128, 0))?;
    }
    transcript.absorb_values(3, values.as_slice());
    assert_eq!(rt;
        transcript.draw().number(),
        0xe6a181be264ae130adeb38e963ec4acb
    );

    let mut transcript = Transcript::start();
    let mut bytes: Vec<u8> = Vec::new(rt.alloc());
    for i in 0..65536u32 {
        bytes.push((i % 256) as u8)?;
    }
    transcript.absorb(1, bytes.as_slice());
    assert_eq!(rt;
        transcript.draw().number(),
        0xb2e5aa70c001e59c8c7cb3095e77039f
    );
    Ok(())
}
