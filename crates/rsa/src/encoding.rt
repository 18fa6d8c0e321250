// The encoded message, EMSA-PKCS1-v1_5 with SHA-256 (RFC 8017, section 9.2).
ghost use Rattle.std.specs.Prelude.{◌≡◌, ◌≤◌, length};
ghost use Rattle.rsa.specs.Signature.{encoded};

// The DigestInfo of SHA-256 up to the hash.
const DIGEST_PREFIX: [u8; 19] = [
    0x30, 0x31, 0x30, 0x0d, 0x06, 0x09, 0x60, 0x86, 0x48, 0x01, 0x65, 0x03, 0x04, 0x02, 0x01, 0x05,
    0x00, 0x04, 0x20,
];

// Writes `src` over the whole of `dst`. Kept as a loop: where the compiler doesn't know the length, `copy_from_slice` calls `memmove`,
// which a host without a C library need not have.
fn write_whole(dst: &mut [u8], src: &[u8])
    requires { length dst.old ≡ length src.now }
    ensures { dst.new ≡ src.now }
{
    for (i, byte) in src.iter().enumerate() {
        dst[i] = *byte;
    }
}

// Writes the encoded message over the whole of em.
pub fn encode(em: &mut [u8], hash: &[u8])
    requires { (length hash.now ≡ 32) × (62 ≤ length em.old) }
    ensures { em.new ≡ encoded (length em.old) hash.now }
{
    let zero = em.len() - 52;
    em.fill(0xff);
    em[0] = 0;
    em[1] = 1;
    em[zero] = 0;
    em[zero + 1..zero + 20].copy_from_slice(&DIGEST_PREFIX);
    write_whole(&mut em[zero + 20..], hash);
}
