use crate::Xxh64;

// The value of a list that is fed whole.
fn whole(seed: u64, bytes: &[u8]) -> u64 {
    let mut hasher = Xxh64::new(seed);
    hasher.update(bytes);
    hasher.value()
}

// The value of a list that is fed in pieces of a size.
fn in_pieces(bytes: &[u8], size: usize) -> u64 {
    let mut hasher = Xxh64::new(0);
    for piece in bytes.chunks(size.max(1)) {
        hasher.update(piece);
    }
    hasher.value()
}

// The values that libxxhash 0.8.1 gives, with the seed 0 and with that of the sanity checks of the
// xxHash sources.
#[test]
fn short_texts(rt: HostRuntime) {
    let rows: [(&[u8], u64, u64); 5] = [
        (b"", 0xef46_db37_51d8_e999, 0xac75_fda2_929b_17ef),
        (b"abc", 0x44bc_2cf5_ad77_0999, 0x1318_df30_094a_85fd),
        (b"abcdefg", 0x1860_940e_2902_822d, 0xec47_2d1b_cfbb_2cbc),
        (
            b"abcdefghijklmno",
            0x2e12_18a2_b137_5068,
            0x7055_f560_19de_2238,
        ),
        (
            b"Nobody inspects the spammish repetition",
            0xfbce_a83c_8a37_8bf1,
            0x56db_22dd_5b05_1147,
        ),
    ];
    for (text, value, seeded) in rows {
        assert_eq!(rt; whole(0, text), value);
        assert_eq!(rt; whole(0x9e37_79b1, text), seeded);
    }
}

// The values that xxhsum 0.8.1 gives for lists of 0, 1, .. 250, 0, 1, .. on both sides of a stripe
// and of a block, in pieces too.
#[test]
fn lengths(rt: HostRuntime) {
    let mut bytes = [0u8; 65537];
    for i in 0..65537 {
        bytes[i] = (i % 251) as u8;
    }
    let rows: [(usize, u64); 6] = [
        (31, 0xc346_d2b5_9b4d_8ee1),
        (32, 0xcbf5_9c51_16ff_32b4),
        (33, 0x0c53_5d1a_cafb_8ead),
        (65535, 0xfc26_b00b_70f8_1612),
        (65536, 0x316c_40df_46fe_2584),
        (65537, 0x8c8e_0218_a8ee_0fee),
    ];
    for (length, value) in rows {
        let list = &bytes[..length.min(65537)];
        assert_eq!(rt; whole(0, list), value);
        for size in [1, 7, 1000] {
            assert_eq!(rt; in_pieces(list, size), value);
        }
    }
}

#[test]
fn bytes_high_first(rt: HostRuntime) {
    let mut hasher = Xxh64::new(0);
    hasher.update(b"ab");
    hasher.update(b"");
    hasher.update(b"c");
    assert_eq!(rt;
        hasher.be_bytes(),
        [0x44, 0xbc, 0x2c, 0xf5, 0xad, 0x77, 0x09, 0x99]
    );
}
