use bec_host::HashRng;
use rand_core::Rng;
use std::test::Fail;

/// The digests were computed by another implementation of SHA-256, of the bytes 0 to 31 as the key and a block number
/// of eight bytes.
#[test]
fn words_are_digests_of_the_key_and_the_block(rt: HostRuntime) -> Result<(), Fail> {
    let mut key = [0u8; 32];
    for i in 0..32u8 {
        key[usize::from(i)] = i;
    }
    let mut random = HashRng::new(key);
    assert_eq!(rt; random.next_u32(), 15_062_697);
    assert_eq!(rt; random.next_u64(), 1_432_931_076_015_667_753);
    let mut skipped = [0u8; 16];
    random.fill_bytes(&mut skipped);
    let mut bytes = [0u8; 16];
    random.fill_bytes(&mut bytes);
    assert_eq!(rt;
        bytes,
        [
            229, 39, 244, 208, 96, 97, 196, 56, 109, 122, 23, 136, 186, 82, 226, 232
        ]
    );
    Ok(())
}
