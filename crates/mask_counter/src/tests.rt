use crate::{BitOrder, block_words, counter_bytes};

#[test]
fn blocks_stand_in_lanes(rt: HostRuntime) {
    let bytes = [0, 0, 0, 0, 0, 0, 0, 1, 128];
    let mut words = [0; 64];
    block_words(&bytes, 8, BitOrder::HighFirst, &mut words);
    // Bit 0 of block 0, and the highest bit of block 1, which is filled with zeros.
    assert_eq!(rt; words[0], 1);
    assert_eq!(rt; words[63], 2);
    block_words(&bytes, 8, BitOrder::LowFirst, &mut words);
    assert_eq!(rt; words[56], 1);
    assert_eq!(rt; words[7], 2);
}

#[test]
fn counters_wrap(rt: HostRuntime) {
    let bytes = counter_bytes(8, 0xffff_ffff_ffff_ffff, 0);
    assert_eq!(rt; bytes[7], 255);
    assert_eq!(rt; bytes[8], 0);
    assert_eq!(rt; bytes[15], 0);
    assert_eq!(rt; bytes[23], 1);
}
