use crate::{Bits, bits_high_first, bits_low_first, bytes_of_high, bytes_of_low, transpose_64};
use std::alloc::{AllocError, Global};
use std::test::Fail;

fn bits_of(alloc: Global, ones: &[bool]) -> Result<Bits, AllocError> {
    let mut bits = Bits::new(alloc);
    for one in ones {
        bits.push(*one)?;
    }
    Ok(bits)
}

fn ones(alloc: Global, bits: &Bits) -> Result<Vec<usize>, AllocError> {
    let mut places = Vec::new(alloc);
    for k in 0..bits.len() {
        if bits.get(k) {
            places.push(k)?;
        }
    }
    Ok(places)
}

#[test]
fn readings(rt: HostRuntime) -> Result<(), Fail> {
    let low = bits_low_first(rt.alloc(), &[0x05])?;
    assert_eq!(rt; low.len(), 8);
    assert_eq!(rt; ones(rt.alloc(), &low)?.as_slice(), [0, 2].as_slice());
    let high = bits_high_first(rt.alloc(), &[0x05, 0x80])?;
    assert_eq!(rt; high.len(), 16);
    assert_eq!(rt; ones(rt.alloc(), &high)?.as_slice(), [7, 8, 10].as_slice());
    Ok(())
}

#[test]
fn bytes_end_in_zeros(rt: HostRuntime) -> Result<(), Fail> {
    let mut bits = Bits::zeros(rt.alloc(), 7)?;
    bits.push(true)?;
    bits.push(true)?;
    assert_eq!(rt;
        bytes_of_low(rt.alloc(), &bits)?.as_slice(),
        [0x80, 0x01].as_slice()
    );
    assert_eq!(rt;
        bytes_of_high(rt.alloc(), &bits)?.as_slice(),
        [0x01, 0x80].as_slice()
    );
    Ok(())
}

#[test]
fn square(rt: HostRuntime) {
    let mut rows = [0; 64];
    rows[0] = 1 << 63;
    rows[40] = 0b11;
    transpose_64(&mut rows);
    assert_eq!(rt; rows[63], 1);
    assert_eq!(rt; rows[0], 1 << 40);
    assert_eq!(rt; rows[1], 1 << 40);
    assert_eq!(rt; rows[40], 0);
}

// 100,000 bits, of which every eighth is set: there and back by either reading.
#[test]
fn reads_at_size(rt: HostRuntime) -> Result<(), Fail> {
    let bytes = vec![in rt.alloc(); 0x01; 12_500]?;
    let low = bits_low_first(rt.alloc(), &bytes)?;
    let high = bits_high_first(rt.alloc(), &bytes)?;
    assert_eq!(rt; low.len(), 100_000);
    assert!(rt; bytes_of_low(rt.alloc(), &low)?.as_slice() == bytes.as_slice());
    assert!(rt; bytes_of_high(rt.alloc(), &high)?.as_slice() == bytes.as_slice());
    assert_eq!(rt; Bits::zeros(rt.alloc(), 100_000)?.len(), 100_000);
    Ok(())
}
