use super::{Wires, and_gadget, not_gadget, ref_gadget, xor_gadget};
use mask_io::MemEntropy;
use mask_shares::Shares;
use mask_tape::Tape;
use std::test::Fail;

// A product on two shares with the coin 1.
#[test]
fn product_of_two_shares(rt: HostRuntime) -> Result<(), Fail> {
    let mut entropy = MemEntropy::new(vec![in rt.alloc(); 1]?, Vec::new(rt.alloc()));
    let mut coins = Tape::new().reserve(rt.alloc(), &mut entropy, 1, 1)?;
    let mut wires = Wires::new();
    let x = Shares::from_parts([1, 0]);
    let y = Shares::from_parts([1, 1]);
    let z = and_gadget::<2>(x, y, &mut coins, &mut wires);
    coins.finish();
    assert_eq!(rt; (z.share(0), z.share(1)), (0, 0));
    assert_eq!(rt; wires.as_slice(), [1, 1, 0, 0, 1, 0, 0, 0, 0].as_slice());
    assert_eq!(rt; xor_gadget::<2>(x, y).unmask(), 1);
    assert_eq!(rt; not_gadget::<2>(y).unmask(), u64::MAX);
    Ok(())
}

// A refresh of three shares with the coins 1, 0, 1.
#[test]
fn refresh_of_three_shares(rt: HostRuntime) -> Result<(), Fail> {
    let mut entropy = MemEntropy::new(vec![in rt.alloc(); 0b101]?, Vec::new(rt.alloc()));
    let mut coins = Tape::new().reserve(rt.alloc(), &mut entropy, 1, 3)?;
    let mut wires = Wires::new();
    let x = Shares::from_parts([1, 0, 0]);
    let z = ref_gadget::<3>(x, &mut coins, &mut wires);
    coins.finish();
    assert_eq!(rt; (z.share(0), z.share(1), z.share(2)), (0, 0, 1));
    assert_eq!(rt; wires.as_slice(), [1, 0, 1, 0, 0, 0, 1, 0, 1].as_slice());
    Ok(())
}
