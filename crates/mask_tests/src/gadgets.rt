//! The masks of product and refresh against the gadgets themselves: with a coin on one side of the operands and the masked
//! coin on the other, a named output share is the same.

ghost use Rattle.std.specs.Prelude.{◌≡◌, [], ◌∷◌};

use mask_gadget::{Wires, and_gadget, ref_gadget};
use mask_io::MemEntropy;
use mask_shares::Shares;
use mask_sni::{Places, Probes, and_shift, ref_shift};
use mask_tape::Tape;
use std::alloc::Global;
use std::test::Fail;

// Two shares, of which share i is bit i.
fn two_shares(bits: u64) -> Shares<2> {
    Shares::from_parts([bits & 1, (bits >> 1) & 1])
}

// Share 0 of the refresh of two shares with this coin.
fn refreshed(alloc: Global, a: u64, coin: u8) -> Result<u64, Fail> {
    let mut entropy = MemEntropy::new(vec![in alloc; coin]?, Vec::new(alloc));
    let mut coins = Tape::new().reserve(alloc, &mut entropy, 1, 1)?;
    let fresh = ref_gadget::<2>(two_shares(a), &mut coins, &mut Wires::new());
    coins.finish();
    Ok(fresh.share(0))
}

// Share 0 of the product of two values of two shares with this coin.
fn product(alloc: Global, a: u64, b: u64, coin: u8) -> Result<u64, Fail> {
    let mut entropy = MemEntropy::new(vec![in alloc; coin]?, Vec::new(alloc));
    let mut coins = Tape::new().reserve(alloc, &mut entropy, 1, 1)?;
    let product = and_gadget::<2>(two_shares(a), two_shares(b), &mut coins, &mut Wires::new());
    coins.finish();
    Ok(product.share(0))
}

// Output share 0 is named, and nothing is probed.
fn first_share() -> Places
    ensures { result.items ≡ 0 ∷ [] }
{
    let mut outputs = Places::new();
    outputs.push(0);
    outputs
}

#[test]
fn a_masked_coin_keeps_a_share_of_a_refresh(rt: HostRuntime) -> Result<(), Fail> {
    let mask = ref_shift::<2>(&Probes::new(), &first_share(), 0, 3);
    assert_eq!(rt; mask, 1);
    for coin in [0, 1] {
        let share = refreshed(rt.alloc(), 0, coin)?;
        let masked = coin ^ (mask & 1) as u8;
        assert_eq!(rt;
            refreshed(rt.alloc(), 3, masked)?,
            share,
            "with the coin {coin}"
        );
    }
    Ok(())
}

#[test]
fn a_masked_coin_keeps_a_share_of_a_product(rt: HostRuntime) -> Result<(), Fail> {
    let mask = and_shift::<2>(&Probes::new(), &first_share(), 1, 1, 0, 0);
    assert_eq!(rt; mask, 1);
    for coin in [0, 1] {
        let share = product(rt.alloc(), 1, 1, coin)?;
        let masked = coin ^ (mask & 1) as u8;
        assert_eq!(rt;
            product(rt.alloc(), 0, 0, masked)?,
            share,
            "with the coin {coin}"
        );
    }
    Ok(())
}
