use super::{Places, Probes, and_needs, and_share, and_shift, ref_needs, ref_share, ref_shift};
use std::test::Fail;

// A product of three shares: wire 18 is the first partial sum of share 0, and wire 10 is v_01.
#[test]
fn needs_of_a_product(rt: HostRuntime) -> Result<(), Fail> {
    let mut probes = Probes::new();
    probes.push(18);
    probes.push(10);
    let (left, right) = and_needs::<3>(&probes, &Places::new());
    assert_eq!(rt; left.as_slice(), [0].as_slice());
    assert_eq!(rt; right.as_slice(), [0, 1].as_slice());
    Ok(())
}

// A refresh of three shares: wire 1 is share 0 after its first update.
#[test]
fn needs_of_a_refresh(rt: HostRuntime) -> Result<(), Fail> {
    let mut probes = Probes::new();
    probes.push(1);
    let mut outputs = Places::new();
    outputs.push(2);
    let needed = ref_needs::<3>(&probes, &outputs);
    assert_eq!(rt; needed.as_slice(), [0].as_slice());
    Ok(())
}

// A refresh of two shares, of which share 0 is named: its one fresh bit is flipped.
#[test]
fn mask_of_a_refresh(rt: HostRuntime) -> Result<(), Fail> {
    let mut outputs = Places::new();
    outputs.push(0);
    assert_eq!(rt; ref_shift::<2>(&Probes::new(), &outputs, 0, 3), 1);
    Ok(())
}

// A product of two shares, of which share 0 is named: the fresh bit makes up for what its term changes by.
#[test]
fn mask_of_a_product(rt: HostRuntime) -> Result<(), Fail> {
    let mut outputs = Places::new();
    outputs.push(0);
    assert_eq!(rt; and_shift::<2>(&Probes::new(), &outputs, 1, 1, 0, 0), 1);
    Ok(())
}

// A probe on v_01 of a product of three shares needs no share: the fresh bit of its pair makes up for its term.
#[test]
fn a_probe_behind_the_fresh_bit_needs_nothing(rt: HostRuntime) -> Result<(), Fail> {
    let mut probes = Probes::new();
    probes.push(10);
    let (left, right) = and_needs::<3>(&probes, &Places::new());
    assert!(rt; left.is_empty());
    assert!(rt; right.is_empty());
    assert_eq!(rt; and_shift::<3>(&probes, &Places::new(), 1, 2, 0, 0), 1);
    Ok(())
}

// On three shares wire 19 of a product is the last partial sum of share 0, and wire 4 of a refresh the last update of
// share 0.
#[test]
fn last_wires_are_output_shares(rt: HostRuntime) -> Result<(), Fail> {
    assert_eq!(rt; and_share::<3>(19), Some(0));
    assert!(rt; and_share::<3>(18).is_none());
    assert_eq!(rt; ref_share::<3>(4), Some(0));
    assert!(rt; ref_share::<3>(3).is_none());
    Ok(())
}
