use super::Shares;

// Three shares of 6: 5, 3 and 0.
#[test]
fn calls_act_share_by_share(rt: HostRuntime) {
    let six = Shares::from_parts([5, 3, 0]);
    assert_eq!(rt; six.count(), 3);
    assert_eq!(rt; six.unmask(), 6);

    let sum = six.xor(Shares::public(12));
    for (i, want) in [9, 3, 0].into_iter().enumerate() {
        assert_eq!(rt; sum.share(i), want, "share {i}");
    }

    let complement = six.not();
    for (i, want) in [!5, 3, 0].into_iter().enumerate() {
        assert_eq!(rt; complement.share(i), want, "share {i}");
    }
}

// In lane 0 the shares are 1, 0 and 0, and in lane 1 they are 0, 1 and 0.
#[test]
fn lane_0_stands_in_all_lanes(rt: HostRuntime) {
    let all = Shares::from_parts([5, 2, 0]).in_all_lanes();
    for (i, want) in [u64::MAX, 0, 0].into_iter().enumerate() {
        assert_eq!(rt; all.share(i), want, "share {i}");
    }
}
