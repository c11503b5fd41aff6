use crate::{
    KeySize, LeaSize, Named, Task, chaskey_tag_length, circuit_named, counter_length, key_length,
    lightmac_tag_length, message_limit,
};

#[test]
fn circuits_are_found_by_name(rt: HostRuntime) {
    assert_eq!(rt; circuit_named("present-128"), Some(Named::Present128));
    assert_eq!(rt; circuit_named("refresh-80"), Some(Named::Refresh80));
    assert_eq!(rt; circuit_named("present-64"), None);
    assert_eq!(rt; Named::Present80.inputs(), 208);
    assert_eq!(rt; Named::Present80.outputs(), 64);
    assert_eq!(rt; Named::Refresh128.outputs(), 128);
    assert_eq!(rt; circuit_named("lea-192"), Some(Named::Lea192));
    assert_eq!(rt; Named::Lea192.inputs(), 448);
    assert_eq!(rt; Named::Lea256.outputs(), 128);
    assert_eq!(rt; circuit_named("refresh-256"), Some(Named::Refresh256));
    assert_eq!(rt; Named::Refresh192.inputs(), 192);
}

#[test]
fn circuits_of_streams_and_tags_are_found_by_name(rt: HostRuntime) {
    for (word, name, inputs, outputs) in [
        ("trivium-start", Named::TriviumStart, 160, 288),
        ("trivium-step", Named::TriviumStep, 352, 352),
        ("lightmac-step-80", Named::LightmacStep80, 208, 64),
        ("lightmac-end-80", Named::LightmacEnd80, 208, 64),
        ("lightmac-step-128", Named::LightmacStep128, 256, 64),
        ("lightmac-end-128", Named::LightmacEnd128, 256, 64),
        ("chaskey-start", Named::ChaskeyStart, 128, 128),
        ("chaskey-step", Named::ChaskeyStep, 256, 128),
        ("chaskey-end-whole", Named::ChaskeyEndWhole, 384, 128),
        ("chaskey-end-short", Named::ChaskeyEndShort, 384, 128),
    ] {
        assert_eq!(rt; circuit_named(word), Some(name));
        assert_eq!(rt; name.inputs(), inputs);
        assert_eq!(rt; name.outputs(), outputs);
    }
    assert_eq!(rt; circuit_named("chaskey-end"), None);
}

#[test]
fn tasks_have_lengths(rt: HostRuntime) {
    let cipher = Task::Present {
        size: KeySize::K80,
        iv: 0,
    };
    assert_eq!(rt; key_length(&cipher), 10);
    assert_eq!(rt; message_limit(&cipher), 268_435_456);
    let cipher = Task::Lea {
        size: LeaSize::K192,
        iv: 1,
    };
    assert_eq!(rt; key_length(&cipher), 24);
    assert_eq!(rt; message_limit(&cipher), 268_435_456);
    let cipher = Task::Trivium { iv: [0; 10] };
    assert_eq!(rt; key_length(&cipher), 10);
    assert_eq!(rt; message_limit(&cipher), 268_435_456);
}

#[test]
fn codes_have_lengths(rt: HostRuntime) {
    for (size, counter, key, limit) in [
        (KeySize::K80, 1, 20, 1_792),
        (KeySize::K128, 2, 32, 393_216),
        (KeySize::K128, 4, 32, 268_435_456),
    ] {
        let code = Task::LightMac {
            size,
            counter,
            tag: 8,
        };
        assert_eq!(rt; key_length(&code), key);
        assert_eq!(rt; message_limit(&code), limit);
    }
    let code = Task::Chaskey { tag: 16 };
    assert_eq!(rt; key_length(&code), 16);
    assert_eq!(rt; message_limit(&code), 268_435_456);
}

#[test]
fn counters_and_tags_have_lengths(rt: HostRuntime) {
    for (counter, length) in [(1, 1), (2, 2), (4, 4), (3, 4)] {
        assert_eq!(rt; counter_length(counter), length);
    }
    for (tag, of_lightmac, of_chaskey) in [(4, 4, 16), (8, 8, 8), (16, 8, 16)] {
        assert_eq!(rt; lightmac_tag_length(tag), of_lightmac);
        assert_eq!(rt; chaskey_tag_length(tag), of_chaskey);
    }
}
