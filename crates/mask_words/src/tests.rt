use super::{BadWords, Job, TapeName, Words, hex_bytes, keys_path, read_words, tape_name, wire_of};
use mask_tasks::{KeySize, LeaSize, Named, Task};
use std::alloc::{AllocError, Global};
use std::test::Fail;

fn words_of(alloc: Global, list: &[&str]) -> Result<Words, AllocError> {
    let mut words = Words::new(alloc);
    for word in list {
        if words.len() < 1_000_000 {
            words.push(word)?;
        }
    }
    Ok(words)
}

// Encryption by PRESENT.
fn enc(size: KeySize, iv: u64, order: u32) -> Job {
    Job::Enc {
        task: Task::Present { size, iv },
        order,
    }
}

// Encryption by LEA.
fn enc_lea(size: LeaSize, iv: u128, order: u32) -> Job {
    Job::Enc {
        task: Task::Lea { size, iv },
        order,
    }
}

#[test]
fn reads_the_words_of_enc(rt: HostRuntime) -> Result<(), Fail> {
    let cases: [(&[&str], Job); 3] = [
        (
            &["k", "t", "enc", "present-80", "1", "0000000000000000"],
            enc(KeySize::K80, 0, 1),
        ),
        (
            &["k", "t", "enc", "present-80", "7", "fFfFffffFFFFffff"],
            enc(KeySize::K80, 18_446_744_073_709_551_615, 7),
        ),
        (
            &["k", "t", "enc", "present-128", "2", "0123456789abCDEF"],
            enc(KeySize::K128, 0x0123_4567_89ab_cdef, 2),
        ),
    ];
    for (list, job) in cases {
        let words = words_of(rt.alloc(), list)?;
        assert_eq!(rt; read_words(&words), Ok(job));
    }
    Ok(())
}

#[test]
fn reads_the_words_of_enc_by_lea(rt: HostRuntime) -> Result<(), Fail> {
    let cases: [(&[&str], Job); 3] = [
        (
            &[
                "k",
                "t",
                "enc",
                "lea-128",
                "1",
                "00000000000000000000000000000000",
            ],
            enc_lea(LeaSize::K128, 0, 1),
        ),
        (
            &[
                "k",
                "t",
                "enc",
                "lea-192",
                "7",
                "fFfFffffFFFFffffFfffffffffffffff",
            ],
            enc_lea(
                LeaSize::K192,
                340_282_366_920_938_463_463_374_607_431_768_211_455,
                7,
            ),
        ),
        (
            &[
                "k",
                "t",
                "enc",
                "lea-256",
                "2",
                "0123456789abCDEF00112233445566aA",
            ],
            enc_lea(LeaSize::K256, 0x0123_4567_89ab_cdef_0011_2233_4455_66aa, 2),
        ),
    ];
    for (list, job) in cases {
        let words = words_of(rt.alloc(), list)?;
        assert_eq!(rt; read_words(&words), Ok(job));
    }
    Ok(())
}

#[test]
fn reads_the_words_of_enc_by_trivium(rt: HostRuntime) -> Result<(), Fail> {
    let list = ["k", "t", "enc", "trivium", "3", "0123456789abCDEF00fF"];
    let words = words_of(rt.alloc(), &list)?;
    let iv = [0x01, 0x23, 0x45, 0x67, 0x89, 0xab, 0xcd, 0xef, 0x00, 0xff];
    let task = Task::Trivium { iv };
    assert_eq!(rt; read_words(&words), Ok(Job::Enc { task, order: 3 }));
    Ok(())
}

// A tag of LightMAC.
fn mac_lightmac(size: KeySize, counter: u32, tag: u32, order: u32) -> Job {
    Job::Mac {
        task: Task::LightMac { size, counter, tag },
        order,
    }
}

// A tag of Chaskey-12.
fn mac_chaskey(tag: u32, order: u32) -> Job {
    Job::Mac {
        task: Task::Chaskey { tag },
        order,
    }
}

#[test]
fn reads_the_words_of_mac(rt: HostRuntime) -> Result<(), Fail> {
    let cases: [(&[&str], Job); 5] = [
        (
            &["k", "t", "mac", "chaskey-12", "1", "16"],
            mac_chaskey(16, 1),
        ),
        (
            &["k", "t", "mac", "chaskey-12", "7", "8"],
            mac_chaskey(8, 7),
        ),
        (
            &["k", "t", "mac", "lightmac-80", "1", "1", "8"],
            mac_lightmac(KeySize::K80, 1, 8, 1),
        ),
        (
            &["k", "t", "mac", "lightmac-80", "2", "2", "4"],
            mac_lightmac(KeySize::K80, 2, 4, 2),
        ),
        (
            &["k", "t", "mac", "lightmac-128", "7", "4", "4"],
            mac_lightmac(KeySize::K128, 4, 4, 7),
        ),
    ];
    for (list, job) in cases {
        let words = words_of(rt.alloc(), list)?;
        assert_eq!(rt; read_words(&words), Ok(job));
    }
    Ok(())
}

#[test]
fn reads_the_words_of_keys_and_circuits(rt: HostRuntime) -> Result<(), Fail> {
    let cases: [(&[&str], Job); 6] = [
        (&["k", "t", "split", "7"], Job::Split { order: 7 }),
        (&["k", "t", "join", "1"], Job::Join { order: 1 }),
        (
            &["k", "t", "emit", "present-80"],
            Job::Emit {
                circuit: Named::Present80,
            },
        ),
        (
            &["k", "t", "emit", "refresh-128"],
            Job::Emit {
                circuit: Named::Refresh128,
            },
        ),
        (
            &["k", "t", "emit", "lea-192"],
            Job::Emit {
                circuit: Named::Lea192,
            },
        ),
        (
            &["k", "t", "emit", "refresh-256"],
            Job::Emit {
                circuit: Named::Refresh256,
            },
        ),
    ];
    for (list, job) in cases {
        let words = words_of(rt.alloc(), list)?;
        assert_eq!(rt; read_words(&words), Ok(job));
    }
    Ok(())
}

#[test]
fn refuses_the_words_of_enc(rt: HostRuntime) -> Result<(), Fail> {
    let cases: [(&[&str], u32); 9] = [
        (&["k", "t", "enc"], 4),
        (&["k", "t", "enc", "des"], 4),
        (&["k", "t", "enc", "present-64", "1", "0000000000000000"], 4),
        (&["k", "t", "enc", "present-80", "8", "0000000000000000"], 5),
        (&["k", "t", "enc", "present-80", "1"], 6),
        (
            &["k", "t", "enc", "present-80", "1", "00000000000000000"],
            6,
        ),
        (&["k", "t", "enc", "present-80", "1", "000000000000000"], 6),
        (&["k", "t", "enc", "present-80", "1", "+000000000000000"], 6),
        (
            &["k", "t", "enc", "present-80", "1", "0000000000000000", "x"],
            7,
        ),
    ];
    for (list, place) in cases {
        let words = words_of(rt.alloc(), list)?;
        assert_eq!(rt; read_words(&words), Err(BadWords { place }));
    }
    Ok(())
}

#[test]
fn refuses_the_words_of_enc_by_lea(rt: HostRuntime) -> Result<(), Fail> {
    let cases: [(&[&str], u32); 7] = [
        (
            &[
                "k",
                "t",
                "enc",
                "lea-512",
                "1",
                "00000000000000000000000000000000",
            ],
            4,
        ),
        (
            &[
                "k",
                "t",
                "enc",
                "lea-128",
                "0",
                "00000000000000000000000000000000",
            ],
            5,
        ),
        (
            &[
                "k",
                "t",
                "enc",
                "lea-128",
                "8",
                "00000000000000000000000000000000",
            ],
            5,
        ),
        (&["k", "t", "enc", "lea-128", "1", "0000000000000000"], 6),
        (
            &[
                "k",
                "t",
                "enc",
                "lea-192",
                "1",
                "000000000000000000000000000000000",
            ],
            6,
        ),
        (
            &[
                "k",
                "t",
                "enc",
                "lea-256",
                "1",
                "+0000000000000000000000000000000",
            ],
            6,
        ),
        (
            &[
                "k",
                "t",
                "enc",
                "lea-256",
                "1",
                "00000000000000000000000000000000",
                "x",
            ],
            7,
        ),
    ];
    for (list, place) in cases {
        let words = words_of(rt.alloc(), list)?;
        assert_eq!(rt; read_words(&words), Err(BadWords { place }));
    }
    Ok(())
}

#[test]
fn refuses_the_words_of_enc_by_trivium(rt: HostRuntime) -> Result<(), Fail> {
    let cases: [(&[&str], u32); 6] = [
        (
            &["k", "t", "enc", "trivium-80", "1", "00000000000000000000"],
            4,
        ),
        (
            &["k", "t", "enc", "trivium", "8", "00000000000000000000"],
            5,
        ),
        (&["k", "t", "enc", "trivium", "1", "0000000000000000000"], 6),
        (&["k", "t", "enc", "trivium", "1", "0000000000000000"], 6),
        (
            &["k", "t", "enc", "trivium", "1", "0000000000000000000g"],
            6,
        ),
        (
            &["k", "t", "enc", "trivium", "1", "00000000000000000000", "x"],
            7,
        ),
    ];
    for (list, place) in cases {
        let words = words_of(rt.alloc(), list)?;
        assert_eq!(rt; read_words(&words), Err(BadWords { place }));
    }
    Ok(())
}

#[test]
fn refuses_the_words_of_mac(rt: HostRuntime) -> Result<(), Fail> {
    let cases: [(&[&str], u32); 11] = [
        (&["k", "t", "mac"], 4),
        (&["k", "t", "mac", "chaskey", "1", "16"], 4),
        (&["k", "t", "mac", "lightmac-256", "1", "1", "8"], 4),
        (&["k", "t", "mac", "chaskey-12", "8", "16"], 5),
        (&["k", "t", "mac", "chaskey-12", "1", "4"], 6),
        (&["k", "t", "mac", "lightmac-80", "1", "3", "8"], 6),
        (&["k", "t", "mac", "lightmac-80", "1", "01", "8"], 6),
        (&["k", "t", "mac", "chaskey-12", "1", "16", "x"], 7),
        (&["k", "t", "mac", "lightmac-80", "1", "1"], 7),
        (&["k", "t", "mac", "lightmac-80", "1", "1", "16"], 7),
        (&["k", "t", "mac", "lightmac-80", "1", "1", "8", "x"], 8),
    ];
    for (list, place) in cases {
        let words = words_of(rt.alloc(), list)?;
        assert_eq!(rt; read_words(&words), Err(BadWords { place }));
    }
    Ok(())
}

#[test]
fn refuses_the_words_of_keys_and_circuits(rt: HostRuntime) -> Result<(), Fail> {
    let cases: [(&[&str], u32); 6] = [
        (&["k", "t", "split", "8"], 4),
        (&["k", "t", "split", "1", "x"], 5),
        (&["k", "t", "join"], 4),
        (&["k", "t", "join", "0"], 4),
        (&["k", "t", "emit", "present-64"], 4),
        (&["k", "t", "emit", "present-80", "1"], 5),
    ];
    for (list, place) in cases {
        let words = words_of(rt.alloc(), list)?;
        assert_eq!(rt; read_words(&words), Err(BadWords { place }));
    }
    Ok(())
}

#[test]
fn reads_the_words_of_a_job(rt: HostRuntime) -> Result<(), Fail> {
    let cases: [(&[&str], Job); 5] = [
        (&["k", "t", "eval", "7", "01"], Job::Eval { order: 7 }),
        (&["k", "t", "check"], Job::Check),
        (&["k", "t", "upgrade"], Job::Upgrade),
        (&["k", "t", "probe", "1"], Job::Probe { order: 1 }),
        (
            &["k", "t", "probe", "2", "0", "4294967295"],
            Job::Probe { order: 2 },
        ),
    ];
    for (list, job) in cases {
        let words = words_of(rt.alloc(), list)?;
        assert_eq!(rt; read_words(&words), Ok(job));
    }
    Ok(())
}

#[test]
fn refuses_words_at_their_place(rt: HostRuntime) -> Result<(), Fail> {
    let cases: [(&[&str], u32); 13] = [
        (&[], 1),
        (&["k", "t"], 3),
        (&["k", "seed:00", "check"], 2),
        (&["k", "t", "check", "more"], 4),
        (&["k", "t", "eval", "0", "01"], 4),
        (&["k", "t", "eval", "8", "01"], 4),
        (&["k", "t", "eval", "1", "0"], 5),
        (&["k", "t", "probe"], 4),
        (&["k", "t", "probe", "0", "1"], 4),
        (&["k", "t", "probe", "1", "01"], 5),
        (&["k", "t", "probe", "1", "+1"], 5),
        (&["k", "t", "probe", "1", "4294967296"], 5),
        (&["k", "t", "probe", "1", "3", "x"], 6),
    ];
    for (list, place) in cases {
        let words = words_of(rt.alloc(), list)?;
        assert_eq!(rt; read_words(&words), Err(BadWords { place }));
    }
    Ok(())
}

#[test]
fn reads_the_words_of_self(rt: HostRuntime) -> Result<(), Fail> {
    let cases: [(&[&str], (u64, u32, u32)); 4] = [
        (&["k", "t", "self", "1", "4096", "1"], (1, 4096, 1)),
        (&["k", "t", "self", "0", "1", "7"], (0, 1, 7)),
        (
            &["k", "t", "self", "18446744073709551615", "1", "2"],
            (18_446_744_073_709_551_615, 1, 2),
        ),
        (
            &["k", "t", "self", "10", "1048576", "3"],
            (10, 1_048_576, 3),
        ),
    ];
    for (list, (seed, count, order)) in cases {
        let words = words_of(rt.alloc(), list)?;
        assert_eq!(rt; read_words(&words), Ok(Job::SelfRun { seed, count, order }));
    }
    Ok(())
}

#[test]
fn refuses_the_words_of_self(rt: HostRuntime) -> Result<(), Fail> {
    let cases: [(&[&str], u32); 10] = [
        (&["k", "t", "self"], 4),
        (&["k", "t", "self", "18446744073709551616", "1", "1"], 4),
        (&["k", "t", "self", "01", "1", "1"], 4),
        (&["k", "t", "self", "-1", "1", "1"], 4),
        (&["k", "t", "self", "1", "0", "1"], 5),
        (&["k", "t", "self", "1", "1048577", "1"], 5),
        (&["k", "t", "self", "1", "+1", "1"], 5),
        (&["k", "t", "self", "1", "1", "8"], 6),
        (&["k", "t", "self", "1", "1"], 6),
        (&["k", "t", "self", "1", "1", "1", "x"], 7),
    ];
    for (list, place) in cases {
        let words = words_of(rt.alloc(), list)?;
        assert_eq!(rt; read_words(&words), Err(BadWords { place }));
    }
    Ok(())
}

// The number of the last wire that `probe` names.
fn last_wire(words: &Words) -> Option<u32> {
    let count = words.len();
    match read_words(words) {
        Ok(Job::Probe { .. }) if count > 4 => Some(wire_of(words.word(count - 1))),
        _ => None,
    }
}

#[test]
fn reads_the_number_of_a_wire(rt: HostRuntime) -> Result<(), Fail> {
    let words = words_of(rt.alloc(), &["k", "t", "probe", "1", "7", "4294967295"])?;
    assert_eq!(rt; last_wire(&words), Some(4_294_967_295));
    Ok(())
}

#[test]
fn reads_what_the_first_two_words_name(rt: HostRuntime) -> Result<(), Fail> {
    let seed = "seed:00112233445566778899aAbBcCdDeEfF00112233445566778899aabbccddeeff";
    let words = words_of(rt.alloc(), &["keys", seed])?;
    assert_eq!(rt; keys_path(&words), Some("keys"));
    let TapeName::Seed(bytes) = tape_name(&words) else {
        panic!(rt; "a seed");
    };
    assert_eq!(rt; bytes[1], 0x11);
    assert_eq!(rt; bytes[31], 0xff);
    let words = words_of(rt.alloc(), &["-", "tape"])?;
    assert_eq!(rt; keys_path(&words), None);
    assert!(rt; matches!(tape_name(&words), TapeName::Path("tape")));
    for name in ["-", "seed:00"] {
        let words = words_of(rt.alloc(), &["", name])?;
        assert_eq!(rt; keys_path(&words), None);
        assert!(rt; matches!(tape_name(&words), TapeName::NoTape));
    }
    Ok(())
}

#[test]
fn reads_hexadecimal(rt: HostRuntime) -> Result<(), Fail> {
    let words = words_of(rt.alloc(), &["k", "t", "eval", "1", "0aFf"])?;
    if words.len() == 5 && read_words(&words) == Ok(Job::Eval { order: 1 }) {
        assert_eq!(rt;
            hex_bytes(rt.alloc(), words.word(4))?.as_slice(),
            [0x0a, 0xff].as_slice()
        );
    }
    Ok(())
}
