//! The sizes of the message authentication codes in bytes.

ghost use Rattle.std.specs.Prelude.{◌≡◌};
ghost use Rattle.mask_tasks.specs.Limits.{counter_bytes, lightmac_tag, chaskey_tag, longest_lightmac};

/// The length of a counter of LightMAC: 1, 2 or 4, and 4 for any other number.
pub fn counter_length(counter: u32) -> u32
    ensures { result ≡ counter_bytes counter }
{
    match counter {
        1 => 1,
        2 => 2,
        _ => 4,
    }
}

/// The length of a tag of LightMAC: 4 or 8, and 8 for any other number.
pub fn lightmac_tag_length(tag: u32) -> u32
    ensures { result ≡ lightmac_tag tag }
{
    if tag == 4 { 4 } else { 8 }
}

/// The length of a tag of Chaskey-12: 8 or 16, and 16 for any other number.
pub fn chaskey_tag_length(tag: u32) -> u32
    ensures { result ≡ chaskey_tag tag }
{
    if tag == 8 { 8 } else { 16 }
}

/// The most bytes of a message of LightMAC with this counter: so many as there are counters for, and 256 MiB at most.
pub(crate) fn longest_lightmac(counter: u32) -> u64
    ensures { result ≡ longest_lightmac (counter_bytes counter) }
{
    match counter {
        1 => 1_792,
        2 => 393_216,
        _ => 268_435_456,
    }
}
