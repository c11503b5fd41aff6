//! Four neighbouring values of a list.

ghost use Rattle.std.specs.Prelude.{◌≡◌, ◌+◌, ◌≤◌, length, take, drop};
ghost use Rattle.mask_present.specs.Rounds.{with_stretch};

/// The four values from place `at` on.
pub(crate) fn nibble(values: &[u32], at: usize) -> [u32; 4]
    requires { at + 4 ≤ length values.now }
    ensures { result ≡ take 4 (drop at values.now) }
{
    [values[at], values[at + 1], values[at + 2], values[at + 3]]
}

/// Puts four values in place of those from place `at` on.
pub(crate) fn set_nibble(values: &mut [u32], at: usize, nibble: [u32; 4])
    requires { at + 4 ≤ length values.old }
    ensures { values.new ≡ with_stretch at nibble values.old }
{
    values[at..at + 4].copy_from_slice(&nibble);
}
