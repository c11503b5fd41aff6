//! What is done with a message under a key.

ghost use Rattle.std.specs.Prelude.{◌≡◌, length};
ghost use Rattle.mask_tasks.specs.Tasks.{IsTask, key_bytes, longest_message};

use crate::lengths::longest_lightmac;
use crate::sizes::{KeySize, LeaSize};

/// A cipher and its IV, or a message authentication code and its sizes in bytes. Block ciphers are used in counter mode, and their
/// IV is the big-endian number of its bytes.
#[derive(Clone, Copy, Debug, PartialEq, Eq)]
pub enum Task {
    /// PRESENT (ISO/IEC 29192-2)
    Present {
        size: KeySize,
        iv: u64,
    },
    /// LEA (ISO/IEC 29192-2)
    Lea {
        size: LeaSize,
        iv: u128,
    },
    /// Trivium (ISO/IEC 29192-3)
    Trivium {
        iv: [u8; 10],
    },
    /// LightMAC over PRESENT (ISO/IEC 29192-6), with a counter of 1, 2 or 4 bytes, and a tag of 4 or 8. Other numbers stand for
    /// the greatest.
    LightMac {
        size: KeySize,
        counter: u32,
        tag: u32,
    },
    /// Chaskey-12 (ISO/IEC 29192-6), with a tag of 8 or 16 bytes. Other numbers stand for the greatest.
    Chaskey {
        tag: u32,
    },
}

/// The length of a key in bytes.
pub fn key_length(task: &Task) -> u32
    ensures { result ≡ key_bytes task.now }
{
    match *task {
        Task::Present { size, .. } => size.bytes(),
        Task::Lea { size, .. } => size.bytes(),
        Task::Trivium { .. } => 10,
        Task::LightMac { size, .. } => 2 * size.bytes(),
        Task::Chaskey { .. } => 16,
    }
}

/// The most bytes of a message.
pub fn message_limit(task: &Task) -> u64
    ensures { result ≡ longest_message task.now }
{
    match *task {
        Task::Present { .. } | Task::Lea { .. } | Task::Trivium { .. } => 268_435_456,
        Task::LightMac { counter, .. } => longest_lightmac(counter),
        Task::Chaskey { .. } => 268_435_456,
    }
}

/// The IV of Trivium has ten bytes.
pub fn tasks_are_whole(task: &Task)
    ensures { IsTask task.now }
{
    match *task {
        Task::Trivium { iv } => has_ten_bytes(&iv),
        Task::Present { .. } | Task::Lea { .. } => {}
        Task::LightMac { .. } | Task::Chaskey { .. } => {}
    }
}

// An array is as long as its type says.
fn has_ten_bytes(iv: &[u8; 10])
    ensures { length iv.now ≡ 10 }
{
    let _first = iv[0];
}
