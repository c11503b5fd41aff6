//! What a session takes from its task.

ghost use Rattle.std.specs.Prelude.{◌≡◌, ℕ, ◌+◌, ◌*◌, ◌<◌, ◌≤◌, true, false, List, length, map, sum_by, IfOk};
ghost use Rattle.mask_bits.specs.Lanes.{lane};
ghost use Rattle.mask_check.specs.Costs.{most_steps};
ghost use Rattle.mask_tasks.specs.Sizes.{present_bytes, lea_bytes};
ghost use Rattle.mask_tasks.specs.Tasks.{key_bytes};
ghost use Rattle.mask_tasks.specs.Limits.{counter_bytes, lightmac_tag, chaskey_tag};
ghost use Rattle.mask_macs.specs.Codes.{chaskey_code, lightmac_code};
ghost use Rattle.mask_ciphers.specs.Methods.{IsCipher, known_behind, next_length, start_steps};
ghost use Rattle.mask_ciphers.specs.Tasks.{method_of, present_mode, lea_mode};
ghost use Rattle.mask_plan.specs.Sessions.{batch_length, bit_place, block_length, output_bits};
ghost use Rattle.mask_tagging.specs.Runs.{between};
ghost use Rattle.mask_plan.specs.Inside.{Begin, BeginsRun, BeginsTag};

use crate::runs::TaskRun;
use mask_circuit::Steps;
use mask_counter::{BitOrder, CounterRun};
use mask_keystream::StreamRun;
use mask_lea::lea_circuit;
use mask_present::present_circuit;
use mask_refresh::refresh_circuit;
use mask_shares::Shares;
use mask_tagging::{ChaskeyRun, LightMacRun, TagRun};
use mask_tasks::{KeySize, LeaSize, Task, chaskey_tag_length, counter_length, lightmac_tag_length};
use std::alloc::{AllocError, Global};
use std::sync::ledger::Ledger;

/// How many bytes are taken at once.
pub(crate) fn bytes_at_once(task: &Task) -> usize
    ensures { result ≡ batch_length task.now }
{
    match *task {
        Task::Present { .. } => 512,
        Task::Lea { .. } => 1_024,
        Task::Trivium { .. } => 8,
        Task::LightMac { counter, .. } => 8 - counter_length(counter) as usize,
        Task::Chaskey { .. } => 16,
    }
}

/// How many bytes a block has, or a tag.
pub(crate) fn bytes_of_block(task: &Task) -> usize
    ensures { result ≡ block_length task.now }
{
    match *task {
        Task::Present { .. } | Task::Trivium { .. } => 8,
        Task::Lea { .. } => 16,
        Task::LightMac { tag, .. } => lightmac_tag_length(tag) as usize,
        Task::Chaskey { tag } => chaskey_tag_length(tag) as usize,
    }
}

/// Whether a task makes a tag, and not a ciphertext.
pub(crate) fn makes_tag(task: &Task) -> bool
    ensures cipher { result ≡ false → IsCipher (method_of task.now) }
    ensures tag { result ≡ true → IsCipher (method_of task.now) → ⊥ }
{
    match *task {
        Task::Present { .. } | Task::Lea { .. } | Task::Trivium { .. } => false,
        Task::LightMac { .. } | Task::Chaskey { .. } => true,
    }
}

/// How many bytes of the message are known behind a piece that comes next, the last or not.
pub(crate) fn bytes_known_behind(task: &Task, last: bool) -> u64
    ensures value { result ≡ known_behind (method_of task.now) last }
    ensures few { result ≤ 1 }
{
    if makes_tag(task) && !last { 1 } else { 0 }
}

/// How many bytes are written of a piece, the last or not.
pub(crate) fn bytes_written(task: &Task, count: u64, last: bool) -> u64
    ensures { (piece : List ℕ) → length piece ≡ count → result ≡ next_length (method_of task.now) piece last }
{
    match *task {
        Task::Present { .. } | Task::Lea { .. } | Task::Trivium { .. } => count,
        Task::LightMac { .. } | Task::Chaskey { .. } if last => bytes_of_block(task) as u64,
        Task::LightMac { .. } | Task::Chaskey { .. } => 0,
    }
}

/// Where a block has bit `place` of its byte `byte`.
pub(crate) fn place_in_block(task: &Task, byte: u32, place: u32) -> usize
    requires byte { byte < block_length task.now }
    requires place { place < 8 }
    ensures value { result ≡ bit_place task.now byte place }
    ensures bound { result < output_bits task.now }
{
    match *task {
        Task::Present { .. } | Task::LightMac { .. } => 8 * (7 - byte as usize) + place as usize,
        Task::Lea { .. } | Task::Chaskey { .. } => 8 * byte as usize + place as usize,
        Task::Trivium { .. } => 288 + (8 * byte as usize + place as usize),
    }
}

/// A run of the task with the key whose bits have these shares in lane 0.
pub(crate) fn run_of<const N: usize, L: Ledger>(
    alloc: Global,
    task: &Task,
    key: &[Shares<N>],
    steps: &mut Steps<L>,
) -> Result<TaskRun<N>, AllocError>
    requires some { 2 ≤ N }
    requires few { N ≤ 8 }
    requires length { length key.now ≡ 8 * key_bytes task.now }
    ensures begins { IfOk result (Begin (method_of task.now) (map (lane 0) key.now)) }
    ensures steps { steps.new ≤ steps.old + start_steps (method_of task.now) }
{
    match *task {
        Task::Present { size, iv } => {
            Ok(TaskRun::Counter(present_run(alloc, size, iv, key, steps)?))
        }
        Task::Lea { size, iv } => Ok(TaskRun::Counter(lea_run(alloc, size, iv, key, steps)?)),
        Task::Trivium { iv } => Ok(TaskRun::Stream(StreamRun::new(alloc, &iv, key, steps)?)),
        Task::LightMac { size, counter, tag } => {
            Ok(TaskRun::Tag(lightmac_run(alloc, size, counter, tag, key, steps)?))
        }
        Task::Chaskey { tag } => Ok(TaskRun::Tag(chaskey_run(alloc, tag, key, steps)?)),
    }
}

// A run of LightMAC with this key and these sizes.
fn lightmac_run<const N: usize, L: Ledger>(
    alloc: Global,
    size: KeySize,
    counter: u32,
    tag: u32,
    key: &[Shares<N>],
    steps: &mut Steps<L>,
) -> Result<TagRun<N>, AllocError>
    requires some { 2 ≤ N }
    requires few { N ≤ 8 }
    requires length { length key.now ≡ 8 * (present_bytes size + present_bytes size) }
    ensures begins { IfOk result (λ run. BeginsTag (lightmac_code size (counter_bytes counter) (lightmac_tag tag)) (map (lane 0) key.now) (between run)) }
    ensures steps { steps.new ≤ steps.old + sum_by most_steps (lightmac_code size (counter_bytes counter) (lightmac_tag tag)).circuits }
{
    let run = LightMacRun::new(
        alloc,
        size,
        counter_length(counter),
        lightmac_tag_length(tag),
        key,
        steps,
    )?;
    Ok(TagRun::LightMac(run))
}

// A run of Chaskey-12 with this key and a tag of this size.
fn chaskey_run<const N: usize, L: Ledger>(
    alloc: Global,
    tag: u32,
    key: &[Shares<N>],
    steps: &mut Steps<L>,
) -> Result<TagRun<N>, AllocError>
    requires some { 2 ≤ N }
    requires few { N ≤ 8 }
    requires length { length key.now ≡ 128 }
    ensures begins { IfOk result (λ run. BeginsTag (chaskey_code (chaskey_tag tag)) (map (lane 0) key.now) (between run)) }
    ensures steps { steps.new ≤ steps.old + sum_by most_steps (chaskey_code (chaskey_tag tag)).circuits }
{
    let run = ChaskeyRun::new(alloc, chaskey_tag_length(tag), key, steps)?;
    Ok(TagRun::Chaskey(run))
}

// A run of PRESENT with this key and IV.
fn present_run<const N: usize, L: Ledger>(
    alloc: Global,
    size: KeySize,
    iv: u64,
    key: &[Shares<N>],
    steps: &mut Steps<L>,
) -> Result<CounterRun<N>, AllocError>
    requires some { 2 ≤ N }
    requires few { N ≤ 8 }
    requires length { length key.now ≡ 8 * present_bytes size }
    ensures begins { IfOk result (BeginsRun (present_mode size iv) (map (lane 0) key.now)) }
    ensures steps { steps.new ≤ steps.old + (most_steps (present_mode size iv).circuit + most_steps (present_mode size iv).refresh) }
{
    let circuit = present_circuit(alloc, size, steps)?;
    let refresh = refresh_circuit(alloc, 8 * size.bytes(), steps)?;
    CounterRun::new(
        alloc,
        circuit,
        refresh,
        8,
        BitOrder::HighFirst,
        u128::from(iv),
        key,
    )
}

// A run of LEA with this key and IV.
fn lea_run<const N: usize, L: Ledger>(
    alloc: Global,
    size: LeaSize,
    iv: u128,
    key: &[Shares<N>],
    steps: &mut Steps<L>,
) -> Result<CounterRun<N>, AllocError>
    requires some { 2 ≤ N }
    requires few { N ≤ 8 }
    requires length { length key.now ≡ 8 * lea_bytes size }
    ensures begins { IfOk result (BeginsRun (lea_mode size iv) (map (lane 0) key.now)) }
    ensures steps { steps.new ≤ steps.old + (most_steps (lea_mode size iv).circuit + most_steps (lea_mode size iv).refresh) }
{
    let circuit = lea_circuit(alloc, size, steps)?;
    let refresh = refresh_circuit(alloc, 8 * size.bytes(), steps)?;
    CounterRun::new(alloc, circuit, refresh, 16, BitOrder::LowFirst, iv, key)
}
