//! The table of commands, and the job that words name by it.

ghost use Rattle.std.specs.Prelude.{◌≡◌, ℕ, ◌+◌, ◌-◌, ◌*◌, ◌<◌, ◌≤◌, List, length, IfOk, IfErr, drop, take};
ghost use Rattle.std.specs.Prelude.{IsTrue, ◌↔◌, is_some};
ghost use Rattle.mask_words.specs.WordTests.{is_order, are_digits, present_size, lea_size, lightmac_size, is_counter, is_lightmac_tag, is_chaskey_tag, is_message_seed, is_count, number_of, circuit_named};
ghost use Rattle.mask_words.specs.Jobs.{tests_of, tail_of, reach, Match, order_of, present_size_of, lea_size_of, lightmac_size_of, iv_of, circuit_of, job_of, IsJob, IsRefused, HasOrder, HasCount, HasWords, HaveOneJob, HaveOnePlace};
ghost use Rattle.mask_words.specs.Naming.{hex_bytes};
ghost use Rattle.mask_words.specs.declared.table.Form.TheVariants as forms;

use crate::command_lines::Words;
use crate::word_tests::Command::{
    Check, Emit, Enc, Eval, Join, Mac, Probe, SelfRun, Split, Upgrade,
};
use crate::word_tests::Test::{
    self, Chaskey, ChaskeyTag, Circuit, Count, Counter, Digits, Given, Hex, Lea, LightMac,
    LightMacTag, Order, Present, Seed, Tape, Trivium,
};
use crate::word_tests::{lea_size, lightmac_size, present_size};
use hex::FromHex;
use mask_tasks::{KeySize, LeaSize, Named, Task, circuit_named};

/// A form that a command line may have: a row of the table of commands.
#[derive(Clone, Copy, Debug, PartialEq, Eq)]
pub enum Form {
    /// `KEYS TAPE enc CIPHER ORDER IV`, where CIPHER is PRESENT with a key size
    EncPresent,
    /// `KEYS TAPE enc CIPHER ORDER IV`, where CIPHER is LEA with a key size
    EncLea,
    /// `KEYS TAPE enc trivium ORDER IV`
    EncTrivium,
    /// `KEYS TAPE mac chaskey-12 ORDER TAG`
    MacChaskey,
    /// `KEYS TAPE mac CODE ORDER COUNTER TAG`, where CODE is LightMAC with a key size
    MacLightMac,
    /// `KEYS TAPE eval ORDER HEX`
    Eval,
    /// `KEYS TAPE check`
    Check,
    /// `KEYS TAPE upgrade`
    Upgrade,
    /// `KEYS TAPE probe ORDER WIRE ..`, with no, one or more WIRE words
    Probe,
    /// `KEYS TAPE split ORDER`
    Split,
    /// `KEYS TAPE join ORDER`
    Join,
    /// `KEYS TAPE emit CIRCUIT`
    Emit,
    /// `KEYS TAPE self SEED COUNT ORDER`
    SelfRun,
}

/// The rows of the table.
pub const FORMS: [Form; 13] = [
    Form::EncPresent,
    Form::EncLea,
    Form::EncTrivium,
    Form::MacChaskey,
    Form::MacLightMac,
    Form::Eval,
    Form::Check,
    Form::Upgrade,
    Form::Probe,
    Form::Split,
    Form::Join,
    Form::Emit,
    Form::SelfRun,
];

/// What the words of a command line ask for.
#[derive(Clone, Copy, Debug, PartialEq, Eq)]
pub enum Job {
    /// Encrypt the input by this task at this order, 1 to 7.
    Enc { task: Task, order: u32 },
    /// Make the tag of the input by this task at this order, 1 to 7.
    Mac { task: Task, order: u32 },
    /// Evaluate a circuit at this order, 1 to 7.
    Eval { order: u32 },
    /// Say whether a circuit is accepted, and whether it is strong.
    Check,
    /// Write a circuit text of either version in version 2.
    Upgrade,
    /// Evaluate a circuit at this order, 1 to 7, with probes on wires: the words from the fifth on.
    Probe { order: u32 },
    /// Share a key at this order, 1 to 7.
    Split { order: u32 },
    /// Put the key together again that was shared at this order, 1 to 7.
    Join { order: u32 },
    /// Write the text of a circuit that is built in.
    Emit { circuit: Named },
    /// Encrypt a message that is made of a seed, at this order, 1 to 7, and report it.
    SelfRun { seed: u64, count: u32, order: u32 },
}

/// The words are no job. No job's words begin with the first `place` words, or more words are wanted than there are.
#[derive(Clone, Copy, Debug, PartialEq, Eq)]
pub struct BadWords {
    /// Counted from 1.
    pub place: u32,
}

impl Form {
    // What the words are tested for, one by one.
    fn tests(self) -> &'static [Test]
        ensures { result.now ≡ tests_of self }
    {
        match self {
            Form::EncPresent => &[Given, Tape, Test::Named(Enc), Present, Order, Digits(16)],
            Form::EncLea => &[Given, Tape, Test::Named(Enc), Lea, Order, Digits(32)],
            Form::EncTrivium => &[Given, Tape, Test::Named(Enc), Trivium, Order, Digits(20)],
            Form::MacChaskey => &[Given, Tape, Test::Named(Mac), Chaskey, Order, ChaskeyTag],
            Form::MacLightMac => &[
                Given,
                Tape,
                Test::Named(Mac),
                LightMac,
                Order,
                Counter,
                LightMacTag,
            ],
            Form::Eval => &[Given, Tape, Test::Named(Eval), Order, Hex],
            Form::Check => &[Given, Tape, Test::Named(Check)],
            Form::Upgrade => &[Given, Tape, Test::Named(Upgrade)],
            Form::Probe => &[Given, Tape, Test::Named(Probe), Order],
            Form::Split => &[Given, Tape, Test::Named(Split), Order],
            Form::Join => &[Given, Tape, Test::Named(Join), Order],
            Form::Emit => &[Given, Tape, Test::Named(Emit), Circuit],
            Form::SelfRun => &[Given, Tape, Test::Named(SelfRun), Seed, Count, Order],
        }
    }

    /// What any further words are tested for, where a form may have them.
    fn tail(self) -> Option<Test>
        ensures { result ≡ tail_of self }
    {
        match self {
            Form::Probe => Some(Test::Wire),
            Form::EncPresent
            | Form::EncLea
            | Form::EncTrivium
            | Form::MacChaskey
            | Form::MacLightMac
            | Form::Eval
            | Form::Check
            | Form::Upgrade
            | Form::Split
            | Form::Join
            | Form::Emit
            | Form::SelfRun => None,
        }
    }
}

/// How many words from the front pass their tests.
fn reach(tests: &[Test], tail: Option<Test>, words: &Words) -> usize
    ensures count { result ≡ reach tests.now tail words.now }
    ensures limit { result ≤ 1000000 }
{
    let mut passed = 0;
    while passed < words.len() {
        let Some(test) = tests.get(passed).copied().or(tail) else {
            break;
        };
        if !test.passes(words.word(passed)) {
            break;
        }
        passed += 1;
    }
    passed
}

/// The job that the words name, or the place at which they are refused. It takes no memory.
pub fn read_words(words: &Words) -> Result<Job, BadWords>
    ensures job { IfOk result (IsJob words.now) }
    ensures refused { IfErr result (λ e. IsRefused words.now e.place) }

    // What a caller may rely on where it reads the words of the job again.
    ensures order { IfOk result HasOrder }
    ensures count { IfOk result HasCount }
    ensures words { IfOk result (HasWords words.now) }
{
    let mut farthest = 0;
    for form in FORMS {
        let passed = reach(form.tests(), form.tail(), words);
        if is_whole(form, words, passed) {
            return Ok(job_of(form, words));
        }
        if passed > farthest {
            farthest = passed;
        }
    }
    Err(BadWords {
        place: farthest as u32 + 1,
    })
}

// All tests are passed, and no word is left.
fn is_whole(form: Form, words: &Words, passed: usize) -> bool
    requires { passed ≡ reach (tests_of form) (tail_of form) words.now }
    ensures { IsTrue result ↔ Match (tests_of form) (tail_of form) words.now }
{
    passed >= form.tests().len() && passed == words.len()
}

fn job_of(form: Form, words: &Words) -> Job
    requires { Match (tests_of form) (tail_of form) words.now }
    ensures { result ≡ job_of form words.now }
{
    match form {
        Form::EncPresent => enc_present(words),
        Form::EncLea => enc_lea(words),
        Form::EncTrivium => enc_trivium(words),
        Form::MacChaskey => mac_chaskey(words),
        Form::MacLightMac => mac_lightmac(words),
        Form::Eval => Job::Eval {
            order: order_of(words.word(3)),
        },
        Form::Check => Job::Check,
        Form::Upgrade => Job::Upgrade,
        Form::Probe => Job::Probe {
            order: order_of(words.word(3)),
        },
        Form::Split => Job::Split {
            order: order_of(words.word(3)),
        },
        Form::Join => Job::Join {
            order: order_of(words.word(3)),
        },
        Form::Emit => Job::Emit {
            circuit: circuit_of(words.word(3)),
        },
        Form::SelfRun => Job::SelfRun {
            seed: seed_of(words.word(3)),
            count: count_of(words.word(4)),
            order: order_of(words.word(5)),
        },
    }
}

fn enc_present(words: &Words) -> Job
    requires { Match (tests_of forms.EncPresent) (tail_of forms.EncPresent) words.now }
    ensures { result ≡ job_of forms.EncPresent words.now }
{
    let size = present_size_of(words.word(3));
    let iv = present_iv_of(words.word(5));
    Job::Enc {
        task: Task::Present { size, iv },
        order: order_of(words.word(4)),
    }
}

fn enc_lea(words: &Words) -> Job
    requires { Match (tests_of forms.EncLea) (tail_of forms.EncLea) words.now }
    ensures { result ≡ job_of forms.EncLea words.now }
{
    let size = lea_size_of(words.word(3));
    let iv = lea_iv_of(words.word(5));
    Job::Enc {
        task: Task::Lea { size, iv },
        order: order_of(words.word(4)),
    }
}

fn enc_trivium(words: &Words) -> Job
    requires { Match (tests_of forms.EncTrivium) (tail_of forms.EncTrivium) words.now }
    ensures { result ≡ job_of forms.EncTrivium words.now }
{
    let iv = trivium_iv_of(words.word(5));
    Job::Enc {
        task: Task::Trivium { iv },
        order: order_of(words.word(4)),
    }
}

fn mac_chaskey(words: &Words) -> Job
    requires { Match (tests_of forms.MacChaskey) (tail_of forms.MacChaskey) words.now }
    ensures { result ≡ job_of forms.MacChaskey words.now }
{
    let tag = chaskey_tag_of(words.word(5));
    Job::Mac {
        task: Task::Chaskey { tag },
        order: order_of(words.word(4)),
    }
}

fn mac_lightmac(words: &Words) -> Job
    requires { Match (tests_of forms.MacLightMac) (tail_of forms.MacLightMac) words.now }
    ensures { result ≡ job_of forms.MacLightMac words.now }
{
    let size = lightmac_size_of(words.word(3));
    let counter = counter_of(words.word(5));
    let tag = lightmac_tag_of(words.word(6));
    Job::Mac {
        task: Task::LightMac { size, counter, tag },
        order: order_of(words.word(4)),
    }
}

fn order_of(word: &str) -> u32
    requires { IsTrue (is_order word.now) }
    ensures { result ≡ order_of word.now }
{
    u32::from(word.as_bytes()[0] - b'0')
}

fn present_size_of(word: &str) -> KeySize
    requires { IsTrue (is_some (present_size word.now)) }
    ensures { result ≡ present_size_of word.now }
{
    present_size(word).unwrap()
}

fn present_iv_of(word: &str) -> u64
    requires { IsTrue (are_digits 16 word.now) }
    ensures { result ≡ iv_of word.now }
{
    u64::from_str_radix(word, 16).unwrap()
}

fn lea_size_of(word: &str) -> LeaSize
    requires { IsTrue (is_some (lea_size word.now)) }
    ensures { result ≡ lea_size_of word.now }
{
    lea_size(word).unwrap()
}

fn lea_iv_of(word: &str) -> u128
    requires { IsTrue (are_digits 32 word.now) }
    ensures { result ≡ iv_of word.now }
{
    u128::from_str_radix(word, 16).unwrap()
}

fn trivium_iv_of(word: &str) -> [u8; 10]
    requires { IsTrue (are_digits 20 word.now) }
    ensures { result ≡ hex_bytes word.now }
{
    <[u8; 10] as FromHex>::from_hex(word).unwrap()
}

fn lightmac_size_of(word: &str) -> KeySize
    requires { IsTrue (is_some (lightmac_size word.now)) }
    ensures { result ≡ lightmac_size_of word.now }
{
    lightmac_size(word).unwrap()
}

fn counter_of(word: &str) -> u32
    requires { IsTrue (is_counter word.now) }
    ensures { result ≡ number_of word.now }
{
    match word {
        "1" => 1,
        "2" => 2,
        _ => 4,
    }
}

fn lightmac_tag_of(word: &str) -> u32
    requires { IsTrue (is_lightmac_tag word.now) }
    ensures { result ≡ number_of word.now }
{
    if word == "4" { 4 } else { 8 }
}

fn chaskey_tag_of(word: &str) -> u32
    requires { IsTrue (is_chaskey_tag word.now) }
    ensures { result ≡ number_of word.now }
{
    if word == "8" { 8 } else { 16 }
}

fn circuit_of(word: &str) -> Named
    requires { IsTrue (is_some (circuit_named word.now)) }
    ensures { result ≡ circuit_of word.now }
{
    circuit_named(word).unwrap()
}

fn seed_of(word: &str) -> u64
    requires { IsTrue (is_message_seed word.now) }
    ensures { result ≡ number_of word.now }
{
    word.parse::<u64>().unwrap()
}

fn count_of(word: &str) -> u32
    requires { IsTrue (is_count word.now) }
    ensures { result ≡ number_of word.now }
{
    word.parse::<u32>().unwrap()
}

/// Words are one job at most, and are refused at one place at most. Those of a job aren't refused.
pub fn words_have_one_answer()
    ensures job { HaveOneJob }
    ensures place { HaveOnePlace }
{}
