// Words cut into settings.

ghost use Rattle.std.specs.Prelude.{◌≡◌, ◌<◌, ◌+◌, ◌≤◌, IfOk, length, ℕ, List, Option, drop};
ghost use Rattle.cc_flags.specs.Texts.{texts};
ghost use Rattle.cc_flags.specs.Words as spec;
ghost use Rattle.cc_flags.specs.Cutting as cutting;

use crate::flag::{Call, Flag, known_flag};
use crate::item::Item;
use crate::text::split_at_first;
use crate::usage::{Usage, UsageKind};
use std::alloc::{AllocError, Global};

/// The word at which the cutting stops, since the call has no such flag or its value is missing.
#[derive(Clone, Copy)]
pub(crate) struct Stop {
    pub(crate) at: usize,
    pub(crate) kind: UsageKind,
}

impl Stop {
    pub(crate) fn fault(self) -> Usage
        ensures { result ≡ Usage.Word self.at self.kind }
    {
        Usage::Word {
            at: self.at,
            kind: self.kind,
        }
    }
}

/// The settings that words are cut into, and where the cutting stops.
#[derive(Drop)]
pub(crate) struct Cut<'a> {
    pub(crate) items: Vec<Item<'a>>,
    pub(crate) stop: Option<Stop>,
}

/// What a word is by itself: a source file, a flag with what stands behind its `=`, or nothing
/// that the call knows.
enum Word<'a> {
    Source,
    Known(Flag, Option<&'a str>),
    Unknown,
}

fn word_of(word: &str, call: Call) -> Word<'_>
    ensures { cutting.word_in result ≡ spec.word_of call word.now }
{
    let Some(text) = word.strip_prefix("--") else {
        return Word::Source;
    };
    let (name, value) = split_at_first(text, '=');
    match known_flag(name, call) {
        Some(flag) => Word::Known(flag, value),
        None => Word::Unknown,
    }
}

/// What words begin with: a setting, and how many words it takes, or a word at which the cutting
/// stops.
enum Front<'a> {
    Setting(Item<'a>, usize),
    Stop(UsageKind),
}

/// What the words from `at` on begin with.
fn front_of<'a>(words: &'a [String], at: usize, call: Call) -> Front<'a>
    requires { at < length words.now }
    ensures { cutting.IsFront call at (texts words.now) result }
{
    let word = words[at].as_str();
    match word_of(word, call) {
        Word::Source => {
            let value = Some(word);
            Front::Setting(
                Item {
                    at,
                    flag: None,
                    value,
                },
                1,
            )
        }
        Word::Known(flag, Some(value)) => {
            let flag = Some(flag);
            let value = Some(value);
            Front::Setting(Item { at, flag, value }, 1)
        }
        Word::Known(flag, None) => front_of_flag(words, at, flag),
        Word::Unknown => Front::Stop(UsageKind::Unknown),
    }
}

/// The setting of a flag that has no `=`: a switch, or one whose value is the next word.
fn front_of_flag<'a>(words: &'a [String], at: usize, flag: Flag) -> Front<'a>
    requires { at < length words.now }
    ensures { cutting.IsFrontOfFlag at flag (texts words.now) result }
{
    if !flag.needs_value() {
        let flag = Some(flag);
        return Front::Setting(
            Item {
                at,
                flag,
                value: None,
            },
            1,
        );
    }
    match words.get(at + 1) {
        Some(next) => {
            let value = Some(next.as_str());
            let flag = Some(flag);
            Front::Setting(Item { at, flag, value }, 2)
        }
        None => Front::Stop(UsageKind::NoValue),
    }
}

/// The words cut into settings.
pub(crate) fn cut_words<'a>(
    alloc: Global,
    words: &'a [String],
    call: Call,
) -> Result<Cut<'a>, AllocError>
    ensures { IfOk result (λ cut. spec.Cut call 0 (texts words.now) (spec.settings_of cut.items.items) cut.stop) }
{
    let mut items = Vec::new(alloc);
    let mut at = 0;
    while at < words.len() {
        match front_of(words, at, call) {
            Front::Setting(item, count) => {
                items.push(item)?;
                at += count;
            }
            Front::Stop(kind) => {
                let stop = Some(Stop { at, kind });
                return Ok(Cut { items, stop });
            }
        }
    }
    Ok(Cut { items, stop: None })
}
