// A script.
ghost use Rattle.std.specs.Prelude.{◌≡◌, IsTrue, option_map};
ghost use Rattle.script_types.specs.Sound.{is_sound};

use crate::Step;
use std::marker::Model;
use wc_base::{List, Text};
use wc_config::Kind;

/// A codec. `saturation` is the count of items at which its codec is saturated.
#[derive(Debug, PartialEq, Drop)]
pub struct CodecItem {
    pub name: Text,
    pub kind: Kind,
    pub saturation: u32,
}

/// A caller, and what it does, step by step.
#[derive(Debug, PartialEq, Drop)]
pub struct CallerItem {
    pub name: Text,
    pub steps: List<Step>,
}

/// What a port between callers is of.
#[derive(Clone, Copy, Debug, PartialEq, Eq)]
pub enum PortKind {
    Audio,
    Frame,
}

/// A port, by which callers hand media to callers.
#[derive(Debug, PartialEq, Drop)]
pub struct PortItem {
    pub name: Text,
    pub of: PortKind,
}

/// One item of the order: the caller's next step, or what is done to a codec; `at` is the moment, in microseconds.
#[derive(Clone, Copy, Debug, PartialEq, Eq)]
pub enum OrderItem {
    Caller(u32),
    Start(u32),
    Done { codec: u32, at: u64 },
    Turn(u32),
    Reclaim { codec: u32, at: u64 },
}

/// What a script holds: codecs, callers with their steps, the order in which all is done, which may be absent, the ports
/// between callers, and the chunk files in order of first mention. A codec, a caller or a chunk file is named by its number in the script.
/// `inline` counts the bytes of all inline data, those of an init that breaks a rule of WebIDL too.
#[derive(Debug, PartialEq, Drop)]
pub struct ScriptData {
    pub codecs: List<CodecItem>,
    pub callers: List<CallerItem>,
    pub order: Option<List<OrderItem>>,
    pub ports: List<PortItem>,
    pub chunk_files: List<Text>,
    pub inline: u64,
}

/// A script: data in which no name, reference, number or count is at fault.
#[derive(Debug, Drop)]
pub struct Script {
    inner: ScriptData,
}

impl Model for Script {
    ghost use Rattle.std.specs.Prelude.{IsTrue};
    ghost use Rattle.script_types.specs.declared.script.ScriptData.{ScriptData};
    ghost use Rattle.script_types.specs.Sound.{is_sound};

    ghost Value = { ScriptData };

    ghost view = { λ s. s.inner };

    ghost invariant = { λ s. IsTrue (is_sound s.inner) };
}

impl Script {
    /// The script that holds this data.
    pub fn of(inner: ScriptData) -> Script
        requires { IsTrue (is_sound inner) }
        ensures { result ≡ inner }
    {
        Script { inner }
    }

    /// What the script holds. Nothing in it is at fault.
    pub fn data(&self) -> &ScriptData
        ensures data { result.now ≡ self.now }
        ensures sound { IsTrue (is_sound self.now) }
    {
        &self.inner
    }

    /// The names of the chunk files, in order of first mention.
    pub fn files(&self) -> &[Text]
        ensures files { result.now ≡ self.now.chunk_files }
        ensures sound { IsTrue (is_sound self.now) }
    {
        self.inner.chunk_files.as_slice()
    }
}
