// What the parts of a script are, by their places in its text.

use crate::rules::{Form, form_of_word};
use crate::scan::{find_item, find_member, inside, next_item, string_at};

/// What a variable holds.
#[derive(Clone, Copy, PartialEq, Eq)]
pub enum Held {
    Chunk,
    Audio,
    Frame,
    Promise,
    Buffer,
    Unknown,
}

/// The places of a script's arrays.
#[derive(Clone, Copy)]
pub struct Script<'t> {
    pub text: &'t [u8],
    pub top: usize,
    codecs: Option<usize>,
    callers: Option<usize>,
    order: Option<usize>,
    ports: Option<usize>,
}

// The longest chain of clones and transfers that is followed.
const MOST_HANDS: usize = 64;

impl<'t> Script<'t> {
    /// The script that begins here.
    pub fn at(text: &'t [u8], top: usize) -> Script<'t> {
        Script {
            text,
            top,
            codecs: find_member(text, top, b"codecs"),
            callers: find_member(text, top, b"callers"),
            order: find_member(text, top, b"order"),
            ports: find_member(text, top, b"ports"),
        }
    }

    /// The array of codecs, of callers, of ports, and the order.
    pub fn codecs(&self) -> Option<usize> {
        self.codecs
    }

    pub fn callers(&self) -> Option<usize> {
        self.callers
    }

    pub fn order(&self) -> Option<usize> {
        self.order
    }

    pub fn ports(&self) -> Option<usize> {
        self.ports
    }

    /// Codec, caller or item of the order of this number.
    pub fn codec(&self, i: usize) -> Option<usize> {
        find_item(self.text, self.codecs?, i)
    }

    pub fn caller(&self, i: usize) -> Option<usize> {
        find_item(self.text, self.callers?, i)
    }

    pub fn item(&self, i: usize) -> Option<usize> {
        find_item(self.text, self.order?, i)
    }

    /// The steps of caller `i`, and the one of them with this number.
    pub fn steps(&self, i: usize) -> Option<usize> {
        find_member(self.text, self.caller(i)?, b"steps")
    }

    pub fn step(&self, i: usize, j: usize) -> Option<usize> {
        find_item(self.text, self.steps(i)?, j)
    }

    /// The text of a member.
    pub fn text_of(&self, object: usize, member: &[u8]) -> Option<&'t [u8]> {
        string_at(self.text, find_member(self.text, object, member)?)
    }

    // The item of the array with this text as its member, among the first ones, with its number.
    fn find(
        &self,
        array: Option<usize>,
        member: &[u8],
        name: &[u8],
        most: usize,
    ) -> Option<(usize, usize)> {
        let mut at = inside(array?);
        for n in 0..most {
            let item = next_item(self.text, at)?;
            if self.text_of(item.value, member) == Some(name) {
                return Some((n, item.value));
            }
            at = item.next;
        }
        None
    }

    /// The codec of this name among the first ones.
    pub fn find_codec(&self, name: &[u8], most: usize) -> Option<(usize, usize)> {
        self.find(self.codecs, b"name", name, most)
    }

    /// The caller of this name among the first ones.
    pub fn find_caller(&self, name: &[u8], most: usize) -> Option<(usize, usize)> {
        self.find(self.callers, b"name", name, most)
    }

    // What the port that begins here takes.
    fn taken_by(&self, port: usize) -> Option<Held> {
        match self.text_of(port, b"of") {
            Some(b"audio") => Some(Held::Audio),
            Some(b"frame") => Some(Held::Frame),
            _ => None,
        }
    }

    /// The port of this name; what takes neither audio data nor frames is none.
    pub fn find_port(&self, name: &[u8]) -> Option<(usize, usize)> {
        let mut at = inside(self.ports?);
        for n in 0..self.text.len() {
            let item = next_item(self.text, at)?;
            let is_named = self.text_of(item.value, b"name") == Some(name);
            if is_named && self.taken_by(item.value).is_some() {
                return Some((n, item.value));
            }
            at = item.next;
        }
        None
    }

    /// The step that names this variable, among the first ones of caller `i`.
    pub fn find_variable(&self, i: usize, name: &[u8], most: usize) -> Option<(usize, usize)> {
        self.find(self.steps(i), b"as", name, most)
    }

    /// The kind of the codec of this name, as a text.
    pub fn kind_of(&self, name: &[u8]) -> Option<&'t [u8]> {
        let (_, codec) = self.find_codec(name, 64)?;
        self.text_of(codec, b"kind")
    }

    // What a take from the codec of this name gives.
    fn taken_from(&self, name: &[u8]) -> Held {
        match self.kind_of(name) {
            Some(b"audio-decoder") => Held::Audio,
            Some(b"video-decoder") => Held::Frame,
            Some(b"audio-encoder" | b"video-encoder") => Held::Chunk,
            _ => Held::Unknown,
        }
    }

    // What a receive from the port of this name gives.
    fn received_from(&self, name: &[u8]) -> Held {
        match self.find_port(name) {
            Some((_, port)) => self.taken_by(port).unwrap_or(Held::Unknown),
            None => Held::Unknown,
        }
    }

    // What a step puts into its variable; `None` for what another variable holds.
    fn put_by(&self, step: usize) -> Option<Held> {
        match self.text_of(step, b"do") {
            Some(b"chunk") => Some(Held::Chunk),
            Some(b"audio") => Some(Held::Audio),
            Some(b"frame") => Some(Held::Frame),
            Some(b"flush") => Some(Held::Promise),
            Some(b"take") => match self.text_of(step, b"on") {
                Some(codec) => Some(self.taken_from(codec)),
                None => Some(Held::Unknown),
            },
            Some(b"buffer") => Some(Held::Buffer),
            Some(b"receive") => match self.text_of(step, b"from") {
                Some(port) => Some(self.received_from(port)),
                None => Some(Held::Unknown),
            },
            Some(b"clone" | b"transfer") => None,
            _ => Some(Held::Unknown),
        }
    }

    /// What the variable holds that step `j` of caller `i`, at this place, names.
    pub fn held_by(&self, i: usize, j: usize, step: usize) -> Held {
        let mut step = step;
        let mut most = j;
        for _ in 0..MOST_HANDS {
            if let Some(held) = self.put_by(step) {
                return held;
            }
            let Some(name) = self.text_of(step, b"of") else {
                return Held::Unknown;
            };
            let Some((n, earlier)) = self.find_variable(i, name, most) else {
                return Held::Unknown;
            };
            step = earlier;
            most = n;
        }
        Held::Unknown
    }

    // What the encode that begins here has, by its codec.
    fn encode_form(&self, step: usize) -> Form {
        let Some(codec) = self.text_of(step, b"on") else {
            return Form::Encode;
        };
        match self.kind_of(codec) {
            Some(b"audio-encoder") => Form::EncodeAudio,
            Some(b"video-encoder") => Form::EncodeFrame,
            _ => Form::Encode,
        }
    }

    // What the post that begins here has, by its port.
    fn post_form(&self, step: usize) -> Form {
        let Some(port) = self.text_of(step, b"to") else {
            return Form::Post;
        };
        match self.received_from(port) {
            Held::Audio => Form::PostAudio,
            Held::Frame => Form::PostFrame,
            _ => Form::Post,
        }
    }

    /// What the step that begins here has.
    pub fn form_of(&self, step: usize) -> Option<Form> {
        match form_of_word(self.text_of(step, b"do")?)? {
            Form::Encode => Some(self.encode_form(step)),
            Form::Post => Some(self.post_form(step)),
            form => Some(form),
        }
    }
}
