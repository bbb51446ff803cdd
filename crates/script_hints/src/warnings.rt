// Members that no rule knows.

use crate::notes::Notes;
use crate::rules::{Form, form_of_word, rules_of};
use crate::scan::{
    Name, byte_at, find_member, inside, next_name, next_start, past_blanks, past_value, string_at,
};
use std::alloc::AllocError;

// The most lines of warnings.
const MOST_LINES: usize = 20;

fn is_known(form: Form, name: &[u8]) -> bool {
    rules_of(form)
        .iter()
        .any(|rule| rule.name().as_bytes() == name)
}

// The word of a step and what it has. The word stands first in most steps, which are then read once.
fn work_of(text: &[u8], step: usize) -> Option<(&[u8], Form)> {
    let at = match next_name(text, inside(step)) {
        Some(name) if name.text == b"do".as_slice() => name.value,
        _ => find_member(text, step, b"do")?,
    };
    let word = string_at(text, at)?;
    Some((word, form_of_word(word)?))
}

/// Looks for members that no rule knows, and tells of the first ones.
#[derive(Drop)]
pub struct Warner<'n, 't> {
    notes: &'n mut Notes<'t>,
    text: &'t [u8],
    lines: usize,
}

impl<'n, 't> Warner<'n, 't> {
    /// Adds to these lines.
    pub fn new(notes: &'n mut Notes<'t>) -> Warner<'n, 't> {
        let text = notes.text();
        Warner {
            notes,
            text,
            lines: 0,
        }
    }

    fn tell(&mut self, name: usize, step: &[u8]) -> Result<(), AllocError> {
        self.lines = self.lines.saturating_add(1);
        if self.lines > MOST_LINES {
            return Ok(());
        }
        self.notes.begin(name)?;
        self.notes.say("warning: ")?;
        self.notes.met(name)?;
        if step.is_empty() {
            self.notes.say(" is no member that is looked at here")?;
        } else {
            self.notes.say(" is no member that \"")?;
            self.notes.bytes(step)?;
            self.notes.say("\" looks at")?;
        }
        self.notes.end()
    }

    // Tells of a member that this form does not know.
    fn look_at(&mut self, name: Name<'_>, form: Form) -> Result<(), AllocError> {
        if is_known(form, name.text) {
            Ok(())
        } else {
            self.tell(name.at, b"")
        }
    }

    // Members of an object whose own members hold no objects.
    fn flat(&mut self, object: usize, form: Form) -> Result<usize, AllocError> {
        if byte_at(self.text, object) != b'{' {
            return Ok(past_value(self.text, object));
        }
        let mut at = inside(object);
        for _ in 0..self.text.len() {
            let Some(name) = next_name(self.text, at) else {
                break;
            };
            self.look_at(name, form)?;
            at = past_value(self.text, name.value);
        }
        Ok(past_blanks(self.text, at).saturating_add(1))
    }

    // The same of an array of such objects.
    fn flat_items(&mut self, array: usize, form: Form) -> Result<usize, AllocError> {
        if byte_at(self.text, array) != b'[' {
            return Ok(past_value(self.text, array));
        }
        let mut at = inside(array);
        for _ in 0..self.text.len() {
            let Some(value) = next_start(self.text, at) else {
                break;
            };
            at = self.flat(value, form)?;
        }
        Ok(past_blanks(self.text, at).saturating_add(1))
    }

    // Members of a config, of an init, or of options.
    fn parts(&mut self, object: usize, form: Form) -> Result<usize, AllocError> {
        if byte_at(self.text, object) != b'{' {
            return Ok(past_value(self.text, object));
        }
        let mut at = inside(object);
        for _ in 0..self.text.len() {
            let Some(name) = next_name(self.text, at) else {
                break;
            };
            at = match name.text {
                b"flac" => self.flat(name.value, Form::Flac)?,
                b"rect" => self.flat(name.value, Form::Rect)?,
                b"layout" => self.flat_items(name.value, Form::Plane)?,
                b"data" if form == Form::Init => self.flat(name.value, Form::Data)?,
                _ => {
                    self.look_at(name, form)?;
                    past_value(self.text, name.value)
                }
            };
        }
        Ok(past_blanks(self.text, at).saturating_add(1))
    }

    // Members of a step.
    fn step(&mut self, step: usize) -> Result<usize, AllocError> {
        let text = self.text;
        let Some((word, form)) = work_of(text, step) else {
            return Ok(past_value(text, step));
        };
        let mut at = inside(step);
        for _ in 0..text.len() {
            let Some(name) = next_name(text, at) else {
                break;
            };
            at = match name.text {
                b"config" if form == Form::Configure => self.parts(name.value, Form::Config)?,
                b"options" if is_known(form, b"options") => {
                    self.parts(name.value, Form::Options)?
                }
                b"init" if is_known(form, b"init") => self.parts(name.value, Form::Init)?,
                member => {
                    if member != b"do".as_slice() && !is_known(form, member) {
                        self.tell(name.at, word)?;
                    }
                    past_value(text, name.value)
                }
            };
        }
        Ok(past_blanks(text, at).saturating_add(1))
    }

    fn steps(&mut self, array: usize) -> Result<usize, AllocError> {
        if byte_at(self.text, array) != b'[' {
            return Ok(past_value(self.text, array));
        }
        let mut at = inside(array);
        for _ in 0..self.text.len() {
            let Some(value) = next_start(self.text, at) else {
                break;
            };
            at = self.step(value)?;
        }
        Ok(past_blanks(self.text, at).saturating_add(1))
    }

    // Members of a caller.
    fn caller(&mut self, object: usize) -> Result<usize, AllocError> {
        if byte_at(self.text, object) != b'{' {
            return Ok(past_value(self.text, object));
        }
        let mut at = inside(object);
        for _ in 0..self.text.len() {
            let Some(name) = next_name(self.text, at) else {
                break;
            };
            at = match name.text {
                b"steps" => self.steps(name.value)?,
                _ => {
                    self.look_at(name, Form::Caller)?;
                    past_value(self.text, name.value)
                }
            };
        }
        Ok(past_blanks(self.text, at).saturating_add(1))
    }

    fn callers(&mut self, array: usize) -> Result<usize, AllocError> {
        if byte_at(self.text, array) != b'[' {
            return Ok(past_value(self.text, array));
        }
        let mut at = inside(array);
        for _ in 0..self.text.len() {
            let Some(value) = next_start(self.text, at) else {
                break;
            };
            at = self.caller(value)?;
        }
        Ok(past_blanks(self.text, at).saturating_add(1))
    }

    /// Looks through the script that begins here.
    pub fn script(&mut self, top: usize) -> Result<(), AllocError> {
        if byte_at(self.text, top) != b'{' {
            return Ok(());
        }
        let mut at = inside(top);
        for _ in 0..self.text.len() {
            let Some(name) = next_name(self.text, at) else {
                break;
            };
            at = match name.text {
                b"codecs" => self.flat_items(name.value, Form::Codec)?,
                b"callers" => self.callers(name.value)?,
                b"order" => self.flat_items(name.value, Form::Item)?,
                b"ports" => self.flat_items(name.value, Form::Port)?,
                _ => {
                    self.look_at(name, Form::Script)?;
                    past_value(self.text, name.value)
                }
            };
        }
        self.more()
    }

    // Says how many more there are.
    fn more(&mut self) -> Result<(), AllocError> {
        if self.lines > MOST_LINES {
            self.notes.begin_file()?;
            self.notes.number(self.lines.saturating_sub(MOST_LINES))?;
            self.notes.say(" warnings more")?;
            self.notes.end()?;
        }
        Ok(())
    }
}
