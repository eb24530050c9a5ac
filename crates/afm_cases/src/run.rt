// The lines of a script, one after the other. A word is known by its first two letters.
use crate::show;
use afm::export::export;
use afm::import::import;
use script::drafts::Draft;
use script::{argument, number};
use std::io;

// The buffer for answers, with the length of it that is lent, and how long the last answer is, if it is a result.
#[derive(Drop)]
struct Answers<'a> {
    buffer: &'a mut [u8],
    room: usize,
    result: Option<usize>,
}

pub fn run(rt: &impl Print, script: &[u8]) -> io::Result<()> {
    let mut text = [0u8; 65536];
    let mut text = Draft::new(&mut text);
    let mut buffer = [0u8; 65536];
    let mut answers = Answers {
        room: buffer.len(),
        buffer: &mut buffer,
        result: None,
    };
    for line in script.split(|byte| *byte == b'\n') {
        let rest = argument(line);
        set_text(line, rest, &mut text, answers.last());
        answers.set_room(line, rest);
        answers.call(rt, line, text.bytes())?;
    }
    Ok(())
}

// A line that sets the text, makes it longer, or takes the last result as the text.
fn set_text(line: &[u8], rest: &[u8], text: &mut Draft<'_>, last: &[u8]) {
    match line {
        // text, more, again, spaces, bytes, take
        [b't', b'e', ..] => {
            text.clear();
            text.append(rest);
        }
        [b'm', b'o', ..] => text.append(rest),
        [b'a', b'g', ..] => text.append_times(number(rest), argument(rest)),
        [b's', b'p', ..] => text.append_times(number(rest), b" "),
        [b'b', b'y', ..] => text.append_numbers(rest),
        [b't', b'a', ..] => text.set(last),
        _ => {}
    }
}

impl Answers<'_> {
    // The last result, and nothing where there was none.
    fn last(&self) -> &[u8] {
        let length = self.result.unwrap_or(0).min(self.buffer.len());
        &self.buffer[..length]
    }

    // A line that sets the length that is lent for an answer.
    fn set_room(&mut self, line: &[u8], rest: &[u8]) {
        match line {
            // room, whole
            [b'r', b'o', ..] => self.room = number(rest),
            [b'w', b'h', ..] => self.room = self.buffer.len(),
            _ => {}
        }
    }

    // A line that makes a call, or shows the text. It is written with the answer, as the case's name.
    fn call(&mut self, rt: &impl Print, line: &[u8], text: &[u8]) -> io::Result<()> {
        let lent = self.room.min(self.buffer.len());
        let out = &mut self.buffer[..lent];
        match line {
            // show, import, export
            [b's', b'h', ..] => show::text(rt, line, text)?,
            [b'i', b'm', ..] => self.result = show::answer(rt, line, text, out, import)?,
            [b'e', b'x', ..] => self.result = show::answer(rt, line, text, out, export)?,
            _ => {}
        }
        Ok(())
    }
}
