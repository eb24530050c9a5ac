// The lines of a script, one after the other.
use crate::show;
use answers::results::without_tally;
use engine::create::create;
use engine::get::get;
use engine::put::put;
use script::drafts::Draft;
use script::{argument, number};
use std::io;

// What a script has set: a table and two texts, which text was set last, and how much of the buffer for answers is lent.
#[derive(Drop)]
struct Case<'a> {
    table: Draft<'a>,
    sheet: Draft<'a>,
    source: Draft<'a>,
    source_last: bool,
    room: usize,
}

pub fn run(rt: &impl Print, script: &[u8]) -> io::Result<()> {
    let mut table = [0u8; 4096];
    let mut sheet = [0u8; 65536];
    let mut source = [0u8; 65536];
    let mut out = [0u8; 65536];
    let mut case = Case {
        table: Draft::new(&mut table),
        sheet: Draft::new(&mut sheet),
        source: Draft::new(&mut source),
        source_last: false,
        room: 0,
    };
    for line in script.split(|byte| *byte == b'\n') {
        let rest = argument(line);
        case.set(line, rest);
        let lent = case.room.min(out.len());
        case.call(rt, line, rest, &mut out[..lent])?;
    }
    Ok(())
}

// A word is known by its first two letters.
impl Case<'_> {
    // A line that sets the table, a text or the length that is lent for an answer.
    fn set(&mut self, line: &[u8], rest: &[u8]) {
        match line {
            // table, more, pool
            [b't', b'a', ..] => {
                self.table.clear();
                self.table.append_numbers(rest);
            }
            [b'm', b'o', ..] => self.table.append_numbers(rest),
            [b'p', b'o', ..] => self.table.append(rest),
            // sheet, source, again
            [b's', b'h', ..] => {
                self.sheet.clear();
                self.sheet.append(rest);
                self.source_last = false;
            }
            [b's', b'o', ..] => {
                self.source.clear();
                self.source.append(rest);
                self.source_last = true;
            }
            [b'a', b'g', ..] => self.lengthen(rest),
            // room
            [b'r', b'o', ..] => self.room = number(rest),
            _ => {}
        }
    }

    // A number and a text: the text, that many times, behind the one that was set last.
    fn lengthen(&mut self, rest: &[u8]) {
        let more = argument(rest);
        if self.source_last {
            self.source.append_times(number(rest), more);
        } else {
            self.sheet.append_times(number(rest), more);
        }
    }

    // A line that makes a call, or shows the buffer of the last one.
    fn call(&self, rt: &impl Print, line: &[u8], name: &[u8], out: &mut [u8]) -> io::Result<()> {
        let table = self.table.bytes();
        let sheet = self.sheet.bytes();
        let source = self.source.bytes();
        match line {
            // check, line, get, put, counts, create, clash, buffer
            [b'c', b'h', ..] => show::check(rt, name, table),
            [b'l', b'i', ..] => show::line(rt, name, table),
            [b'g', b'e', ..] => show::answer(rt, name, out, |out| get(table, source, out)),
            [b'p', b'u', ..] => show::answer(
                rt,
                name,
                out,
                |out| without_tally(put(table, sheet, source, out)),
            ),
            [b'c', b'o', ..] => show::counts(rt, name, table, sheet, source, out),
            [b'c', b'r', ..] => show::answer(rt, name, out, |out| create(table, sheet, out)),
            [b'c', b'l', ..] => show::clash(rt, name, table, out),
            [b'b', b'u', ..] => show::text(rt, name, out),
            _ => Ok(()),
        }
    }
}
