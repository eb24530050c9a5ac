// Texts that a script puts together. The promises of what is appended limit: they leave open which bytes are added, and of numbers also how many.
ghost use Rattle.std.specs.Prelude.{◌≡◌, ◌+◌, ◌*◌, ◌-◌, ◌≤◌, min, length, take};

use crate::number;

// A text at the start of a buffer, which says how long it can become.
#[derive(Drop)]
pub struct Draft<'a> {
    buffer: &'a mut [u8],
    count: usize,
    ghost within: { count ≤ length buffer.now },
}

impl<'a> Draft<'a> {
    pub fn new(buffer: &'a mut [u8]) -> Draft<'a>
        ensures empty { result.count ≡ 0 }
        ensures room { length result.buffer.now ≡ length buffer.old }
    {
        Draft { buffer, count: 0 }
    }

    pub fn bytes(&self) -> &[u8]
        ensures { result.now ≡ take self.now.count self.now.buffer.now }
    {
        &self.buffer[..self.count]
    }

    pub fn clear(&mut self)
        ensures empty { self.new.count ≡ 0 }
        ensures room { length self.new.buffer.now ≡ length self.old.buffer.now }
    {
        self.count = 0;
    }

    // These bytes as they are, as far as there is room, in place of the text.
    pub fn set(&mut self, bytes: &[u8])
        ensures text { take self.new.count self.new.buffer.now ≡ take (length self.old.buffer.now) bytes.now }
        ensures room { length self.new.buffer.now ≡ length self.old.buffer.now }
    {
        let count = bytes.len().min(self.buffer.len());
        self.buffer[..count].copy_from_slice(&bytes[..count]);
        self.count = count;
    }

    // A byte behind the text, if there is room.
    fn push(&mut self, byte: u8)
        ensures count { self.new.count ≡ self.old.count + min 1 (length self.old.buffer.now - self.old.count) }
        ensures room { length self.new.buffer.now ≡ length self.old.buffer.now }
    {
        if self.count < self.buffer.len() {
            self.buffer[self.count] = byte;
            self.count += 1;
        }
    }

    // More behind the text, as far as there is room, a newline for each backslash.
    pub fn append(&mut self, more: &[u8])
        ensures count { self.new.count ≡ self.old.count + min (length more.now) (length self.old.buffer.now - self.old.count) }
        ensures room { length self.new.buffer.now ≡ length self.old.buffer.now }
    {
        for byte in more {
            self.push(unescaped(*byte));
        }
    }

    // The same, as often as it is asked.
    pub fn append_times(&mut self, times: usize, more: &[u8])
        ensures count { self.new.count ≡ self.old.count + min (times * length more.now) (length self.old.buffer.now - self.old.count) }
        ensures room { length self.new.buffer.now ≡ length self.old.buffer.now }
    {
        for _ in 0..times {
            self.append(more);
        }
    }

    // Bytes behind the text, given as decimal numbers with spaces between them.
    pub fn append_numbers(&mut self, numbers: &[u8])
        ensures count { self.old.count ≤ self.new.count }
        ensures room { length self.new.buffer.now ≡ length self.old.buffer.now }
    {
        for word in numbers.split_inclusive(|byte| *byte == b' ') {
            self.push((number(word) % 256) as u8);
        }
    }
}

fn unescaped(byte: u8) -> u8 {
    if byte == b'\\' { b'\n' } else { byte }
}
