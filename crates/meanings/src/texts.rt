// Which files are texts: one that stands where the table should was most likely meant to be assembled first.
ghost use Rattle.std.specs.Prelude.{◌≡◌};
ghost use Rattle.meanings.specs.Texts.{is_text, is_text_byte};

pub fn is_text(bytes: &[u8]) -> bool
    ensures { result ≡ is_text bytes.now }
{
    bytes.iter().all(|byte| is_text_byte(*byte))
}

// Of the bytes below 32 a text has only tab, newline and carriage return.
fn is_text_byte(byte: u8) -> bool
    ensures { result ≡ is_text_byte byte }
{
    matches!(byte, b'\t' | b'\n' | b'\r' | 32..)
}
