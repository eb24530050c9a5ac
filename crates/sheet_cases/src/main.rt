// Runs the command lines of a script on standard input as the program `sheet` would, each with what it writes to standard output, and then writes
// the sentence of each refusal. The results and refusals that are expected are from the papers; the sentences are stored so that a change of one
// is seen.
#![tactic(auto)]

use commands::run::run;
use inputs::read_full;
use meanings::explain_for;
use std::io;

fn main(rt: HostRuntime) -> io::Result<()> {
    let mut buffer = [0u8; 65536];
    let script = read_full(&mut rt.stdin(), &mut buffer)?;
    command_lines(rt, script)?;
    sentences(&rt)?;
    sentence_for_a_text(&rt)
}

// Each line but the comments.
fn command_lines(rt: HostRuntime, script: &[u8]) -> io::Result<()> {
    for line in script.split_inclusive(|byte| *byte == b'\n') {
        let line = line.strip_suffix(b"\n").unwrap_or(line);
        if !line.starts_with(b"#") {
            command_line(rt, line)?;
        }
    }
    Ok(())
}

// A command line of up to four words, with a space between them: the words, and what they write between brackets. An empty word is not counted.
fn command_line(rt: HostRuntime, line: &[u8]) -> io::Result<()> {
    let mut parts = line.splitn(4, |byte| *byte == b' ');
    let mut word = || {
        match parts.next() {
            Some(word) => word,
            None => b"",
        }
    };
    let words = [word(), word(), word(), word()];
    for word in words {
        rt.write_all(word)?;
        rt.write_all(b" ")?;
    }
    let count = words.iter().filter(|word| !word.is_empty()).count();
    rt.write_all(b"[")?;
    run(&rt, &rt.stderr(), &words[..count]);
    rt.write_all(b"]\n")
}

fn sentences(rt: &impl Print) -> io::Result<()> {
    for number in 1..=19 {
        sentence(rt, number)?;
    }
    Ok(())
}

// The table has one byte that no text has, since number 1 has another sentence for a text.
fn sentence(rt: &impl Print, number: usize) -> io::Result<()> {
    print!(rt; "{number}: ")?;
    explain_for(rt, number, b"\x1f");
    Ok(())
}

// A text with each byte below 32 that a text can have.
fn sentence_for_a_text(rt: &impl Print) -> io::Result<()> {
    rt.write_all(b"1 of a text: ")?;
    explain_for(rt, 1, b"end\t= copy \";\"\r\n");
    Ok(())
}
