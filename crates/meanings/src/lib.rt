// What each refusal means and what to do, in a sentence. docs/GUIDE.md has an example of each.
#![tactic(auto)]

ghost use Rattle.std.specs.Prelude.{◌≡◌, is_some};
ghost use Rattle.meanings.specs.Sentences.{has_sentence};
ghost use Rattle.meanings.specs.Texts.{text_refused};

use crate::texts::is_text;

mod texts;

// The sentence of each refusal, from number 1 on; the last two are those of Adobe's metrics, which are read by lines.
const SENTENCES: [&str; 19] = [
    "The sizes of the table are wrong, so it is no whole program: make it again with noontrough assemble, and copy it as binary.\n",
    "This node is of a kind that the engine does not know: the table was damaged or made for another engine, so make it again.\n",
    "An operand of this node breaks a rule, or the last node is no lens: see what each kind takes, and put the whole program last.\n",
    "This node is a match that holds another match: decide which of the two is the entry, and take the other match away.\n",
    "This node passes size 512 or 128 positions a side: use ranges and repeats for long words, and say once what arms share.\n",
    "The default of this const is no text of its pattern: give a default that fits, or let the pattern take this one.\n",
    "A source of this join can be cut in two ways: put a mark between the halves, or make one lens of both.\n",
    "A sheet of this join can be cut in two ways: show a mark between the halves, or make one lens of both.\n",
    "A text is a source of both arms of this union: write arms that share no source, or make one lens of both.\n",
    "A source of this repeat can be cut into parts in two ways, or a part can be empty: give each part an end of its own.\n",
    "A sheet of this repeat can be cut into parts in two ways, or a part can be empty: end each part with a mark that the sheet shows.\n",
    "The source or the sheet is longer than 4,096 bytes: divide it at the ends of entries.\n",
    "The source is none of this program: correct what the program does not foresee, often a newline at the end of the file.\n",
    "The sheet is none of this program: correct what the program does not foresee, often a newline at the end of the file.\n",
    "The old source has more than 256 entries: divide it, or let match mark larger pieces.\n",
    "The result would be longer than 4,096 bytes: divide the sheet or the source.\n",
    "The text that shows the clash is longer than the buffer: lend 16,512 bytes, which are always enough.\n",
    "The line of this number is not of its form: see what lines a section and a sheet have, and end each with a newline.\n",
    "The count behind StartKernPairs is not the number of KPX lines: correct it, or look for lines that are missing.\n",
];

// That of a text in the table's place: its sizes are not what is to be mended.
const TEXT_SENTENCE: &str =
    "This file is a text and no table: if it is a program's text, noontrough assemble makes its table, and noontrough takes both.\n";

// Writes the sentence of a refusal of a call with this table, and says whether the number has one. Whether the system could write it is left open,
// since no contract can say what is read or written.
pub fn explain_for(to: &impl Print, number: usize, table: &[u8]) -> bool
    ensures { result ≡ has_sentence 1 number }
{
    match sentence_for(number, table) {
        Some(sentence) => {
            let _ = to.write_all(sentence.as_bytes());
            true
        }
        None => false,
    }
}

fn sentence_for(number: usize, table: &[u8]) -> Option<&'static str>
    ensures { is_some result ≡ has_sentence 1 number }
{
    if text_refused(number, table) {
        return Some(TEXT_SENTENCE);
    }
    let place = number.checked_sub(1)?;
    SENTENCES.get(place).copied()
}

// Every text is refused with number 1 (`text_program` of specs/Texts.antt). The number comes first, so that only a refused table is read again.
fn text_refused(number: usize, table: &[u8]) -> bool
    ensures { result ≡ text_refused number table.now }
{
    number == 1 && is_text(table)
}
