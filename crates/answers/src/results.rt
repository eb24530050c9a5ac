// What the calls that give a text have in common: the root's languages, the room for a result, and the copy into the output buffer.
ghost use Rattle.std.specs.Prelude.{◌≡◌, ◌-◌, ◌≤◌, min, length};
ghost use Rattle.semantics.specs.Table.{node_count};
ghost use Rattle.semantics.specs.Calls.{output};
ghost use Rattle.table.specs.Prepared.{refusal};
ghost use Rattle.answers.specs.Answers.{IsAccepted, Ready};
ghost use Rattle.answers.specs.Outcomes.{GivesText, untallied};
ghost use Rattle.answers.specs.Replies.{with_tally};
ghost use Rattle.answers.specs.Results.{Counted, Finishes, RootPath};

use crate::{Answer, ClashAnswer, PutAnswer, Reply, Sourced, Tally};
use arrays::filled;
use automaton::{Side, automaton_of};
use paths::find_path;
use table::parts::node_count;
use table::{Refusal, Table};
use texts::write_text;

// The root is the last node.
pub fn root_of(bytes: &[u8]) -> usize
    requires { IsAccepted bytes.now }
    ensures { result ≡ node_count bytes.now - 1 }
{
    node_count(bytes) - 1
}

// Whether a text belongs to the root's language on a side, and its path if it does.
pub fn root_path(bytes: &[u8], prepared: &[u64], side: Side, text: &[u8], path: &mut [u8]) -> bool
    requires ready { Ready bytes.now prepared.now }
    requires text_len_bound { (length text.now ≤ 4096) × (length path.old ≡ length text.now) }
    ensures { RootPath bytes.now side text.now path.new result }
{
    let root = root_of(bytes);
    let a = automaton_of(prepared, root, side);
    // a text of at most 4,096 bytes needs no room for the sets that finding its path keeps
    let mut marks: [u64; 1] = filled(0);
    find_path(prepared, a, text, &mut marks, path)
}

// How long a result may be: no longer than the buffer that is lent, and no longer than 4,096.
pub fn room_in(lent: usize) -> usize
    ensures { result ≡ min lent 4096 }
{
    lent.min(Table::TEXT)
}

// Why a text, its entries or a result are refused: that concerns no node.
pub fn refuse(number: usize) -> Refusal
    ensures { result ≡ refusal number 0 }
{
    Refusal { number, node: 0 }
}

// A result that had room is copied to the start of the output buffer; one that had not leaves it as it is.
pub fn finish(wrote: Option<usize>, res: &[u8], out: &mut [u8]) -> Answer
    requires { Counted wrote res.now }
    ensures { Finishes wrote res.now out.old out.new result }
{
    let length = wrote.ok_or(refuse(16))?;
    write_text(&res[..length], out);
    Ok(length)
}

// A text is copied to the start of the output buffer if it may be so long; if not, the buffer stays as it is.
pub fn give(text: &[u8], out: &mut [u8]) -> Answer
    ensures { GivesText (output (length out.old) text.now) out.old out.new result }
{
    if room_in(out.len()) < text.len() {
        return Err(refuse(16));
    }
    write_text(text, out);
    Ok(text.len())
}

// The reply of a call that counts nothing.
pub fn uncounted(answer: Answer) -> Reply
    ensures { result.answer ≡ answer }
{
    Reply {
        answer,
        tally: Tally::default(),
        clash: Ok(None),
    }
}

// The reply of Clash, whose answer says it all.
pub fn clashed(clash: ClashAnswer) -> Reply
    ensures { result.clash ≡ clash }
{
    Reply {
        answer: Ok(0),
        tally: Tally::default(),
        clash,
    }
}

// The answer of a put, with the tally of its reply.
pub fn with_tally(reply: Reply) -> PutAnswer
    ensures { result ≡ with_tally reply.answer reply.tally }
{
    let tally = reply.tally;
    reply.answer.map(|length| Sourced { length, tally })
}

// The answer of a put without its tally.
pub fn without_tally(answer: PutAnswer) -> Answer
    ensures { result ≡ untallied answer }
{
    answer.map(|source| source.length)
}
