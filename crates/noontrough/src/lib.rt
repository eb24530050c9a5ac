// What other languages link: the calls, each slice a pointer and a length, each answer three numbers, and those of put and clash six.
#![tactic(auto)]

ghost use Rattle.std.specs.Prelude.{◌≡◌, ℕ, length};
ghost use Rattle.semantics.specs.Calls.{check_call, get_call, put_call, create_call};
ghost use Rattle.answers.specs.Outcomes.{answer_for};
ghost use Rattle.semantics.specs.Tally.{put_tally};
ghost use Rattle.clash.specs.Clash.{clash_call};
ghost use Rattle.sections.specs.Afm.{import_call, export_call};
ghost use Rattle.noontrough.specs.Exports.{numbers_of, put_numbers_of, clash_numbers_of, ExportsText, ExportsSource, ExportsClash};

use afm::export::export;
use afm::import::import;
use answers::{Answer, ClashAnswer, PutAnswer, Sourced};
use engine::check;
use engine::create::create;
use engine::get::get;
use engine::put::put;
use engine::show::clash;
use table::Refusal;

// 0 and the length of a result; or a refusal's number and node. What does not apply is 0.
#[repr(C)]
#[derive(Clone, Copy, Default)]
pub struct Numbers {
    pub number: u64,
    pub node: u64,
    pub length: u64,
}

impl From<Answer> for Numbers {
    ghost from_gives = { λ answer numbers. numbers ≡ numbers_of answer };

    fn from(answer: Answer) -> Numbers {
        match answer {
            Ok(length) => Numbers {
                length: length as u64,
                ..Numbers::default()
            },
            Err(Refusal { number, node }) => Numbers {
                number: number as u64,
                node: node as u64,
                ..Numbers::default()
            },
        }
    }
}

// Put's numbers: beside those three, how many sheet entries took an old entry, how many did not, and how many old entries were left unused.
#[repr(C)]
#[derive(Clone, Copy, Default)]
pub struct PutNumbers {
    pub number: u64,
    pub node: u64,
    pub length: u64,
    pub kept: u64,
    pub made: u64,
    pub dropped: u64,
}

impl From<PutAnswer> for PutNumbers {
    ghost from_gives = { λ answer numbers. numbers ≡ put_numbers_of answer };

    fn from(answer: PutAnswer) -> PutNumbers {
        match answer {
            Ok(Sourced { length, tally }) => PutNumbers {
                length: length as u64,
                kept: tally.kept as u64,
                made: tally.made as u64,
                dropped: tally.dropped as u64,
                ..PutNumbers::default()
            },
            Err(Refusal { number, node }) => PutNumbers {
                number: number as u64,
                node: node as u64,
                ..PutNumbers::default()
            },
        }
    }
}

// Clash's numbers: 0 for no clash, 1 for a clash, 2 for a refusal; then the number and the node of the rule or of the refusal, the length of the text, and its two
// ends, or a union's two children. What does not apply is 0.
#[repr(C)]
#[derive(Clone, Copy, Default)]
pub struct ClashNumbers {
    pub outcome: u64,
    pub number: u64,
    pub node: u64,
    pub length: u64,
    pub first: u64,
    pub second: u64,
}

impl From<ClashAnswer> for ClashNumbers {
    ghost from_gives = { λ answer numbers. numbers ≡ clash_numbers_of answer };

    fn from(answer: ClashAnswer) -> ClashNumbers {
        match answer {
            Ok(None) => ClashNumbers::default(),
            Ok(Some(found)) => ClashNumbers {
                outcome: 1,
                number: found.number as u64,
                node: found.node as u64,
                length: found.length as u64,
                first: found.first as u64,
                second: found.second as u64,
            },
            Err(Refusal { number, node }) => ClashNumbers {
                outcome: 2,
                number: number as u64,
                node: node as u64,
                ..ClashNumbers::default()
            },
        }
    }
}

#[unsafe(no_mangle)]
pub extern "C" fn noontrough_check(table: &[u8]) -> Numbers
    ensures { result ≡ numbers_of (answer_for (λ (n : ℕ). n) (check_call table.now)) }
{
    Numbers::from(check(table))
}

#[unsafe(no_mangle)]
pub extern "C" fn noontrough_get(table: &[u8], source: &[u8], out: &mut [u8]) -> Numbers
    ensures { ExportsText (get_call table.now source.now (length out.old)) out.old out.new result }
{
    Numbers::from(get(table, source, out))
}

#[unsafe(no_mangle)]
pub extern "C" fn noontrough_put(
    table: &[u8],
    sheet: &[u8],
    source: &[u8],
    out: &mut [u8],
) -> PutNumbers
    ensures { ExportsSource (put_call table.now sheet.now source.now (length out.old)) (put_tally table.now sheet.now source.now) out.old out.new result }
{
    PutNumbers::from(put(table, sheet, source, out))
}

#[unsafe(no_mangle)]
pub extern "C" fn noontrough_create(table: &[u8], sheet: &[u8], out: &mut [u8]) -> Numbers
    ensures { ExportsText (create_call table.now sheet.now (length out.old)) out.old out.new result }
{
    Numbers::from(create(table, sheet, out))
}

#[unsafe(no_mangle)]
pub extern "C" fn noontrough_clash(table: &[u8], out: &mut [u8]) -> ClashNumbers
    ensures { ExportsClash (clash_call table.now (length out.old)) out.old out.new result }
{
    ClashNumbers::from(clash(table, out))
}

#[unsafe(no_mangle)]
pub extern "C" fn noontrough_afm_import(section: &[u8], out: &mut [u8]) -> Numbers
    ensures { ExportsText (import_call section.now (length out.old)) out.old out.new result }
{
    Numbers::from(import(section, out))
}

#[unsafe(no_mangle)]
pub extern "C" fn noontrough_afm_export(sheet: &[u8], out: &mut [u8]) -> Numbers
    ensures { ExportsText (export_call sheet.now (length out.old)) out.old out.new result }
{
    Numbers::from(export(sheet, out))
}
