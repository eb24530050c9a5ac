// What other languages link: the calls of the library `noontrough`, with what they promise there. An archive for C is a crate of its own, since a crate is a library or an archive, not both.
#![tactic(auto)]

ghost use Rattle.std.specs.Prelude.{◌≡◌, ℕ, length};
ghost use Rattle.semantics.specs.Calls.{check_call, get_call, put_call, create_call};
ghost use Rattle.answers.specs.Outcomes.{answer_for};
ghost use Rattle.semantics.specs.Tally.{put_tally};
ghost use Rattle.clash.specs.Clash.{clash_call};
ghost use Rattle.sections.specs.Afm.{import_call, export_call};
ghost use Rattle.noontrough.specs.Exports.{numbers_of, ExportsText, ExportsSource, ExportsClash};

use noontrough::{ClashNumbers, Numbers, PutNumbers};

#[unsafe(no_mangle)]
pub extern "C" fn noontrough_check(table: &[u8]) -> Numbers
    ensures { result ≡ numbers_of (answer_for (λ (n : ℕ). n) (check_call table.now)) }
{
    noontrough::noontrough_check(table)
}

#[unsafe(no_mangle)]
pub extern "C" fn noontrough_get(table: &[u8], source: &[u8], out: &mut [u8]) -> Numbers
    ensures { ExportsText (get_call table.now source.now (length out.old)) out.old out.new result }
{
    noontrough::noontrough_get(table, source, out)
}

#[unsafe(no_mangle)]
pub extern "C" fn noontrough_put(
    table: &[u8],
    sheet: &[u8],
    source: &[u8],
    out: &mut [u8],
) -> PutNumbers
    ensures { ExportsSource (put_call table.now sheet.now source.now (length out.old)) (put_tally table.now sheet.now source.now) out.old out.new result }
{
    noontrough::noontrough_put(table, sheet, source, out)
}

#[unsafe(no_mangle)]
pub extern "C" fn noontrough_create(table: &[u8], sheet: &[u8], out: &mut [u8]) -> Numbers
    ensures { ExportsText (create_call table.now sheet.now (length out.old)) out.old out.new result }
{
    noontrough::noontrough_create(table, sheet, out)
}

#[unsafe(no_mangle)]
pub extern "C" fn noontrough_clash(table: &[u8], out: &mut [u8]) -> ClashNumbers
    ensures { ExportsClash (clash_call table.now (length out.old)) out.old out.new result }
{
    noontrough::noontrough_clash(table, out)
}

#[unsafe(no_mangle)]
pub extern "C" fn noontrough_afm_import(section: &[u8], out: &mut [u8]) -> Numbers
    ensures { ExportsText (import_call section.now (length out.old)) out.old out.new result }
{
    noontrough::noontrough_afm_import(section, out)
}

#[unsafe(no_mangle)]
pub extern "C" fn noontrough_afm_export(sheet: &[u8], out: &mut [u8]) -> Numbers
    ensures { ExportsText (export_call sheet.now (length out.old)) out.old out.new result }
{
    noontrough::noontrough_afm_export(sheet, out)
}
