// Document 02 (v), with the calls as they are: there and back between a sheet and Adobe's metrics. Each function makes two calls, with buffers of 65,535 bytes
// of its own, and promises what the document says of them. Nothing links these functions. They tie its sentences to the contracts of the calls: with a weaker
// contract they could not be proved.
#![tactic(auto)]

ghost use Rattle.std.specs.Prelude.{length};
ghost use Rattle.sections.specs.Afm.{import_call, export_call};
ghost use Rattle.demands.specs.Following.{Held, Follows};
ghost use Rattle.exchange.specs.Exchange.{Made, SameSheet, KeepsPairs};

use afm::export::export;
use afm::import::import;
use answers::Answer;
use arrays::filled;

// The answers of two calls, one after the other, and their whole buffers afterwards.
#[derive(Clone, Copy)]
pub struct Exchange {
    pub first: Answer,
    pub given: [u8; 65535],
    pub second: Answer,
    pub again: [u8; 65535],
}

pub fn export_then_import(sheet: &[u8]) -> Exchange
    ensures made { Made (export_call sheet.now 65535) (λ x. import_call x 65535) result }
    ensures same_sheet { SameSheet sheet.now result }
{
    let mut given: [u8; 65535] = filled(0);
    let mut again: [u8; 65535] = filled(0);
    let first = export(sheet, &mut given);
    let second = import_of(first, &given, &mut again);
    Exchange {
        first,
        given,
        second,
        again,
    }
}

pub fn import_then_export(section: &[u8]) -> Exchange
    ensures made { Made (import_call section.now 65535) (λ s. export_call s 65535) result }
    ensures kept { KeepsPairs section.now result }
{
    let mut given: [u8; 65535] = filled(0);
    let mut again: [u8; 65535] = filled(0);
    let first = import(section, &mut given);
    let second = export_of(first, &given, &mut again);
    Exchange {
        first,
        given,
        second,
        again,
    }
}

// Import of the section that a first call gave.
fn import_of(first: Answer, given: &[u8], again: &mut [u8]) -> Answer
    requires { Held given.now first }
    ensures { Follows given.now first (λ x. import_call x (length again.old)) again.old again.new result }
{
    let length = first?;
    import(&given[..length], again)
}

// Export of the sheet that a first call gave.
fn export_of(first: Answer, given: &[u8], again: &mut [u8]) -> Answer
    requires { Held given.now first }
    ensures { Follows given.now first (λ s. export_call s (length again.old)) again.old again.new result }
{
    let length = first?;
    export(&given[..length], again)
}
