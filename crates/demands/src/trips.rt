// There and back: get and put, put and get, create and get.
ghost use Rattle.std.specs.Prelude.{length};
ghost use Rattle.semantics.specs.Calls.{get_call, put_call, create_call};
ghost use Rattle.demands.specs.Demands.{Made, Restores, TakesBack};
ghost use Rattle.demands.specs.Following.{Held, Follows};

use answers::Answer;
use answers::results::without_tally;
use arrays::filled;
use engine::create::create;
use engine::get::get;
use engine::put::put;

// The answers of two calls, one after the other, put's without its counts, and their whole buffers afterwards.
#[derive(Clone, Copy)]
pub struct TwoCalls {
    pub first: Answer,
    pub given: [u8; 4096],
    pub second: Answer,
    pub again: [u8; 4096],
}

pub fn get_then_put(bytes: &[u8], source: &[u8]) -> TwoCalls
    ensures made { Made (get_call bytes.now source.now 4096) (λ a. put_call bytes.now a source.now 4096) result }
    ensures demand { Restores bytes.now source.now result }
{
    let mut given: [u8; 4096] = filled(0);
    let mut again: [u8; 4096] = filled(0);
    let first = get(bytes, source, &mut given);
    let second = put_of(bytes, first, &given, source, &mut again);
    TwoCalls {
        first,
        given,
        second,
        again,
    }
}

pub fn put_then_get(bytes: &[u8], sheet: &[u8], old: &[u8]) -> TwoCalls
    ensures made { Made (put_call bytes.now sheet.now old.now 4096) (λ t. get_call bytes.now t 4096) result }
    ensures demand { TakesBack sheet.now result }
{
    let mut given: [u8; 4096] = filled(0);
    let mut again: [u8; 4096] = filled(0);
    let first = without_tally(put(bytes, sheet, old, &mut given));
    let second = get_of(bytes, first, &given, &mut again);
    TwoCalls {
        first,
        given,
        second,
        again,
    }
}

pub fn create_then_get(bytes: &[u8], sheet: &[u8]) -> TwoCalls
    ensures made { Made (create_call bytes.now sheet.now 4096) (λ t. get_call bytes.now t 4096) result }
    ensures demand { TakesBack sheet.now result }
{
    let mut given: [u8; 4096] = filled(0);
    let mut again: [u8; 4096] = filled(0);
    let first = create(bytes, sheet, &mut given);
    let second = get_of(bytes, first, &given, &mut again);
    TwoCalls {
        first,
        given,
        second,
        again,
    }
}

// Put of the sheet that a first call gave.
fn put_of(bytes: &[u8], first: Answer, given: &[u8], source: &[u8], again: &mut [u8]) -> Answer
    requires { Held given.now first }
    ensures { Follows given.now first (λ a. put_call bytes.now a source.now (length again.old)) again.old again.new result }
{
    let length = first?;
    without_tally(put(bytes, &given[..length], source, again))
}

// Get of the source that a first call gave.
fn get_of(bytes: &[u8], first: Answer, given: &[u8], again: &mut [u8]) -> Answer
    requires { Held given.now first }
    ensures { Follows given.now first (λ t. get_call bytes.now t (length again.old)) again.old again.new result }
{
    let length = first?;
    get(bytes, &given[..length], again)
}
