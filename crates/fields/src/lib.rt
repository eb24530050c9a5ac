// The lines of kerning sections and of sheets, field by field. Each function looks at the start of a text and answers what it finds there, or what is behind it, or
// nothing where it is not there.
#![tactic(auto)]

ghost use Rattle.std.specs.Prelude.{◌≡◌, true, ◌≤◌, length, drop, MatchOption, IfSome};
ghost use Rattle.sections.specs.Afm.{each, is_name_byte, is_digit, number_of};
ghost use Rattle.sections.proofs.Splitting.{is_space};
ghost use Rattle.fields.specs.Scan.{run, name_length, front, number_in, value_length, separator_length, lead_length, NoWord, HasWord, IsWithin, Finds, IsBehind, NoLead};
ghost use Rattle.fields.specs.Lines.{NoPair, IsPairLine};

// The longest name.
const NAME: usize = 63;

// The largest value, and the least one without its minus.
const VALUE: usize = 32767;

const NEGATIVE: usize = 32768;

// How a line holds a pair: `KPX` and three fields between spaces, or three fields between semicolons.
#[derive(Clone, Copy)]
pub enum Form {
    Kpx,
    Sheet,
}

// How many digits a number has, and the number.
#[derive(Clone, Copy)]
pub struct Digits {
    pub count: usize,
    pub number: usize,
}

// The fields of a line with a pair, and the text behind the line.
#[derive(Clone, Copy)]
pub struct PairLine<'a> {
    pub left: &'a [u8],
    pub right: &'a [u8],
    pub value: &'a [u8],
    pub rest: &'a [u8],
}

#[tactic(auto, unfolding(sections::specs::Afm::is_name_byte))]
fn is_name_byte(byte: u8) -> bool
    ensures { result ≡ is_name_byte byte }
{
    byte.is_ascii_graphic() && byte != b';'
}

// A name has 1 to 63 bytes.
fn name_length(text: &[u8]) -> Option<usize>
    ensures { Finds (name_length text.now) text.now result }
{
    let count = text.iter().take_while(|byte| is_name_byte(**byte)).count();
    (1..=NAME).contains(&count).then_some(count)
}

// The digits that a text begins with.
fn first_digits(text: &[u8]) -> &[u8]
    ensures digits { result.now ≡ front is_digit text.now }
    ensures within { length result.now ≤ length text.now }
{
    let count = text.iter().take_while(|byte| byte.is_ascii_digit()).count();
    &text[..count]
}

// The number that some digits write, up to a limit.
fn number_within(limit: usize, digits: &[u8]) -> Option<usize>
    requires limit_bound { limit ≤ 65535 }
    requires digits_value { each is_digit digits.now ≡ true }
    ensures { IsWithin limit (number_of digits.now) result }
{
    let mut number = 0;
    for digit in digits {
        number = 10 * number + usize::from(*digit - b'0');
        if limit < number {
            return None;
        }
    }
    Some(number)
}

// A whole number up to a limit, without leading zeros.
pub fn number_at(limit: usize, text: &[u8]) -> Option<Digits>
    requires { limit ≤ 65535 }
    ensures value { result ≡ number_in limit (front is_digit text.now) }
    ensures within { IfSome result (λ found. found.count ≤ length text.now) }
{
    let digits = first_digits(text);
    match digits {
        [] | [b'0', _, ..] => None,
        _ => {
            let number = number_within(limit, digits)?;
            Some(Digits {
                count: digits.len(),
                number,
            })
        }
    }
}

// A whole number from -32768 to 32767. Minus nought is none.
fn value_length(text: &[u8]) -> Option<usize>
    ensures { Finds (value_length text.now) text.now result }
{
    match text {
        [b'-', digits @ ..] => {
            let negative = number_at(NEGATIVE, digits)?;
            if negative.number == 0 {
                return None;
            }
            Some(1 + negative.count)
        }
        _ => {
            let plain = number_at(VALUE, text)?;
            Some(plain.count)
        }
    }
}

// What is behind one space or more.
fn after_spaces(text: &[u8]) -> Option<&[u8]>
    ensures { MatchOption result (run is_space text.now ≡ 0) (λ rest. IsBehind (run is_space text.now) text.now rest.now) }
{
    let count = text.iter().take_while(|byte| **byte == b' ').count();
    if count == 0 {
        return None;
    }
    Some(&text[count..])
}

// What is behind that which separates two fields.
fn after_separator(form: Form, text: &[u8]) -> Option<&[u8]>
    ensures { MatchOption result (separator_length form text.now ≡ 0) (λ rest. IsBehind (separator_length form text.now) text.now rest.now) }
{
    match form {
        Form::Kpx => after_spaces(text),
        Form::Sheet => text.strip_prefix(b";"),
    }
}

// What is behind a word and the spaces that follow it.
pub fn after_word<'a>(word: &[u8], text: &'a [u8]) -> Option<&'a [u8]>
    ensures { MatchOption result (NoWord word.now text.now) (λ rest. HasWord word.now text.now rest.now) }
{
    let rest = text.strip_prefix(word)?;
    after_spaces(rest)
}

// What is behind that which stands in front of the left name.
fn after_lead(form: Form, text: &[u8]) -> Option<&[u8]>
    ensures { MatchOption result (NoLead form text.now) (λ rest. rest.now ≡ drop (lead_length form text.now) text.now) }
{
    match form {
        Form::Kpx => after_word(b"KPX", text),
        Form::Sheet => Some(text),
    }
}

// The line with a pair at the start of a text.
pub fn pair_line(form: Form, text: &[u8]) -> Option<PairLine<'_>>
    ensures { MatchOption result (NoPair form text.now) (λ line. IsPairLine form text.now line) }
{
    let from_left = after_lead(form, text)?;
    let (left, behind_left) = from_left.split_at(name_length(from_left)?);
    let from_right = after_separator(form, behind_left)?;
    let (right, behind_right) = from_right.split_at(name_length(from_right)?);
    let from_value = after_separator(form, behind_right)?;
    let (value, behind_value) = from_value.split_at(value_length(from_value)?);
    let rest = behind_value.strip_prefix(b"\n")?;
    Some(PairLine {
        left,
        right,
        value,
        rest,
    })
}
