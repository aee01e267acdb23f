//! The arguments of the program that shows a picture: numbers, and the choice of a palette.

#![tactic(auto)]

ghost use Rattle.std.specs.Prelude.{◌≡◌};
ghost use Rattle.arguments.specs.Arguments as Arguments;
ghost use Rattle.arguments.specs.Digits.{Digit};

// A number above every count of a block. An argument that spells a greater one is taken for it: both are refused alike.
const MAX_NUMBER: usize = 65535;

// The number that is spelled by the digits of n and one digit more.
fn with_digit(n: usize, digit: u8) -> usize
    requires { Digit digit }
    ensures { result ≡ Arguments.capped (Arguments.with_digit n digit) }
{
    let digit = usize::from(digit - b'0');
    n.saturating_mul(10).saturating_add(digit).min(MAX_NUMBER)
}

/// A number in decimal digits, of which there is at least one. Other texts spell none.
#[tactic(auto, using(crate::proofs::Spellings::none_spelled))]
pub fn parse_number(text: &[u8]) -> Option<usize>
    ensures { result ≡ Arguments.number_of text.now }
{
    if text.is_empty() {
        return None;
    }
    text.iter()
        .try_fold(0, |n, &b| b.is_ascii_digit().then(|| with_digit(n, b)))
}

/// A palette's number, or `-` for no palette. Other texts spell no choice.
#[tactic(auto, unfolding(crate::specs::Arguments::is_dash, crate::specs::Arguments::choice_of))]
pub fn parse_choice(text: &[u8]) -> Option<Option<usize>>
    ensures { result ≡ Arguments.choice_of text.now }
{
    match text {
        b"-" => Some(None),
        _ => parse_number(text).map(Some),
    }
}
