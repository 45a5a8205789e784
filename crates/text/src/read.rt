// The numbers of a text, word by word.
// specs/Pieces has the definitions that the private contracts cite beside the grammar's.
ghost use Rattle.std.specs.Prelude.{◌≡◌};
ghost use Rattle.std.specs.List.{list_all};
ghost use Rattle.text.specs.Words.{parts};
ghost use Rattle.text.specs.Numbers.{digit, plain, positive, negative, number};
ghost use Rattle.text.specs.Pieces.{held};
ghost use Rattle.text.specs.Read.{Reads};

// Whether a byte is a space or a line end.
#[tactic(auto, unfolding(crate::specs::Words::parts))]
fn parts(byte: u8) -> bool
    ensures { result ≡ parts byte }
{
    matches!(byte, b' ' | b'\n')
}

// Whether every byte of a word is a digit.
#[tactic(auto, unfolding(crate::specs::Numbers::digit))]
fn all_digits(word: &[u8]) -> bool
    ensures { result ≡ list_all digit word.now }
{
    word.iter().all(|byte| byte.is_ascii_digit())
}

// Whether a word is digits, at least one, and a zero first only where it stands alone.
fn plain(word: &[u8]) -> bool
    ensures { result ≡ plain word.now }
{
    match word {
        [] => false,
        [first, rest @ ..] => all_digits(word) && (*first != b'0' || rest.is_empty()),
    }
}

// What a plain word's digits come to, where 32 bits hold it.
#[tactic(auto, using(crate::proofs::Amounts::none_held, crate::proofs::Amounts::not_held, crate::proofs::Amounts::held_is))]
fn amount(word: &[u8]) -> Option<u32>
    ensures { result ≡ held word.now }
{
    if !plain(word) {
        return None;
    }
    let mut amount: u32 = 0;
    for byte in word {
        amount = amount
            .checked_mul(10)?
            .checked_add(u32::from(byte.saturating_sub(b'0')))?;
    }
    Some(amount)
}

// A word without a sign, as a number.
#[tactic(auto, using(crate::proofs::Amounts::not_positive, crate::proofs::Amounts::positive_is))]
fn positive(word: &[u8]) -> Option<i32>
    ensures { result ≡ positive word.now }
{
    i32::try_from(amount(word)?).ok()
}

// What stands after a minus, as a number below 0.
#[tactic(auto, using(crate::proofs::Amounts::not_negative, crate::proofs::Amounts::negative_is, crate::proofs::Amounts::no_minus_zero))]
fn negative(word: &[u8]) -> Option<i32>
    ensures { result ≡ negative word.now }
{
    let amount = amount(word)?;
    if 1 <= amount {
        0i32.checked_sub_unsigned(amount)
    } else {
        None
    }
}

// A word as a number.
#[tactic(auto, unfolding(crate::specs::Numbers::positive))]
fn number(word: &[u8]) -> Option<i32>
    ensures { result ≡ number word.now }
{
    match word.strip_prefix(b"-") {
        Some(rest) => negative(rest),
        None => positive(word),
    }
}

// Reads a text's numbers over the start of `values`; one with more numbers than these is unreadable too.
// The words are counted here and not by `enumerate`, since their count is the answer.
pub fn numbers(text: &[u8], values: &mut [i32; 1543]) -> Option<usize>
    ensures { Reads text.now values.old result values.new }
{
    let words = text
        .split(|byte| parts(*byte))
        .filter(|word| !word.is_empty());
    let mut count = 0;
    for word in words {
        if count == values.len() {
            return None;
        }
        values[count] = number(word)?;
        count += 1;
    }
    Some(count)
}
