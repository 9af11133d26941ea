// Numbers in arguments.
ghost use Rattle.std.specs.Prelude.{◌≡◌, ◌≤◌, IfSome};
ghost use Rattle.std.specs.Char.{is_digit};
ghost use Rattle.std.specs.List.{list_all};
ghost use Rattle.ldisk_model.specs.Arguments.{decimal_at, type_at};

/// The number from `low` to `high` that decimal digits write. Zeros may come before it, and nothing else.
#[tactic(auto, using(crate::proofs::NumberLemmas::decimal_narrow))]
pub(crate) fn decimal_between(low: u32, high: u32, text: &str) -> Option<u32>
    ensures value { result ≡ decimal_at low high text.now }
    ensures most { IfSome result (λ number. number ≤ high) }
{
    let number = decimal_in(text)?;
    if low <= number && number <= high {
        Some(number)
    } else {
        None
    }
}

/// The number that decimal digits write, where it has 32 bits at most.
fn decimal_in(text: &str) -> Option<u32>
    ensures { result ≡ decimal_at 0 4294967295 text.now }
{
    if !are_digits(text.as_bytes()) {
        return None;
    }
    text.parse::<u32>().ok()
}

fn are_digits(text: &[u8]) -> bool
    ensures { result ≡ list_all (λ c. is_digit c 10) text.now }
{
    text.iter().all(is_digit)
}

fn is_digit(byte: &u8) -> bool
    ensures { result ≡ is_digit byte.now 10 }
{
    char::from(*byte).is_digit(10)
}

/// The type of a partition that two hexadecimal digits write.
#[tactic(auto, unfolding(ldisk_model::specs::Arguments::type_at))]
pub(crate) fn type_in(text: &[u8]) -> Option<u8>
    ensures { result ≡ type_at text.now }
{
    match text {
        [high, low] => {
            let high = char::from(*high).to_digit(16)?;
            let low = char::from(*low).to_digit(16)?;
            Some((16 * high + low) as u8)
        }
        _ => None,
    }
}
