ghost use Rattle.std.specs.Prelude.{◌≡◌, ◌≤◌};
ghost use Rattle.std.specs.Char.{is_ascii_digit};
ghost use Rattle.std.specs.List.{list_all};
ghost use Rattle.command_words.specs.Asked.{number_in_digits, limit_written, load_number_of};

/// The most digits of a limit.
const LIMIT_DIGITS: usize = 7;

/// The greatest limit of firings.
const LIMIT_MAX: u64 = 1_000_000;

/// The most digits of the number of a load.
const LOAD_DIGITS: usize = 10;

/// The greatest number of a load.
const LOAD_MAX: u64 = 2_147_483_647;

fn are_digits(text: &str) -> bool
    ensures { result ≡ list_all is_ascii_digit text.now }
{
    text.as_bytes().iter().all(|b| b.is_ascii_digit())
}

/// The number that decimal digits write, from 1 to so many.
#[tactic(auto, unfolding(crate::specs::Asked::number_in_digits))]
fn number_of(text: &str, most: usize) -> Option<u64>
    requires { most ≤ 10 }
    ensures { result ≡ number_in_digits most text.now }
{
    if text.is_empty() || text.len() > most || !are_digits(text) {
        return None;
    }
    text.parse::<u64>().ok()
}

/// The limit from 1 to 1,000,000 that the text writes.
#[tactic(auto, unfolding(crate::specs::Asked::limit_written))]
pub(crate) fn limit_of(text: &str) -> Option<u64>
    ensures { result ≡ limit_written text.now }
{
    let limit = number_of(text, LIMIT_DIGITS)?;
    if 1 <= limit && limit <= LIMIT_MAX {
        Some(limit)
    } else {
        None
    }
}

/// The number of a load, from 0 to 2,147,483,647, that the text writes.
#[tactic(auto, unfolding(crate::specs::Asked::load_number_of))]
pub(crate) fn load_number_of(text: &str) -> Option<u32>
    ensures { result ≡ load_number_of text.now }
{
    let number = number_of(text, LOAD_DIGITS)?;
    if number <= LOAD_MAX {
        Some(number as u32)
    } else {
        None
    }
}
