// Parts of lines: numbers up to a greatest one, and words.

ghost use Rattle.std.specs.Prelude.{◌≡◌, ◌≤◌, IfSome};
ghost use Rattle.ballots.specs.Ballot.{most_members};
ghost use Rattle.event_files.specs.Forms.{kept_of, number_to};
ghost use Rattle.event_files.specs.Within.{IsMember};

use ballots::Members;
use ballots::limits::MOST_MEMBERS;
use line_parts::read_number;

/// A number from 1 to `most`, in decimal.
#[tactic(auto, unfolding(crate::specs::Forms::number_to))]
pub(crate) fn read_number_to(most: u64, digits: &str) -> Option<u64>
    ensures value { result ≡ number_to most digits.now }
    ensures range { IfSome result (λ n. (1 ≤ n) × (n ≤ most)) }
{
    let number = read_number(digits)?;
    if 1 <= number && number <= most {
        Some(number)
    } else {
        None
    }
}

/// The number of one of so many members.
pub(crate) fn read_member(members: Members, digits: &str) -> Option<u8>
    ensures value { result ≡ number_to members digits.now }
    ensures within { IfSome result (IsMember members) }
{
    let number = read_number_to(u64::from(members.count()), digits)?;
    Some(number as u8)
}

/// How many members there are.
pub(crate) fn read_count(digits: &str) -> Option<Members>
    ensures { result ≡ number_to most_members digits.now }
{
    let number = read_number_to(u64::from(MOST_MEMBERS), digits)?;
    Members::new(number as u8)
}

/// `kept` (`true`) or `lost` (`false`).
#[tactic(auto, unfolding(crate::specs::Forms::kept_of))]
pub(crate) fn read_kept(word: &str) -> Option<bool>
    ensures { result ≡ kept_of word.now }
{
    match word {
        "kept" => Some(true),
        "lost" => Some(false),
        _ => None,
    }
}
