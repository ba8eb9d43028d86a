//! The brackets by which needs are counted, by their numbers.

ghost use Rattle.std.specs.Prelude.{◌≡◌, ◌^◌, ◌<◌};
ghost use Rattle.rt_profile.specs.NeedCounts.{bracket_count, bracket_number, beyond_in, number_from, number_to};

/// How many brackets there are: they reach up to 2^41.
pub(crate) const BRACKETS: usize = 608;

/// The number of the bracket of a need.
pub(crate) fn bracket_of(need: u64) -> usize
    requires { need < 2 ^ 41 }
    ensures value { result ≡ bracket_number need }
    ensures within { result < bracket_count }
{
    let beyond = 59u32.saturating_sub(need.leading_zeros());
    16 * beyond as usize + (need >> beyond) as usize
}

/// How many binary digits beyond five the numbers of a bracket have.
fn digits_beyond_in(bracket: usize) -> usize
    ensures { result ≡ beyond_in bracket }
{
    (bracket / 16).saturating_sub(1)
}

/// The first number of a bracket.
pub(crate) fn first_number(bracket: usize) -> u64
    requires { bracket < bracket_count }
    ensures { result ≡ number_from bracket }
{
    let beyond = digits_beyond_in(bracket);
    ((bracket - 16 * beyond) as u64) << beyond
}

/// Its last number.
pub(crate) fn last_number(bracket: usize) -> u64
    requires { bracket < bracket_count }
    ensures { result ≡ number_to bracket }
{
    first_number(bracket) + ((1u64 << digits_beyond_in(bracket)) - 1)
}
