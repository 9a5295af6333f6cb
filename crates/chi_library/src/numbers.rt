//! The numbers of C's enums.

ghost use Rattle.std.specs.Prelude.{◌≡◌};
ghost use Rattle.chi_library.specs.Numbers.{flag_number, profile_of};

use chi_flit::Profile;

/// The profile of a number; `None` where it names none.
pub(crate) fn profile_at(number: u8) -> Option<Profile>
    ensures { result ≡ profile_of number }
{
    match number {
        0 => Some(Profile::Two),
        1 => Some(Profile::Four),
        _ => None,
    }
}

/// The number of a flag: 1 where it is set, else 0.
pub(crate) fn flag_number(flag: bool) -> u8
    ensures { result ≡ flag_number flag }
{
    if flag { 1 } else { 0 }
}
