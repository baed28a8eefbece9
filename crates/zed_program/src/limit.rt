//! The limit of a profile.
ghost use Rattle.std.specs.Prelude.{◌≡◌, ◌≤◌};
ghost use Rattle.zed_types.specs.declared.limits.TheConstants.{READ_BODY_LIMIT as most};
ghost use Rattle.zed_program.specs.Limit.{limit_of as limit_for};

use zed_types::{BODY_LIMIT, READ_BODY_LIMIT};
use zed_words::Profile;

/// The most bytes of a board's body in a profile.
pub(crate) fn limit_of(profile: Profile) -> usize
    ensures result { result ≡ limit_for profile }
    ensures within { result ≤ most }
{
    match profile {
        Profile::Usual => BODY_LIMIT,
        Profile::Big => READ_BODY_LIMIT,
    }
}
