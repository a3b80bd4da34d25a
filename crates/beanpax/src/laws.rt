ghost use Rattle.std.specs.Prelude.{◌≡◌, ℕ, List, map};
ghost use Rattle.bean_codec.specs.declared.profile.Profile.{Profile};
ghost use Rattle.session.specs.declared.faults.End.{End};
ghost use Rattle.session.specs.Items.{Response};
ghost use Rattle.beanpax.specs.Sessions.{is_refused};
ghost use Rattle.beanpax.specs.Told.{IsToldWith};

use bean_codec::one_item;

/// In each profile an input has one transcript at most, but for which operations were refused for want of memory: what a
/// client is told is a function of the bytes that it sent, and of that.
pub fn one_output()
    ensures unique { (profile : Profile) (input a b : List ℕ) (d e : End) (xs ys : List Response)
        → IsToldWith profile xs input a d → IsToldWith profile ys input b e
        → map is_refused xs ≡ map is_refused ys → (a ≡ b) × (d ≡ e) }
{
    one_item();
}
