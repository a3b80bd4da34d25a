ghost use Rattle.std.specs.Prelude.{◌≡◌, ℕ, List};
ghost use Rattle.bean_codec.specs.declared.profile.Profile.{Profile};
ghost use Rattle.session.specs.declared.faults.End.{End};
ghost use Rattle.session.specs.Items.{Response, IsTranscript};
ghost use Rattle.std.specs.List.{concat};

use bean_codec::{front_item, one_item};

/// With the same answers, every input has one transcript, however it is cut into pieces: what a client is told is a
/// function of the bytes that it sent and of what the service answered.
pub fn one_transcript()
    ensures exists { (profile : Profile) (input : List ℕ) (answers : List Response)
        → (output : List ℕ) × (end : End) × IsTranscript profile input answers output end }
    ensures unique { (profile : Profile) (input : List ℕ) (answers : List Response) (a b : List ℕ) (d e : End) →
        IsTranscript profile input answers a d → IsTranscript profile input answers b e → (a ≡ b) × (d ≡ e) }
    ensures any_cut { (profile : Profile) (pieces others : List (List ℕ)) (answers : List Response) (a b : List ℕ)
        (d e : End) →
        concat pieces ≡ concat others → IsTranscript profile (concat pieces) answers a d
        → IsTranscript profile (concat others) answers b e → (a ≡ b) × (d ≡ e) }
{
    front_item();
    one_item();
}
