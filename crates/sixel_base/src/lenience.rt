//! The laws of lenient decoding, stated by a function with an empty body.

ghost use Rattle.std.specs.Prelude.{◌≡◌, ◌↔◌, None};
ghost use Rattle.sixel_base.specs.{History.History, Lenient.{ignored, tolerated}, Limits.Limit};
ghost use Rattle.sixel_base.specs.Payload.{first_fault};

/// States which tokens of a payload lenient decoding ignores.
///
/// - `faultless`: the tolerated tokens have no fault.
/// - `same`: of a payload without a fault all tokens are tolerated.
/// - `ignored`: none is ignored exactly if there is no fault.
#[tactic(auto, using(crate::proofs::ToleratedTokens::laws))]
pub fn tolerated_tokens()
    ensures faultless { (limit : Limit) (h : History)
        → first_fault limit (tolerated limit h) ≡ None }
    ensures same { (limit : Limit) (h : History) → first_fault limit h ≡ None
        → tolerated limit h ≡ h }
    ensures ignored { (limit : Limit) (h : History)
        → ignored limit h ≡ 0 ↔ first_fault limit h ≡ None }
{}
