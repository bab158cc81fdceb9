ghost use Rattle.eval_face.specs.Agreement.{AgreeingWorldsGiveOneMeaning};
ghost use Rattle.eval_face.specs.Fitted.{EachValueIsFitted};
ghost use Rattle.eval_face.specs.JoinedContents.{FormatsJoinTheirContents};

/// A value that an expression gives under a want is fitted to it: fitting it once more changes nothing.
#[tactic(auto, using(crate::proofs::FittedLaws::each_value_is_fitted))]
pub fn values_are_fitted()
    ensures { EachValueIsFitted }
{}

/// Two worlds that agree on what an expression mentions give it one meaning.
#[tactic(auto, using(crate::proofs::AgreementLaws::agreeing_worlds))]
pub fn agreeing_worlds_give_one_meaning()
    ensures { AgreeingWorldsGiveOneMeaning }
{}

/// The contents of what a `format` means, joined, are what `concat` means of them.
#[tactic(auto, using(crate::proofs::JoinedLaws::joined_contents))]
pub fn formats_join_their_contents()
    ensures { FormatsJoinTheirContents }
{}
