// The crate's theorems. Each is the contract of a function that does nothing, so that the check names it among what it proves.
ghost use Rattle.link.specs.Claims.{HandsOverFrames, Delivers, DeliversAlone, LosesAt255, HandsOverParts, FinderFollows, FeedFollows, FeedGoesOn, FeedUses, ControlPasses, ControlFramed, OneProcedure};

#[tactic(auto, using(crate::proofs::Claimed::hands_over_frames))]
pub fn claim_hands_over_frames()
    ensures { HandsOverFrames }
{}

#[tactic(auto, using(crate::proofs::Claimed::delivered))]
pub fn claim_delivers()
    ensures { Delivers }
{}

#[tactic(auto, using(crate::proofs::Claimed::delivered_alone))]
pub fn claim_delivers_alone()
    ensures { DeliversAlone }
{}

#[tactic(auto, using(crate::proofs::Claimed::loses_at_255))]
pub fn claim_loses_at_255()
    ensures { LosesAt255 }
{}

pub fn claim_hands_over_parts()
    ensures { HandsOverParts }
{}

#[tactic(auto, using(crate::proofs::Claimed::finder_follows))]
pub fn claim_finder_follows()
    ensures { FinderFollows }
{}

#[tactic(auto, using(crate::proofs::Claimed::feed_follows))]
pub fn claim_feed_follows()
    ensures { FeedFollows }
{}

#[tactic(auto, using(crate::proofs::Claimed::feed_goes_on))]
pub fn claim_feed_goes_on()
    ensures { FeedGoesOn }
{}

pub fn claim_feed_uses()
    ensures { FeedUses }
{}

#[tactic(auto, using(crate::proofs::Claimed::control_passes))]
pub fn claim_control_passes()
    ensures { ControlPasses }
{}

#[tactic(auto, using(crate::proofs::Claimed::control_is_framed))]
pub fn claim_control_framed()
    ensures { ControlFramed }
{}

#[tactic(auto, using(crate::proofs::Claimed::one_procedure))]
pub fn claim_one_procedure()
    ensures { OneProcedure }
{}
