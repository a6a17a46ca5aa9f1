//! The laws of the least walk. Each function does nothing, and its contract is the law: only what a contract names is
//! proved.

ghost use Rattle.zk_least.specs.LeastWalk.{LeastWalkLaw, ConversationLaw};
ghost use Rattle.zk_least.specs.LeastSteps.{AttachedAboveZero, LeastStepLaw, PlacesRise};
ghost use Rattle.zk_least.specs.LeastMoments.{LeastMomentLaw, AllowedMomentLaw};
ghost use Rattle.zk_least.specs.LeastQueues.{LastNoticesLaw, LastUpdateLaw, PlainReplyLaw, QueueLaw};
ghost use Rattle.zk_least.specs.LeastReplies.{LeastRepliesLaw};

/// From an attachment, some walk that is lawful and fresh gives the packets exactly where the least walk does.
pub fn least_walk_decides()
    ensures { LeastWalkLaw }
{}

/// A conversation is lawful and fresh exactly where what is asked besides the walk holds and the least walk gives the packets.
pub fn least_walk_judges()
    ensures { ConversationLaw }
{}

/// The least walk gives some packets exactly where its least choice gives the first of them and it gives the rest from there.
pub fn least_walk_goes_step_by_step()
    ensures { LeastStepLaw }
{}

/// A connection is attached at a zxid above 0.
pub fn walks_begin_above_zero()
    ensures { AttachedAboveZero }
{}

/// No choice lowers the zxid up to which the client has been told.
pub fn places_do_not_fall()
    ensures { PlacesRise }
{}

/// The least moment of a reply is the first that is allowed among at most two.
pub fn least_moment_is_tried()
    ensures { LeastMomentLaw }
{}

/// An allowed moment is not before the last reply's, is after the frame's line, and is after the update of the reply's zxid and
/// before the next one; where the request has an update of its own, it is right after that one's line.
pub fn allowed_moments_are_bounded()
    ensures { AllowedMomentLaw }
{}

/// What is queued for a connection grows line by line.
pub fn queues_grow_line_by_line()
    ensures { QueueLaw }
{}

/// The moment right after the last update is found line by line: only the line of an update moves it.
pub fn last_updates_go_line_by_line()
    ensures { LastUpdateLaw }
{}

/// Before a reply without a moment, the whole queue up to the reply's zxid is told, and something is armed before its last update.
pub fn queues_are_told_before_plain_replies()
    ensures { PlainReplyLaw }
{}

/// After the last reply the packets are a front of the queue, which ends with the last notice of an update.
pub fn last_notices_are_a_front_of_the_queue()
    ensures { LastNoticesLaw }
{}

/// The least walk gives some packets exactly where its next reply and the queue before it come first, and it gives the rest from
/// there.
pub fn least_walk_goes_reply_by_reply()
    ensures { LeastRepliesLaw }
{}
