//! The least walk of a connection: what decides whether its packets are lawful and fresh, without a search.
//!
//! `specs/LeastWalk` defines it and states its law: some walk that is lawful and fresh gives the packets exactly where the least
//! walk does. The judge goes through the lines once. Its loop is `specs/LeastReplies`, which stands on `specs/LeastSteps` (one
//! choice), `specs/LeastMoments` (which moments to try for a reply, at most two) and `specs/LeastQueues` (which notices come before
//! a reply, and after the last).
#![tactic(auto)]

mod laws;

pub use laws::{
    allowed_moments_are_bounded, last_notices_are_a_front_of_the_queue,
    last_updates_go_line_by_line, least_moment_is_tried, least_walk_decides,
    least_walk_goes_reply_by_reply, least_walk_goes_step_by_step, least_walk_judges,
    places_do_not_fall, queues_are_told_before_plain_replies, queues_grow_line_by_line,
    walks_begin_above_zero,
};
