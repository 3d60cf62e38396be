// What a host may rely on when it reads a preview. Each function's promise is one law; it computes nothing.
ghost use Rattle.self_clocked.specs.Previews.{StartsFollowTheOrder, OrderIsByMarkAndSession};

// Whatever starts and finishes come, the packets that they start are the front of the order that a preview tells.
#[tactic(auto, using(crate::proofs::Orders::starts_follow_the_order))]
pub fn starts_follow_the_order()
    ensures { StartsFollowTheOrder }
{}

// On every line that began new the order is that of the marks, and of equal marks that of the sessions; it has each waiting packet once.
#[tactic(auto, using(crate::proofs::Sorting::order_is_by_mark_and_session))]
pub fn order_is_by_mark_and_session()
    ensures { OrderIsByMarkAndSession }
{}
