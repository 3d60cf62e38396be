// The entries of a ready line and the order in which they are taken.
ghost use Rattle.std.specs.Prelude.{◌≡◌};
ghost use Rattle.ready.specs.Order.{at_most};

// A tag, and the session that waits with it.
pub type Entry = (u64, u32);

// Whether the first comes before the second or is the same: the smaller tag comes first, and of equal tags the smaller session.
pub fn at_most(first: Entry, second: Entry) -> bool
    ensures { result ≡ at_most first second }
{
    let (tag, session) = first;
    let (other_tag, other_session) = second;
    tag < other_tag || tag == other_tag && session <= other_session
}
