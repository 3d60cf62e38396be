// What a reader of listings may rely on. Each function's promise is one law; it computes nothing.
ghost use Rattle.listing.specs.Tellings.{ListingsTellHistories, CutsLeaveTheListing};

// The listing of every trace tells the history of the calls that were read, on a new self-clocked line, and that history is fair.
#[tactic(auto, using(crate::proofs::Tellings::listings_tell_histories))]
pub fn listings_tell_histories()
    ensures { ListingsTellHistories }
{}

// A trace that comes in chunks, wherever it is cut, has the listing of the whole.
#[tactic(auto, using(crate::proofs::Tellings::cuts_leave_the_listing))]
pub fn cuts_leave_the_listing()
    ensures { CutsLeaveTheListing }
{}
