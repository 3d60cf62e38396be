// What is kept of an open session, beside its packets.
ghost use Rattle.std.specs.Prelude.{◌≡◌};
ghost use Rattle.sessions.specs.Seats.{new_account, with_octets};

use calls::call::Terms;

// What the session was opened with, and what its finished packets were charged.
#[derive(Clone, Copy)]
pub(crate) struct Account {
    pub(crate) terms: Terms,
    pub(crate) octets: u64,
}

impl Account {
    // The account of a session that is opened with these terms.
    pub(crate) fn new(terms: Terms) -> Account
        ensures { result ≡ new_account terms }
    {
        Account { terms, octets: 0 }
    }

    // The account with this amount added to its octets, as far as 64 bits go.
    pub(crate) fn credited(self, amount: u64) -> Account
        ensures { result ≡ with_octets amount self }
    {
        Account {
            octets: self.octets.saturating_add(amount),
            ..self
        }
    }
}
