//! A rendezvous, and the offer of a word.

ghost use Rattle.std.specs.Prelude.{◌≡◌};
ghost use Rattle.jos_base.specs.Messages.{no_rendezvous, wanting, accepts, offered};
ghost use Rattle.jos_ipc.specs.Messages.{rendezvous_of, taken_by};

use jos_base::EnvId;

/// What an environment waits for, and what came last. (MIT 6.828, inc/env.h, `struct Env`: the fields of lab 4. That a
/// receiver may wait for one sender alone is this system's own.)
#[derive(Clone, Copy, Debug, PartialEq, Eq)]
pub struct Rendezvous {
    /// Whether it waits for a word.
    pub receiving: bool,
    /// The sender that is waited for; 0 is any.
    pub wanted: EnvId,
    /// Where a page is to stand; at `UTOP` or above none is wanted.
    pub destination: u32,
    /// The word that came.
    pub value: u32,
    /// Who sent it.
    pub sender: EnvId,
    /// The bits of the entry of the page that came with it, 0 where none came.
    pub perm: u32,
}

/// What becomes of a word that is offered.
#[derive(Clone, Copy, Debug, PartialEq, Eq)]
pub enum Offer {
    /// It has come.
    Taken,
    /// The environment does not wait, or not for this sender.
    NotReceiving,
}

impl Rendezvous {
    /// Of an environment that does not wait, and to which nothing came.
    pub fn none() -> Rendezvous
        ensures { rendezvous_of result ≡ no_rendezvous }
    {
        Rendezvous {
            receiving: false,
            wanted: EnvId(0),
            destination: 0,
            value: 0,
            sender: EnvId(0),
            perm: 0,
        }
    }

    /// Waits for a word of this sender, or of any where that is 0.
    pub fn want(&mut self, destination: u32, wanted: EnvId)
        ensures { rendezvous_of self.new ≡ wanting (rendezvous_of self.old) destination wanted.0 }
    {
        self.receiving = true;
        self.destination = destination;
        self.wanted = wanted;
    }

    /// Whether a word of this sender is waited for.
    pub fn accepts(&self, sender: EnvId) -> bool
        ensures { result ≡ accepts (rendezvous_of self.now) sender.0 }
    {
        self.receiving && (self.wanted.0 == 0 || self.wanted == sender)
    }

    /// Takes a word that is waited for, with the bits of the page that comes with it. The environment then waits no
    /// longer. A word that is not waited for changes nothing. (MIT 6.828, lab 4, `sys_ipc_try_send`)
    #[tactic(auto, unfolding(jos_base::specs::Messages::offered))]
    pub fn offer(&mut self, sender: EnvId, value: u32, perm: u32) -> Offer
        ensures taken { offered (rendezvous_of self.old) sender.0 value perm ≡ taken_by result self.new }
        ensures stays { result ≡ Offer.NotReceiving → self.new ≡ self.old }
    {
        if !self.accepts(sender) {
            return Offer::NotReceiving;
        }
        self.receiving = false;
        self.sender = sender;
        self.value = value;
        self.perm = perm;
        Offer::Taken
    }
}
