//! The system calls by which environments send words and pages to one another.

ghost use Rattle.std.specs.Prelude.{◌≡◌, ℕ, ◌%◌, ◌==◌, ◌&&◌, nat_lt, not, List, true, false};
ghost use Rattle.jos_base.specs.declared.numbers.TheConstants.{PGSIZE, UTOP};
ghost use Rattle.jos_base.specs.Environments.{found};
ghost use Rattle.jos_base.specs.KernelState.{slot_at};
ghost use Rattle.jos_base.specs.Messages.{accepts};
ghost use Rattle.jos_base.specs.SystemCalls.{answered, message_taken, passing_of, ipc_try_send_of, ipc_recv};
ghost use Rattle.jos_sys.specs.Messages.{passing_is, IsPagePassing};
ghost use Rattle.jos_sys.specs.System.{state_of, spaces_of, Keeps, is_live_in, IsDone};

use crate::system::{CallAnswer, System};
use jos_base::{Called, EnvId, Errno, Frame, PGSIZE, Regs, Status, UTOP};
use jos_ipc::Offer;
use jos_space::Empty;

/// What is to pass beside a word.
#[derive(Clone, Copy)]
enum Passing {
    Nothing,
    /// The page in this frame.
    Page(Frame),
    /// A page that may not pass.
    Invalid,
}

/// Whether a receiver may name an address: below `UTOP`, that of a page; above, none is wanted.
fn is_destination(va: u32) -> bool
    ensures { result ≡ not (nat_lt va UTOP && not (va % PGSIZE == 0)) }
{
    va >= UTOP || va % PGSIZE == 0
}

impl System {
    /// What of the sender's is to pass to one that wants a page at this destination. The sender's page is tested wherever its
    /// address lies below UTOP.
    fn passing(&self, sender: usize, destination: u32, va: u32, perm: u32) -> Passing
        requires live { is_live_in self.now sender ≡ true }
        requires spaces { Keeps self.now }
        ensures exact { (input : List ℕ) → passing_is result perm ≡ passing_of (state_of self.now input) sender destination va perm }
        ensures page { IsPagePassing (spaces_of self.now) destination perm result }
    {
        if va >= UTOP {
            return Passing::Nothing;
        }
        if va % PGSIZE != 0 {
            return Passing::Invalid;
        }
        match self.page_to_share(sender, va, perm) {
            Some(frame) => {
                if destination < UTOP {
                    Passing::Page(frame)
                } else {
                    Passing::Nothing
                }
            }
            None => Passing::Invalid,
        }
    }

    /// Gives the caller's word to an environment that waits for it, which may run again.
    fn send(&mut self, current: usize, target: usize, value: u32, perm: u32) -> CallAnswer
        requires live { is_live_in self.old current ≡ true }
        requires target { is_live_in self.old target ≡ true }
        requires spaces { Keeps self.old }
        requires accepts { (input : List ℕ) → accepts (slot_at (state_of self.old input) target).rendezvous (slot_at (state_of self.old input) current).id ≡ true }
        ensures state { (input : List ℕ) → IsDone result (answered (message_taken (state_of self.old input) current target value perm) current 0) (state_of self.new input) }
        ensures spaces { Keeps self.new }
    {
        let sender = self.environment(current).id;
        let mut rendezvous = self.environment(target).rendezvous;
        match rendezvous.offer(sender, value, perm) {
            Offer::Taken => {
                self.set_rendezvous(target, rendezvous);
                self.set_status(target, Status::Runnable);
                let registers = self.registers(target);
                self.set_registers(
                    target,
                    Regs {
                        eax: 0,
                        ..registers
                    },
                );
                self.answer(current, 0)
            }
            Offer::NotReceiving => unreachable!(),
        }
    }

    /// Sends a word, and perhaps a page with it, to the environment that an id names, if that waits for it.
    pub(crate) fn ipc_try_send(
        &mut self,
        current: usize,
        id: EnvId,
        value: u32,
        va: u32,
        perm: u32,
    ) -> CallAnswer
        requires live { is_live_in self.old current ≡ true }
        requires spaces { Keeps self.old }
        ensures state { (input : List ℕ) → IsDone result (ipc_try_send_of (state_of self.old input) current (found (state_of self.old input).environments id.0 current false) value va perm) (state_of self.new input) }
        ensures spaces { Keeps self.new }
    {
        let target = match self.table.find(id, current, false) {
            Some(target) => target,
            None => return self.refuse(current, Errno::BadEnv),
        };
        let sender = self.environment(current).id;
        let rendezvous = self.environment(target).rendezvous;
        if !rendezvous.accepts(sender) {
            return self.refuse(current, Errno::IpcNotRecv);
        }
        match self.passing(current, rendezvous.destination, va, perm) {
            Passing::Nothing => self.send(current, target, value, 0),
            Passing::Page(frame) => {
                match self.insert(target, rendezvous.destination / PGSIZE, frame, perm) {
                    Ok(()) => self.send(current, target, value, perm),
                    Err(Empty) => self.refuse_frame(current),
                }
            }
            Passing::Invalid => self.refuse(current, Errno::Invalid),
        }
    }

    /// Waits for a word, from this sender where its id is not 0, and for a page at an address below `UTOP`.
    pub(crate) fn ipc_recv(&mut self, current: usize, va: u32, sender: EnvId) -> CallAnswer
        requires live { is_live_in self.old current ≡ true }
        requires spaces { Keeps self.old }
        ensures state { (input : List ℕ) → IsDone result (ipc_recv (state_of self.old input) current va sender.0) (state_of self.new input) }
        ensures spaces { Keeps self.new }
    {
        if !is_destination(va) {
            return self.refuse(current, Errno::Invalid);
        }
        let mut rendezvous = self.environment(current).rendezvous;
        rendezvous.want(va, sender);
        self.set_rendezvous(current, rendezvous);
        self.set_status(current, Status::NotRunnable);
        CallAnswer {
            called: Called::Blocked,
            written: 0,
        }
    }
}
