//! What the abstract system means. Nothing here is to be run: each clause is a theorem.

ghost use Rattle.lib_os.specs.AbstractLaws.{ForkCopies, OwnStoresAreUnseen, SharedStoresAreSeen, PipesAreBounded};
ghost use Rattle.lib_os.specs.AbstractLaws.{GuestMemoryIsLawful, StepsLeaveOthers, ClientsLeaveFiles, ServedClientsStay};
ghost use Rattle.lib_os.specs.Need.{NeedIsReached};
ghost use Rattle.lib_os.specs.PipeLaws.{CountsTellClosed};
ghost use Rattle.lib_os.specs.StandingLaws.{SomeStateStands, SomeCopyStands, WordsTellThePlace, RegistersTellThePlace};

/// A child of fork is born with the memory, the descriptors and the registers of its parent, but for EAX.
pub fn fork_copies()
    ensures { ForkCopies }
{}

/// What an environment writes to a page of its own is seen by no other, and what it writes to a shared page by all
/// who have that.
pub fn pages_are_own_or_shared()
    ensures own { OwnStoresAreUnseen }
    ensures shared { SharedStoresAreSeen }
{}

/// A write leaves a pipe that held no more bytes than it can with no more than that.
pub fn pipes_are_bounded()
    ensures { PipesAreBounded }
{}

/// Reaching a byte of a guest's memory changes nothing, and putting one changes no right and no other byte.
pub fn guest_memory_is_lawful()
    ensures { GuestMemoryIsLawful }
{}

/// A step of an environment leaves every other slot as it was, where it sends no message and makes no child.
pub fn steps_leave_others()
    ensures { StepsLeaveOthers }
{}

/// A step of an environment leaves the files, the table of open files and the objects that there were, and the file server
/// but where it asks that; and no environment has a descriptor for a file for which none had one before.
pub fn clients_leave_files()
    ensures { ClientsLeaveFiles }
{}

/// Whom the file server serves is an environment that has asked and has no reply yet, and stays so until its reply,
/// whatever slot makes a step.
pub fn served_clients_stay()
    ensures { ServedClientsStay }
{}

/// There are states of the kernel that stand for abstract ones, also such in which an environment's page is half copied.
pub fn some_state_stands()
    ensures state { SomeStateStands }
    ensures copy { SomeCopyStands }
{}

/// The words that a service keeps at a step tell which service it is and how far, and the registers of the handler of page
/// faults how far that is.
pub fn words_tell_the_place()
    ensures words { WordsTellThePlace }
    ensures registers { RegistersTellThePlace }
{}

/// Where each frame that the kernel hands out has a use and no more than one is free, the abstract system wants as many
/// frames as are handed out.
pub fn need_is_reached()
    ensures { NeedIsReached }
{}

/// Where the page of a descriptor of an end of a pipe is mapped as often as the page of that pipe, nobody has the other end;
/// and where it is not, the other end may be open still.
pub fn counts_tell_closed()
    ensures { CountsTellClosed }
{}
