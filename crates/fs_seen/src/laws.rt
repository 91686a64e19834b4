//! What the server's calls mean to it. Nothing here is to be run: each clause is a theorem.

ghost use Rattle.fs_seen.specs.BlockSteps.{FlushesServe, JobsAreLawful, JobsServe};
ghost use Rattle.fs_seen.specs.ServerFew.{CallsTakeFew, FlushesTakeFew, JobsTakeFew, OthersLeaveFew, RequestsTakeFew};
ghost use Rattle.fs_seen.specs.ServerOthers.{ClientsLeaveServed, ClientsServe, FilesAreApart, GivenFilesAreApart, RepliesGive, RepliesGiving, RepliesWithPage};
ghost use Rattle.fs_seen.specs.ServerOthers.{StandingCountsTell, TablesAreLeft};
ghost use Rattle.fs_seen.specs.ServerSees.{CallsAreSeen, CallsGoOn, CallsServe, PagesAreTaken};
ghost use Rattle.fs_seen.specs.ServerSoon.{CallsActSoon, FlushesActSoon, JobsActSoon, ServersActWithin};
ghost use Rattle.fs_seen.specs.ServerWhole.{AskedByPage, AskedByWord, AskedServes};
ghost use Rattle.fs_seen.specs.ServerWhole.{OthersServe, PausesServe, ReceivesServe, ReleasesServe, RepliesServe};
ghost use Rattle.fs_seen.specs.ServerWhole.{RepliesWithWord, ServedIsKept, ServersStand, StartsServe};
ghost use Rattle.fs_seen.specs.ServerWhole.{UnopenedTables, UnopenedViews, WaitsServe};

/// What comes of a call that concerns nobody else is what the server sees, and the call does what it is to do.
#[tactic(auto, using(crate::proofs::CallsSeen::calls_are_seen))]
pub fn server_calls_are_seen()
    ensures { CallsAreSeen }
{}

/// Nothing stops such a call.
#[tactic(auto, using(crate::proofs::CallsSeen::calls_go_on))]
pub fn server_calls_go_on()
    ensures { CallsGoOn }
{}

/// A page that is taken for a place has zeros, in a frame that nobody else has; or none was to be had, which is counted.
#[tactic(auto, using(crate::proofs::TakingLaw::pages_are_taken))]
pub fn server_pages_are_taken()
    ensures { PagesAreTaken }
{}

/// From a request that has come up to the reply the server over the kernel serves by its own calls as the abstract server does.
#[tactic(auto, using(crate::proofs::ServesOver::calls_serve))]
pub fn server_calls_serve()
    ensures { CallsServe }
{}

/// What the job on files does next is lawful, where the server stands over a disk of as many blocks.
#[tactic(auto, using(crate::proofs::JobsServed::jobs_are_lawful))]
pub fn server_jobs_are_lawful()
    ensures { JobsAreLawful }
{}

/// It serves so by the steps of its job on files, too, or no page was to be had for a block, which is counted.
#[tactic(auto, using(crate::proofs::JobsServed::jobs_serve))]
pub fn server_jobs_serve()
    ensures { JobsServe }
{}

/// And by the steps of a flush, where the host tells its files.
#[tactic(auto, using(crate::proofs::FlushesServed::flushes_serve))]
pub fn server_flushes_serve()
    ensures { FlushesServe }
{}

/// While it is not idle the server stands by itself for the abstract state.
#[tactic(auto, using(crate::proofs::ServesFor::servers_stand))]
pub fn server_stands_where_it_serves()
    ensures { ServersStand }
{}

/// What it has served by a step is kept of it behind that.
#[tactic(auto, using(crate::proofs::ServesFor::served_is_kept))]
pub fn server_serves_on()
    ensures { ServedIsKept }
{}

/// At its start it serves for an abstract state that has the files of the disk.
#[tactic(auto, using(crate::proofs::FirstServes::starts_serve))]
pub fn server_starts()
    ensures { StartsServe }
{}

/// Behind a request the server gives back its page.
#[tactic(auto, using(crate::proofs::BetweenRequests::releases_serve))]
pub fn server_releases_its_page()
    ensures { ReleasesServe }
{}

/// And waits for the next, over the disk and the table.
#[tactic(auto, using(crate::proofs::BetweenRequests::receives_serve))]
pub fn server_waits_for_a_request()
    ensures { ReceivesServe }
{}

/// A request that comes then is one of the abstract server's.
#[tactic(auto, using(crate::proofs::AskedNow::asked_serves))]
pub fn server_is_asked()
    ensures { AskedServes }
{}

/// A word that comes alone asks it so.
#[tactic(auto, using(crate::proofs::AskedNow::asked_by_word))]
pub fn server_is_asked_by_a_word()
    ensures { AskedByWord }
{}

/// And a page that comes with the message, which is that of the request then.
#[tactic(auto, using(crate::proofs::AskedByPages::asked_by_page))]
pub fn server_is_asked_by_a_page()
    ensures { AskedByPage }
{}

/// Where nothing was opened its reply is a word alone.
#[tactic(auto, using(crate::proofs::RepliesNow::replies_with_word))]
pub fn server_replies_with_a_word()
    ensures { RepliesWithWord }
{}

/// Behind the reply it is about to give back the page of the request.
#[tactic(auto, using(crate::proofs::RepliesNow::replies_serve))]
pub fn server_replies()
    ensures { RepliesServe }
{}

/// Where the client does not wait yet it goes on to reply.
#[tactic(auto, using(crate::proofs::RepliesNow::waits_serve))]
pub fn server_waits_to_reply()
    ensures { WaitsServe }
{}

/// And gives up its turn until then.
#[tactic(auto, using(crate::proofs::RepliesNow::pauses_serve))]
pub fn server_pauses()
    ensures { PausesServe }
{}

/// A step of another that leaves its pages leaves it where it serves.
#[tactic(auto, using(crate::proofs::OthersNow::others_serve))]
pub fn server_is_left_alone()
    ensures { OthersServe }
{}

/// Where the page of the records holds zeros, and no place has a page, nothing was opened.
#[tactic(auto, using(crate::proofs::Unopened::unopened_views))]
pub fn unopened_tables_are_empty()
    ensures { UnopenedViews }
{}

/// So the table stands, over any disk, where each object is the console.
#[tactic(auto, using(crate::proofs::Unopened::unopened_tables))]
pub fn unopened_tables_stand()
    ensures { UnopenedTables }
{}

/// A server that is not idle makes its act within a number of its own steps, which is small.
#[tactic(auto, using(crate::proofs::ActsSoon::servers_act_within))]
pub fn server_acts_within_few_steps()
    ensures { ServersActWithin }
{}

/// A call of its own lowers that number, or a page was refused.
#[tactic(auto, using(crate::proofs::ActsSoon::calls_act_soon))]
pub fn server_calls_act_soon()
    ensures { CallsActSoon }
{}

/// And so does a step of its job on files.
#[tactic(auto, using(crate::proofs::ActsSoon::jobs_act_soon))]
pub fn server_jobs_act_soon()
    ensures { JobsActSoon }
{}

/// And one of a flush.
#[tactic(auto, using(crate::proofs::ActsSoon::flushes_act_soon))]
pub fn server_flushes_act_soon()
    ensures { FlushesActSoon }
{}

/// Where it has a request it makes its act in few calls, where no page is refused.
#[tactic(auto, using(crate::proofs::FewCalls::requests_take_few))]
pub fn server_requests_take_few()
    ensures { RequestsTakeFew }
{}

/// A call of its own lowers that number, or is seen, or a page was refused.
#[tactic(auto, using(crate::proofs::FewCalls::calls_take_few))]
pub fn server_calls_take_few()
    ensures { CallsTakeFew }
{}

/// And so does a step of its job on files.
#[tactic(auto, using(crate::proofs::FewCalls::jobs_take_few))]
pub fn server_jobs_take_few()
    ensures { JobsTakeFew }
{}

/// And one of a flush.
#[tactic(auto, using(crate::proofs::FewCalls::flushes_take_few))]
pub fn server_flushes_take_few()
    ensures { FlushesTakeFew }
{}

/// A step of another that leaves the bytes of its pages does not raise that number.
#[tactic(auto, using(crate::proofs::FewStay::others_leave_few))]
pub fn server_calls_stay_few()
    ensures { OthersLeaveFew }
{}

/// A step of a client's that leaves the server leaves what that has, and whom it serves holds the files that it held.
#[tactic(auto, using(crate::proofs::ClientSteps::clients_leave_served))]
pub fn clients_leave_who_is_served()
    ensures { ClientsLeaveServed }
{}

/// Behind another's step, in which a file may be given up, each place that is held has a file, and has it alone.
#[tactic(auto, using(crate::proofs::TablesLeft::files_are_apart))]
pub fn open_files_are_apart()
    ensures { FilesAreApart }
{}

/// How often the page of a place is mapped tells then who holds its file.
#[tactic(auto, using(crate::proofs::CountsTold::standing_counts_tell))]
pub fn open_files_are_counted()
    ensures { StandingCountsTell }
{}

/// And the table stands, where how often pages are mapped tells who holds their files.
#[tactic(auto, using(crate::proofs::TablesLeft::tables_are_left))]
pub fn servers_tables_are_left()
    ensures { TablesAreLeft }
{}

/// So the server serves on.
#[tactic(auto, using(crate::proofs::OthersNow::clients_serve))]
pub fn server_serves_beside_clients()
    ensures { ClientsServe }
{}

/// Where it has opened a file the page of the file's place goes with the reply.
#[tactic(auto, using(crate::proofs::RepliesGiven::replies_with_page))]
pub fn server_replies_with_a_page()
    ensures { RepliesWithPage }
{}

/// The abstract server gives what it has opened to its client so, and nothing else.
#[tactic(auto, using(crate::proofs::RepliesGiven::replies_give))]
pub fn replies_give_what_is_opened()
    ensures { RepliesGive }
{}

/// Behind the reply each place that is held has a file, and has it alone.
#[tactic(auto, using(crate::proofs::RepliesGiven::given_files_are_apart))]
pub fn given_files_are_apart()
    ensures { GivenFilesAreApart }
{}

/// The server serves on behind it, and is about to give back the page of the request.
#[tactic(auto, using(crate::proofs::RepliesGiven::replies_giving))]
pub fn server_replies_giving()
    ensures { RepliesGiving }
{}
