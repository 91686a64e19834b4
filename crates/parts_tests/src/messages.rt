//! Words that come and words that do not.

use jos_base::EnvId;
use jos_ipc::{Offer, Rendezvous};
use std::alloc::Global;
use test_cases::{Shown, given, numbers};

/// What a rendezvous holds, as words in the order of its fields.
fn words_of(alloc: Global, rendezvous: &Rendezvous) -> anyhow::Result<Shown> {
    let words = [
        rendezvous.receiving as u32,
        rendezvous.wanted.0,
        rendezvous.destination,
        rendezvous.value,
        rendezvous.sender.0,
        rendezvous.perm,
    ];
    Ok(Shown::words(alloc, &words)?)
}

/// What comes of a case over a rendezvous.
pub(crate) fn tell_messages(
    rendezvous: &mut Rendezvous,
    alloc: Global,
    what: &str,
    words: &str,
) -> anyhow::Result<Shown> {
    let numbers = numbers(alloc, words)?;
    let first = given(&numbers, 0);
    match what {
        "wants" => {
            rendezvous.want(first, EnvId(given(&numbers, 1)));
            words_of(alloc, rendezvous)
        }
        "accepts" => Ok(Shown::Is(rendezvous.accepts(EnvId(first)))),
        "offer" => {
            let offer = rendezvous.offer(EnvId(first), given(&numbers, 1), given(&numbers, 2));
            Ok(Shown::Is(offer == Offer::Taken))
        }
        "holds" => words_of(alloc, rendezvous),
        _ => anyhow::bail!("{what} is no case of messages"),
    }
}
