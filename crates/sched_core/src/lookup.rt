//! Documents by their place in the order of opening.
ghost use Rattle.std.specs.Prelude.{◌≡◌, ◌<◌, length, IfSome};
ghost use Rattle.sched_core.specs.Session.{place_of, first_unended};

use crate::open_document::OpenDocument;
use prover_iface::Prover;

/// The document of this name.
pub(crate) fn place_of<P: Prover>(documents: &[OpenDocument<P>], uri: &str) -> Option<usize>
    ensures place { result ≡ place_of uri.now documents.now }
    ensures within { IfSome result (λ place. place < length documents.now) }
{
    for place in 0..documents.len() {
        if documents[place].is_named(uri) {
            return Some(place);
        }
    }
    None
}

/// The first that is not ended.
pub(crate) fn first_unended<P: Prover>(documents: &[OpenDocument<P>]) -> Option<usize>
    ensures place { result ≡ first_unended documents.now }
    ensures within { IfSome result (λ place. place < length documents.now) }
{
    for place in 0..documents.len() {
        if !documents[place].is_ended() {
            return Some(place);
        }
    }
    None
}
