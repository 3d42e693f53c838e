//! The connections of sessions under way, which `gorefd stop --now` has shut.
ghost use Rattle.std.specs.Prelude.{◌<◌, IfSome, vec_len};

use std::alloc::Global;
use std::net::Shutdown;
use std::os::unix::net::UnixStream;
use std::sync::Arc;

/// The connections under way, each with its number, and how many threads of sessions have ended.
#[derive(Drop)]
pub(crate) struct UnderWay {
    streams: Vec<(u64, Arc<UnixStream, Global>)>,
    next: u64,
    pub(crate) ended: u64,
}

impl UnderWay {
    /// No connection. No thread has ended.
    pub(crate) fn new(alloc: Global) -> UnderWay {
        UnderWay {
            streams: Vec::new(alloc),
            next: 0,
            ended: 0,
        }
    }

    /// Takes a connection in, and returns its number. For want of memory it is left out, and its session ends as its client has it.
    pub(crate) fn begin(&mut self, stream: &Arc<UnixStream, Global>) -> u64 {
        let number = self.next;
        self.next = self.next.wrapping_add(1);
        if let Ok(shared) = Arc::try_clone(stream) {
            let _ = self.streams.push((number, shared));
        }
        number
    }

    /// Where the connection of this number stands in the list.
    fn place_of(&self, number: u64) -> Option<usize>
        ensures { IfSome result (λ at. at < vec_len self.now.streams) }
    {
        for at in 0..self.streams.len() {
            if self.streams[at].0 == number {
                return Some(at);
            }
        }
        None
    }

    /// Lets go of the connection of this number.
    pub(crate) fn end(&mut self, number: u64) {
        if let Some(at) = self.place_of(number) {
            drop(self.streams.swap_remove(at));
        }
    }

    /// Counts a thread that has ended.
    pub(crate) fn leave(&mut self) {
        self.ended = self.ended.saturating_add(1);
    }

    /// Shuts all connections: their sessions read no more, and can write no more.
    pub(crate) fn shut(&self) {
        for one in &self.streams {
            let _ = one.1.shutdown(Shutdown::Both);
        }
    }
}
