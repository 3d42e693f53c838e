//! The turns at accepting connections, when they end, and which connections are under way.
ghost use Rattle.std.specs.Prelude.{◌≡◌, IsTrue};
ghost use Rattle.server_socket.specs.Turns.{HasEnded, IsNextConnection};

use crate::held_path::{EndWord, HeldPath};
use crate::under_way::UnderWay;
use server_words::ServeOptions;
use std::alloc::Global;
use std::os::unix::net::{UnixListener, UnixStream};
use std::sync::{Arc, Condvar, CondvarTimeouts, Mutex, Wait};
use std::thread;
use std::time::{Clock, Duration};

/// How many milliseconds a thread waits behind a connection that it could not accept, before it tries again.
const PAUSE: u64 = 100;

/// How many milliseconds go by before it is looked again whether connections under way are to be shut.
const WATCH: u64 = 200;

/// A connection that was accepted, with its number among those under way.
#[derive(Drop)]
pub(crate) struct Connected {
    pub(crate) stream: Arc<UnixStream, Global>,
    pub(crate) number: u64,
}

/// What came of a turn at accepting a connection.
#[derive(Drop)]
pub(crate) enum NextConnection {
    Accepted(UnixStream),
    /// None could be accepted, as where too many files are open.
    Failed,
    /// None is to be accepted any more.
    Over,
}

/// The listener, and how many connections it is still to accept. The thread whose turn it is has it alone.
#[derive(Drop)]
pub(crate) struct Accepting {
    listener: UnixListener,
    /// How many connections are still to be accepted, or `None` where there is no limit.
    left: Option<u32>,
    is_over: bool,
    /// For how many seconds a client may send or read nothing, or `None` where there is no limit.
    idle: Option<u32>,
}

/// Has reads and writes fail where a client sends or reads nothing for so many seconds.
fn limit(stream: &UnixStream, idle: Option<u32>) {
    let most = idle.map(|seconds| Duration::from_secs(u64::from(seconds)));
    let _ = stream.set_read_timeout(most);
    let _ = stream.set_write_timeout(most);
}

impl Accepting {
    /// Waits for the next connection, and accepts it. A connection by which `gorefd stop` asks for the end is let go, and is the last. After a
    /// failure it may be tried again.
    fn next(&mut self, held: &HeldPath) -> NextConnection
        ensures { IsNextConnection self.old result self.new }
    {
        if self.is_over || self.left == Some(0) {
            return NextConnection::Over;
        }
        match self.listener.accept() {
            Ok((stream, _)) => self.accepted(held, stream),
            Err(_) => NextConnection::Failed,
        }
    }

    /// Counts a connection that was accepted, or ends accepting where it is one by which the end is asked for.
    fn accepted(&mut self, held: &HeldPath, stream: UnixStream) -> NextConnection
        requires { ¬ (HasEnded self.old) }
        ensures { IsNextConnection self.old result self.new }
    {
        if held.end_asked().is_some() {
            self.is_over = true;
            return NextConnection::Over;
        }
        limit(&stream, self.idle);
        self.left = self.left.map(|left| left.saturating_sub(1));
        NextConnection::Accepted(stream)
    }

    /// Ends accepting.
    pub(crate) fn end(&mut self)
        ensures over { IsTrue self.new.is_over }
        ensures left { self.new.left ≡ self.old.left }
    {
        self.is_over = true;
    }
}

/// The turns at accepting connections, and the connections under way.
#[derive(Drop)]
pub(crate) struct Turns {
    pub(crate) turn: Mutex<Accepting>,
    held: HeldPath,
    under_way: Mutex<UnderWay>,
    /// Where the end of a thread of sessions is waited for.
    ended: Condvar,
}

impl Turns {
    /// Turns at a listener that accept as many connections as the words say, or any number of them, unless the end is asked for before.
    pub(crate) fn new(
        alloc: Global,
        listener: UnixListener,
        held: HeldPath,
        words: &ServeOptions<'_>,
    ) -> Turns {
        Turns {
            turn: Mutex::new(Accepting {
                listener,
                left: words.stop_after,
                is_over: false,
                idle: words.idle,
            }),
            held,
            under_way: Mutex::new(UnderWay::new(alloc)),
            ended: Condvar::new(),
        }
    }

    /// Waits for its turn and accepts the next connection. Where it could not be accepted it waits a while, and tries again. For want of memory
    /// a connection is let go. Returns `None` where none is to be accepted any more.
    pub(crate) fn next<R: Wait + Clock>(&self, rt: &R, alloc: Global) -> Option<Connected> {
        for _ in rt.forever() {
            let next = self.turn.lock(rt).next(&self.held);
            match next {
                NextConnection::Accepted(stream) => {
                    if let Ok(stream) = Arc::new(alloc, stream) {
                        return Some(self.begin(rt, stream));
                    }
                }
                NextConnection::Over => return None,
                NextConnection::Failed => thread::sleep(rt, Duration::from_millis(PAUSE)),
            }
        }
        unreachable!()
    }

    /// Takes a connection in among those under way.
    fn begin<R: Wait>(&self, rt: &R, stream: Arc<UnixStream, Global>) -> Connected {
        let number = self.under_way.lock(rt).begin(&stream);
        Connected { stream, number }
    }

    /// Lets go of the connection of this number, whose session has ended.
    pub(crate) fn end<R: Wait>(&self, rt: &R, number: u64) {
        self.under_way.lock(rt).end(number);
    }

    /// Counts a thread of sessions that has ended.
    pub(crate) fn leave<R: Wait>(&self, rt: &R) {
        self.under_way.lock(rt).leave();
        self.ended.notify_all();
    }

    /// Waits until so many threads of sessions have ended. Where `gorefd stop --now` asks for the end meanwhile, it shuts the connections under
    /// way. It looks for that every now and then, since each thread may have a session.
    pub(crate) fn watch<R: Wait + Clock>(&self, rt: &R, threads: u64) {
        for _ in rt.forever() {
            let under_way = self.under_way.lock(rt);
            if under_way.ended >= threads {
                return;
            }
            let pause = Duration::from_millis(WATCH);
            let (under_way, _) = self.ended.wait_timeout(rt, under_way, pause);
            if let Some(EndWord::Now) = self.held.end_asked() {
                under_way.shut();
            }
        }
        unreachable!()
    }
}
