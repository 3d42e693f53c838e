//! A log of versions, and the beginnings of it that were seen.
ghost use Rattle.std.specs.Prelude.{◌≡◌, ◌↔◌, ◌<◌, ◌^◌, ◌++◌, ◌∷◌, [], length, IsTrue, MatchBool};
ghost use Rattle.server_versions.specs.Growing.{IsLonger, word_of};

use logbook::{Gain, Offer, Plain, Play, Rule, Seen, Start, Word};
use std::marker::{Brand, Model, PhantomData};

/// The rule of a log: its word is the number of its versions.
pub struct Counted;

impl<T> Rule<T, u64> for Counted {
    ghost use Rattle.std.specs.Prelude.{[]};
    ghost use base.Fml.{ftrue};
    ghost use Rattle.server_versions.specs.Growing.{IsCounted};

    ghost holds = { λ cells log. IsCounted cells log };

    ghost first = { [] };

    ghost hinted = { λ n log. Unit {0} };

    ghost shows = { λ log. [] };

    ghost keeps = { λ names log. ftrue };

    ghost moves = { λ ask before after answer. Unit {0} };
}

/// Who adds a version trades nothing for it.
pub struct Untraded;

impl<T> Gain<T, u64> for Untraded {
    ghost use base.Fml.{ftrue};

    ghost after = { λ names about answer. ftrue };
}

/// The step that adds a version.
pub struct Adding;

impl<T> Play<T, u64> for Adding {
    ghost use Rattle.server_versions.specs.Growing.{AddsVersion};

    ghost then = { AddsVersion };
}

impl<T> Plain<T, T, u64> for Adding {
    ghost use Rattle.std.specs.Prelude.{None};

    ghost ask = { λ version. version };

    ghost state = { λ version. None };
}

/// Which log it is. Each call of a program picks it.
pub trait LogName {
    ghost use Rattle.logbook.specs.Pages.{Book};

    ghost versions: { Book };
}

impl LogName for Brand {
    ghost versions = { record { number = 0; log_name = 0; cells_name = 0 } };
}

/// A log without versions, which has no name yet. Contracts see it as the book that it is in.
#[must_use]
#[derive(Drop)]
pub struct NewLog<T> {
    head: Word<T, u64, Counted>,
    seen: Seen<T, u64, Counted>,
}

impl<T> Model for NewLog<T> {
    ghost use Rattle.std.specs.Prelude.{◌≡◌, []};
    ghost use Rattle.logbook.specs.Pages.{Book, book_coded};
    ghost use Rattle.server_versions.specs.Growing.{word_of};

    ghost Value = { Book };

    ghost coded = { book_coded };

    ghost view = { λ n. n.seen.book };

    ghost invariant = { λ n. (n.seen.log ≡ []) × (n.head ≡ word_of n.seen.book) };
}

impl<T> NewLog<T> {
    /// A log without versions.
    pub fn new() -> NewLog<T> {
        let (seen, mut first, _second) = Seen::open(Start::alone(), 0, 0);
        NewLog {
            head: Word::tracked(0, &mut first),
            seen,
        }
    }

    /// The log under a name, and the beginning of it without versions.
    pub fn named<L: LogName>(self) -> (VersionLog<T, L>, Versions<T, L>)
        requires { self ≡ L.versions }
        ensures { result.1 ≡ [] }
    {
        let NewLog { head, seen } = self;
        (
            VersionLog {
                head,
                of: PhantomData,
            },
            Versions {
                count: 0,
                seen,
                of: PhantomData,
            },
        )
    }
}

/// The word of a log, which is the number of its versions.
#[derive(Drop)]
pub struct VersionLog<T, L: LogName> {
    head: Word<T, u64, Counted>,
    of: PhantomData<L>,
    ghost head_is: { head ≡ word_of L.versions },
}

/// A beginning of the log that was seen. It is no larger than a number. Contracts see it as its versions, the oldest first.
#[derive(Drop)]
pub struct Versions<T, L: LogName> {
    count: u64,
    seen: Seen<T, u64, Counted>,
    of: PhantomData<L>,
}

impl<T, L: LogName> Model for Versions<T, L> {
    ghost use Rattle.std.specs.Prelude.{◌≡◌, List, length};

    ghost Value = { List T };

    ghost view = { λ v. v.seen.log };

    ghost invariant = { λ v. (v.count ≡ length v.seen.log) × (v.seen.book ≡ L.versions) };
}

/// So many versions a log has at most.
const MOST_VERSIONS: u64 = 1 << 62;

impl<T, L: LogName> Versions<T, L> {
    /// Whether the log has room for a version behind these.
    pub fn has_room(&self) -> bool
        ensures { IsTrue result ↔ (length self.now < 2 ^ 62) }
    {
        self.count < MOST_VERSIONS
    }

    /// A copy.
    pub fn again(&self) -> Versions<T, L>
        ensures { result ≡ self.now }
    {
        Versions {
            count: self.count,
            seen: self.seen.again(),
            of: PhantomData,
        }
    }

    /// Whether both are the same beginning of the log. It compares two numbers, and no version.
    pub fn is_same(&self, other: &Versions<T, L>) -> bool
        ensures { IsTrue result ↔ (self.now ≡ other.now) }
    {
        let mut both = self.seen.again();
        both.learn(&other.seen);
        drop(both);
        self.count == other.count
    }

    /// Adds a version behind all that were seen, and says whether it did. It did not where the log is longer.
    pub fn add(&mut self, log: &VersionLog<T, L>, version: &T) -> bool
        requires { length self.old < 2 ^ 62 }
        ensures { MatchBool result (self.new ≡ self.old ++ version.now ∷ []) (IsLonger self.old self.new) }
    {
        let mut offer: Offer<T, u64, Counted, Untraded> = self
            .seen
            .plain::<Untraded, T, Adding>(version);
        let mut pen = self.seen.no_pen();
        let count = self.count;
        let found = log
            .head
            .compare_exchange::<Adding, Untraded>(
                count,
                count + 1,
                &mut self.seen,
                &mut offer,
                &mut pen,
            );
        self.count = if found == count { count + 1 } else { found };
        found == count
    }
}
