//! What a thread is given to check a package, and what it promises of the verdicts that it finds.
ghost use Rattle.std.specs.Prelude.{◌≡◌, IfOk, IfSome};
ghost use Rattle.workspace_check.specs.Found.{KnowsVerdicts};
ghost use Rattle.tool_threads.specs.Given.{GiveVerdictsOf};

use build_carry::verdicts_at;
use std::alloc::{AllocError, Global};
use std::snapshot::Snapshot;
use std::thread::{Builder, Promise, PromisedHandle, Threads};
use workspace_check::{KnownVerdict, SharedKnown};
use workspace_graph::Graph;

/// The stack of each thread, in bytes, whatever limit the program was started with. It is four times what a file at the limit of nesting takes.
const CHECK_STACK: usize = 8_388_608;

/// A package to check, by its number, and what is known of others before. A thread owns its task.
#[derive(Drop)]
pub(crate) struct PackageTask {
    alloc: Global,
    graph: Graph,
    known: SharedKnown,
    number: usize,
}

/// A thread's promise: it gives right verdicts on packages of this workspace.
#[derive(Drop)]
pub(crate) struct VerdictsPromised {
    graph: Snapshot<Graph>,
}

impl Promise<Result<Vec<KnownVerdict>, AllocError>> for VerdictsPromised {
    ghost use Rattle.tool_threads.specs.Given.{GiveVerdictsOf};

    ghost kept_by = { λ promised given. GiveVerdictsOf promised.graph.value given };
}

/// A thread that checks a package.
pub(crate) type PackageThread = PromisedHandle<
    Result<Vec<KnownVerdict>, AllocError>,
    VerdictsPromised,
>;

impl PackageTask {
    /// The task of a package. It shares the workspace and what is known.
    pub(crate) fn new(
        alloc: Global,
        graph: &Graph,
        known: &SharedKnown,
        number: usize,
    ) -> Result<PackageTask, AllocError>
        ensures graph { IfOk result (λ task. task.graph ≡ graph.now) }
        ensures known { IfOk result (λ task. task.known ≡ known.now) }
    {
        let graph = graph.clone()?;
        let known = known.clone()?;
        Ok(PackageTask {
            alloc,
            graph,
            known,
            number,
        })
    }

    /// The verdicts that are found with its package.
    fn verdicts(&self) -> Result<Vec<KnownVerdict>, AllocError>
        requires { KnowsVerdicts self.now.graph self.now.known }
        ensures { GiveVerdictsOf self.now.graph result }
    {
        verdicts_at(self.alloc, &self.graph, self.number, self.known.get())
    }

    /// Has a thread find the verdicts, and returns it, unless none can be made. Then the package is not checked here.
    pub(crate) fn begin<R: Threads>(self, rt: &R) -> Option<PackageThread>
        requires { KnowsVerdicts self.graph self.known }
        ensures { IfSome result (λ thread. thread.promise.graph.value ≡ self.graph) }
    {
        let task = self;
        let promise = VerdictsPromised {
            graph: Snapshot::of(&task.graph),
        };
        let find = move || -> Result<Vec<KnownVerdict>, AllocError>
            requires { KnowsVerdicts task.graph task.known }
            ensures { GiveVerdictsOf task.graph result }
        { task.verdicts() };
        match Builder::new()
            .stack_size(CHECK_STACK)
            .spawn_with(rt, promise, find)
        {
            Ok(thread) => Some(thread),
            Err(_) => None,
        }
    }
}
