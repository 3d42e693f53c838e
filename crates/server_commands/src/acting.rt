//! Acts on one command. A command about the current state begins with a look, and is planned on the view that the look shows.
ghost use Rattle.std.specs.Prelude.{◌≡◌, ◌↔◌, ℕ, IfOk, IfSome, IsTrue, List, Ok, Result};
ghost use Rattle.base_files.specs.declared.place.Place.{Place};
ghost use Rattle.base_files.specs.declared.refusal.Refusal.{Refusal as WhyRefused};
ghost use Rattle.refactor_affected.specs.Moves.{PlansAffectedMove};
ghost use Rattle.refactor_affected.specs.Renames.{PlansAffectedRename};
ghost use Rattle.refactor_preserve.specs.Planned.{change_in};
ghost use Rattle.workspace_check.specs.FaultLists.{ListsFaults};
ghost use Rattle.workspace_check.specs.Found.{AreFindings, IsFound, KnowsVerdicts};
ghost use Rattle.refs_binding.specs.Uses.{AnswersUses};
ghost use Rattle.refactor_units.specs.CarriedNames.{CarriesPlanned};
ghost use Rattle.build_kept.specs.KnownUnits.{CarriesUnits};
ghost use Rattle.history_book.specs.CurrentUnits.{AreKnownIn};
ghost use Rattle.history_book.specs.Questions.{changing_event};
ghost use Rattle.history_machine.specs.declared.event.Event.TheVariants.{Commit, Log, Redo, Undo};
ghost use Rattle.workspace_snapshot.specs.Plan.{PlansDel};
ghost use Rattle.workspace_snapshot.specs.declared.change.Change.{Change as PlannedChange};
ghost use Rattle.server_commands.specs.Act.{
  Acts,
  ActsAfter,
  ActsOn,
  AnswersFaults,
  Commits,
  FitsView,
  LooksFirst,
  PlansBody,
  Sends,
  AnswersFiles,
  file_response,
  places_response,
};
ghost use Rattle.history_machine.specs.Machine.{ShowsHistory};
ghost use Rattle.server_commands.specs.ObjectChanges.{AnswersObjects, NeedsHistory};
ghost use Rattle.server_commands.specs.Wait.{TellsNumbers, Waits};
ghost use Rattle.server_commands.specs.Queries.{FindsFile, FindsObject};

use crate::desk::Desk;
use crate::queries::{cat, found, object};
use crate::response::{FaultList, Response};
use crate::working::work;
use base_files::{FileText, Path, Refusal};
use build_kept::KnownUnits;
use build_names::GivenName;
use history_book::{Changing, Logging};
use history_machine::View;
use history_objects::compare_objects;
use refactor_affected::{plan_move, plan_rename};
use refactor_preserve::Planned;
use refactor_units::carried_names;
use refs_uses::{Places, uses};
use server_read::{Command, StateCommand, Word};
use std::alloc::{AllocError, Global};
use workspace_check::{Findings, Found, Known, faults};
use workspace_graph::Graph;
use workspace_snapshot::{MadeChange, plan_del, plan_put};

/// Whether the command is meant for the state that the view shows: its basis is that state's number, or it has none.
fn fits_view(view: &View, command: &StateCommand<'_>) -> bool
    ensures { IsTrue result ↔ FitsView view.now command.now }
{
    match command.basis() {
        Some(basis) => basis == view.snapshot.number(),
        None => true,
    }
}

/// Plans a put. A body that was dropped is over the limit of a file, if the path is a path of a file.
fn plan_body(
    alloc: Global,
    view: &View,
    path: &str,
    body: Option<FileText>,
) -> Result<MadeChange, Refusal>
    ensures { PlansBody view.now path.now body result }
{
    match body {
        Some(text) => plan_put(alloc, view.snapshot.get(), path, text),
        None => {
            let path = Path::read(alloc, path, 2)?;
            drop(path);
            Err(Refusal::TooLarge)
        }
    }
}

/// Sends an event that changes the workspace, and answers its reply.
fn send<D: Desk>(desk: &mut D, asked: Changing) -> Response
    ensures { Sends D.steps desk.old (changing_event asked) result desk.new }
{
    match desk.step(asked) {
        Ok(number) => Response::Done { number },
        Err(refusal) => Response::Refused { refusal },
    }
}

/// Undoes the last change.
fn undo<D: Desk>(desk: &mut D, basis: u64) -> Response
    ensures { Sends D.steps desk.old (Undo basis) result desk.new }
{
    send(desk, Changing::Undo(basis))
}

/// Redoes the change that the last undo took back.
fn redo<D: Desk>(desk: &mut D, basis: u64) -> Response
    ensures { Sends D.steps desk.old (Redo basis) result desk.new }
{
    send(desk, Changing::Redo(basis))
}

/// Commits a change of files that a look has shown.
fn send_change<D: Desk>(desk: &mut D, basis: u64, change: MadeChange) -> Response
    requires { D.sees desk.old change.base }
    ensures { Sends D.steps desk.old (Commit basis change) result desk.new }
{
    match desk.commit(basis, change) {
        Ok(number) => Response::Done { number },
        Err(refusal) => Response::Refused { refusal },
    }
}

/// Commits a planned change, or answers why there is none.
pub fn commit<D: Desk>(desk: &mut D, basis: u64, planned: Result<MadeChange, Refusal>) -> Response
    requires { IfOk planned (λ change. D.sees desk.old change.base) }
    ensures { Commits D.steps desk.old basis planned result desk.new }
{
    match planned {
        Ok(change) => send_change(desk, basis, change),
        Err(refusal) => Response::Refused { refusal },
    }
}

/// What is known of the packages of a change's files: verdicts, and units if some are known.
#[derive(Drop)]
struct KnownAfter {
    known: Known,
    units: Option<KnownUnits>,
}

/// Has the desk learn what is known of the packages of files that are current.
fn learn_after<D: Desk>(desk: &mut D, files: &Graph, after: KnownAfter)
    requires seen { D.sees desk.old files.now }
    requires known { KnowsVerdicts files.now after.known }
    requires units { AreKnownIn files.now after.units }
    ensures { desk.new ≡ desk.old }
{
    let KnownAfter { known, units } = after;
    desk.learn(files, known);
    if let Some(units) = units {
        desk.learn_units(units);
    }
}

/// Commits a change. If it is admitted, the desk learns what is known of the packages of its files, which are `files`.
fn commit_learning<D: Desk>(
    desk: &mut D,
    basis: u64,
    change: MadeChange,
    files: &Graph,
    after: KnownAfter,
) -> Response
    requires seen { D.sees desk.old change.base }
    requires files { files.now ≡ change.files }
    requires known { KnowsVerdicts files.now after.known }
    requires units { AreKnownIn files.now after.units }
    ensures { Sends D.steps desk.old (Commit basis change) result desk.new }
{
    match desk.commit(basis, change) {
        Ok(number) => {
            learn_after(desk, files, after);
            Response::Done { number }
        }
        Err(refusal) => Response::Refused { refusal },
    }
}

/// Commits a planned change. If it is admitted, the desk learns the findings of its files, and what is known of units of its packages. It
/// learns nothing where memory is wanting to share the files.
fn commit_carrying<D: Desk>(
    desk: &mut D,
    basis: u64,
    planned: Planned,
    units: Option<KnownUnits>,
) -> Response
    requires seen { D.sees desk.old planned.change.base }
    requires known { KnowsVerdicts planned.change.files planned.known }
    requires units { AreKnownIn planned.change.files units }
    ensures { Sends D.steps desk.old (Commit basis planned.change) result desk.new }
{
    let Planned { change, known } = planned;
    match change.get().files.clone() {
        Ok(files) => commit_learning(desk, basis, change, &files, KnownAfter { known, units }),
        Err(_) => send_change(desk, basis, change),
    }
}

/// Commits a planned change. If it is admitted, the desk learns the findings of its files, unless memory is wanting to share these.
pub fn commit_planned<D: Desk>(desk: &mut D, basis: u64, planned: Planned) -> Response
    requires seen { D.sees desk.old planned.change.base }
    requires known { KnowsVerdicts planned.change.files planned.known }
    ensures { Sends D.steps desk.old (Commit basis planned.change) result desk.new }
{
    commit_carrying(desk, basis, planned, None)
}

/// Commits a planned change together with its findings, or answers why there is none.
fn commit_known<D: Desk>(desk: &mut D, basis: u64, planned: Result<Planned, Refusal>) -> Response
    requires seen { IfOk planned (λ p. D.sees desk.old p.change.base) }
    requires known { IfOk planned (λ p. KnowsVerdicts p.change.files p.known) }
    ensures { Commits D.steps desk.old basis (change_in planned) result desk.new }
{
    match planned {
        Ok(planned) => commit_planned(desk, basis, planned),
        Err(refusal) => Response::Refused { refusal },
    }
}

/// Plans and commits a put.
fn put<D: Desk>(
    alloc: Global,
    desk: &mut D,
    view: &View,
    basis: u64,
    path: Word<'_>,
    body: Option<FileText>,
) -> Response
    requires { D.sees desk.old view.now.snapshot.files }
    ensures { (planned : Result PlannedChange WhyRefused) × PlansBody view.now path.entry body planned × Commits D.steps desk.old basis planned result desk.new }
{
    let planned = plan_body(alloc, view, path.as_str(), body);
    commit(desk, basis, planned)
}

/// Plans and commits a del.
fn del<D: Desk>(alloc: Global, desk: &mut D, view: &View, basis: u64, path: Word<'_>) -> Response
    requires { D.sees desk.old view.now.snapshot.files }
    ensures { (planned : Result PlannedChange WhyRefused) × PlansDel view.now.snapshot path.entry planned × Commits D.steps desk.old basis planned result desk.new }
{
    let planned = plan_del(alloc, view.snapshot.get(), path.as_str());
    commit(desk, basis, planned)
}

/// Checks the packages of a view's files. The desk learns the findings.
pub fn find<D: Desk>(alloc: Global, desk: &mut D, view: &View) -> Result<Findings, AllocError>
    requires { D.sees desk.old view.now.snapshot.files }
    ensures findings { IfOk result (AreFindings view.now.snapshot.files) }
    ensures same { desk.new ≡ desk.old }
{
    let Found { findings, known } = found(alloc, view)?;
    desk.learn(view.snapshot.files(), known);
    Ok(findings)
}

/// Has the desk learn what was found in the packages of a view's files.
fn learn<D: Desk>(desk: &mut D, view: &View, found: Found)
    requires seen { D.sees desk.old view.now.snapshot.files }
    requires found { IsFound view.now.snapshot.files found }
    ensures { desk.new ≡ desk.old }
{
    let Found { findings, known } = found;
    drop(findings);
    desk.learn(view.snapshot.files(), known);
}

/// The path of a file and an offset in it, as a command gives them.
#[derive(Drop)]
struct NamedByte<'a> {
    path: Word<'a>,
    offset: usize,
}

/// What is known of units of the packages of other files, which carry them over with these names. Nothing is known for want of memory.
fn carried(
    alloc: Global,
    units: &KnownUnits,
    files: &Graph,
    names: &[GivenName],
) -> Option<KnownUnits>
    requires { CarriesUnits units.now files.now names.now }
    ensures { AreKnownIn files.now result }
{
    match units.carried(alloc, files, names) {
        Ok(known) => known,
        Err(_) => None,
    }
}

/// A rename of the identifier at `path:offset` to `name`, asked of a view in whose packages this was found.
#[derive(Clone, Copy)]
struct RenameAsked<'a> {
    view: &'a View,
    found: &'a Found,
    path: &'a str,
    offset: usize,
    name: &'a str,
}

/// The names with which units are carried over a planned rename. None are known where it may change other names in objects, and for want
/// of memory.
fn names_behind(alloc: Global, asked: RenameAsked<'_>) -> Option<Vec<GivenName>>
    requires { IsFound asked.view.now.snapshot.files asked.found.now }
    ensures { IfSome result (λ names. CarriesPlanned asked.entry.view.now.snapshot asked.entry.path.now asked.entry.offset asked.entry.name.now names.items) }
{
    match carried_names(
        alloc,
        asked.view.snapshot.get(),
        asked.found,
        asked.path,
        asked.offset,
        asked.name,
    ) {
        Ok(names) => names,
        Err(_) => None,
    }
}

/// What is known of units of the packages behind a planned rename, from what was known before it.
fn units_behind(
    alloc: Global,
    asked: RenameAsked<'_>,
    known: Option<KnownUnits>,
    planned: &Planned,
) -> Option<KnownUnits>
    requires found { IsFound asked.view.now.snapshot.files asked.found.now }
    requires known { AreKnownIn asked.view.now.snapshot.files known }
    requires planned { PlansAffectedRename asked.view.now.snapshot asked.path.now asked.offset asked.name.now (Ok planned.now.change) }
    ensures { AreKnownIn planned.now.change.files result }
{
    let Some(units) = known else {
        return None;
    };
    if units.is_empty() {
        return None;
    }
    match names_behind(alloc, asked) {
        None => None,
        Some(names) => carried(alloc, &units, &planned.change.get().files, &names),
    }
}

/// A planned rename, or why there is none, and what is known of units behind it.
#[derive(Drop)]
struct RenamePlan {
    planned: Result<Planned, Refusal>,
    units: Option<KnownUnits>,
}

/// Plans a rename, and carries along what is known of units.
fn plan_asked(alloc: Global, asked: RenameAsked<'_>, known: Option<KnownUnits>) -> RenamePlan
    requires found { IsFound asked.view.now.snapshot.files asked.found.now }
    requires known { AreKnownIn asked.view.now.snapshot.files known }
    ensures planned { PlansAffectedRename asked.entry.view.now.snapshot asked.entry.path.now asked.entry.offset asked.entry.name.now (change_in result.planned) }
    ensures known { IfOk result.planned (λ p. KnowsVerdicts p.change.files p.known) }
    ensures units { IfOk result.planned (λ p. AreKnownIn p.change.files result.units) }
{
    match plan_rename(
        alloc,
        asked.view.snapshot.get(),
        asked.found,
        asked.path,
        asked.offset,
        asked.name,
    ) {
        Ok(planned) => {
            let units = units_behind(alloc, asked, known, &planned);
            RenamePlan {
                planned: Ok(planned),
                units,
            }
        }
        Err(refusal) => RenamePlan {
            planned: Err(refusal),
            units: None,
        },
    }
}

/// Plans a rename, and carries along what is known of units. The desk learns what was found in the view's packages for it.
fn carrying_plan<D: Desk>(
    alloc: Global,
    desk: &mut D,
    view: &View,
    path: &str,
    offset: usize,
    name: &str,
) -> RenamePlan
    requires { D.sees desk.old view.now.snapshot.files }
    ensures planned { PlansAffectedRename view.now.snapshot path.now offset name.now (change_in result.planned) }
    ensures known { IfOk result.planned (λ p. KnowsVerdicts p.change.files p.known) }
    ensures units { IfOk result.planned (λ p. AreKnownIn p.change.files result.units) }
    ensures same { desk.new ≡ desk.old }
{
    match found(alloc, view) {
        Err(_) => RenamePlan {
            planned: Err(Refusal::Memory),
            units: None,
        },
        Ok(found) => {
            let known = desk.known_units(view.snapshot.files());
            let asked = RenameAsked {
                view,
                found: &found,
                path,
                offset,
                name,
            };
            let plan = plan_asked(alloc, asked, known);
            learn(desk, view, found);
            plan
        }
    }
}

/// Plans a rename. The desk learns what was found in the view's packages for it.
pub fn rename_plan<D: Desk>(
    alloc: Global,
    desk: &mut D,
    view: &View,
    path: &str,
    offset: usize,
    name: &str,
) -> Result<Planned, Refusal>
    requires { D.sees desk.old view.now.snapshot.files }
    ensures planned { PlansAffectedRename view.now.snapshot path.now offset name.now (change_in result) }
    ensures known { IfOk result (λ p. KnowsVerdicts p.change.files p.known) }
    ensures same { desk.new ≡ desk.old }
{
    let RenamePlan { planned, units } = carrying_plan(alloc, desk, view, path, offset, name);
    drop(units);
    planned
}

/// Commits a planned rename together with its findings and with what is known of units, or answers why there is none.
fn commit_rename<D: Desk>(desk: &mut D, basis: u64, plan: RenamePlan) -> Response
    requires seen { IfOk plan.planned (λ p. D.sees desk.old p.change.base) }
    requires known { IfOk plan.planned (λ p. KnowsVerdicts p.change.files p.known) }
    requires units { IfOk plan.planned (λ p. AreKnownIn p.change.files plan.units) }
    ensures { Commits D.steps desk.old basis (change_in plan.planned) result desk.new }
{
    let RenamePlan { planned, units } = plan;
    match planned {
        Ok(planned) => commit_carrying(desk, basis, planned, units),
        Err(refusal) => Response::Refused { refusal },
    }
}

/// Plans and commits a rename.
fn rename<D: Desk>(
    alloc: Global,
    desk: &mut D,
    view: &View,
    basis: u64,
    at: NamedByte<'_>,
    name: Word<'_>,
) -> Response
    requires { D.sees desk.old view.now.snapshot.files }
    ensures { (planned : Result PlannedChange WhyRefused) × PlansAffectedRename view.now.snapshot at.entry.path at.entry.offset name.entry planned × Commits D.steps desk.old basis planned result desk.new }
{
    let plan = carrying_plan(
        alloc,
        desk,
        view,
        at.path.as_str(),
        at.offset,
        name.as_str(),
    );
    commit_rename(desk, basis, plan)
}

/// Plans a move. The desk learns what was found in the view's packages for it.
pub fn move_plan<D: Desk>(
    alloc: Global,
    desk: &mut D,
    view: &View,
    from: &str,
    to: &str,
) -> Result<Planned, Refusal>
    requires { D.sees desk.old view.now.snapshot.files }
    ensures planned { PlansAffectedMove view.now.snapshot from.now to.now (change_in result) }
    ensures known { IfOk result (λ p. KnowsVerdicts p.change.files p.known) }
    ensures same { desk.new ≡ desk.old }
{
    let found = found(alloc, view)?;
    let planned = plan_move(alloc, view.snapshot.get(), &found, from, to);
    learn(desk, view, found);
    planned
}

/// Plans and commits a move.
fn move_to<D: Desk>(
    alloc: Global,
    desk: &mut D,
    view: &View,
    basis: u64,
    from: Word<'_>,
    to: Word<'_>,
) -> Response
    requires { D.sees desk.old view.now.snapshot.files }
    ensures { (planned : Result PlannedChange WhyRefused) × PlansAffectedMove view.now.snapshot from.entry to.entry planned × Commits D.steps desk.old basis planned result desk.new }
{
    let planned = move_plan(alloc, desk, view, from.as_str(), to.as_str());
    commit_known(desk, basis, planned)
}

/// The answer with the text of a file or an object, or with the refusal.
fn file_response(number: u64, found: Result<FileText, Refusal>) -> Response
    ensures { result ≡ file_response number found }
{
    match found {
        Ok(text) => Response::File { number, text },
        Err(refusal) => Response::Refused { refusal },
    }
}

/// The answer with these places, or with the refusal.
fn places_response(number: u64, found: Result<Places, Refusal>) -> Response
    ensures { result ≡ places_response number found }
{
    match found {
        Ok(places) => Response::Places { number, places },
        Err(refusal) => Response::Refused { refusal },
    }
}

/// Answers a cat.
fn answer_cat(alloc: Global, view: &View, path: Word<'_>) -> Response
    ensures { (found : Result (List ℕ) WhyRefused) × FindsFile view.now path.entry found × (result ≡ file_response view.now.snapshot.number found) }
{
    let found = cat(alloc, view, path.as_str());
    file_response(view.snapshot.number(), found)
}

/// Answers an `object` command.
fn answer_object(alloc: Global, view: &View, path: Word<'_>) -> Response
    ensures { (found : Result (List ℕ) WhyRefused) × FindsObject view.now path.entry found × (result ≡ file_response view.now.snapshot.number found) }
{
    let found = object(alloc, view, path.as_str());
    file_response(view.snapshot.number(), found)
}

/// The uses of the declaration that the identifier at `path:offset` is bound to.
pub fn find_uses<D: Desk>(
    alloc: Global,
    desk: &mut D,
    view: &View,
    path: &str,
    offset: usize,
) -> Result<Places, Refusal>
    requires { D.sees desk.old view.now.snapshot.files }
    ensures uses { AnswersUses view.now.snapshot.files path.now offset result }
    ensures same { desk.new ≡ desk.old }
{
    let found = find(alloc, desk, view)?;
    uses(alloc, view.snapshot.files(), &found, path, offset)
}

/// Answers an `objects` command.
fn answer_objects(alloc: Global, view: &View, basis: u64) -> Response
    requires { ShowsHistory view.now }
    ensures { AnswersObjects view.now basis result }
{
    match compare_objects(alloc, view.states(), view, basis) {
        Ok(objects) => Response::Objects {
            number: view.snapshot.number(),
            objects,
        },
        Err(refusal) => Response::Refused { refusal },
    }
}

/// Answers a `uses` command.
fn answer_uses<D: Desk>(
    alloc: Global,
    desk: &mut D,
    view: &View,
    path: Word<'_>,
    offset: usize,
) -> Response
    requires { D.sees desk.old view.now.snapshot.files }
    ensures told { (found : Result (List Place) WhyRefused) × AnswersUses view.now.snapshot.files path.entry offset found × (result ≡ places_response view.now.snapshot.number found) }
    ensures same { desk.new ≡ desk.old }
{
    let found = find_uses(alloc, desk, view, path.as_str(), offset);
    places_response(view.snapshot.number(), found)
}

/// Answers a list: all files of a view, which are shared.
fn answer_list(view: &View) -> Response
    ensures { AnswersFiles view.now result }
{
    match view.snapshot.files().clone() {
        Ok(files) => Response::Listing {
            number: view.snapshot.number(),
            files,
        },
        Err(_) => Response::Refused {
            refusal: Refusal::Memory,
        },
    }
}

/// The faults of a view's files, in the order of packages, paths, offsets and kinds.
pub fn find_faults<D: Desk>(
    alloc: Global,
    desk: &mut D,
    view: &View,
) -> Result<FaultList, AllocError>
    requires { D.sees desk.old view.now.snapshot.files }
    ensures faults { IfOk result (ListsFaults view.now.snapshot.files) }
    ensures same { desk.new ≡ desk.old }
{
    let found = find(alloc, desk, view)?;
    let faults = faults(alloc, &found)?;
    Ok(FaultList::new(faults))
}

/// Answers a `faults` command.
fn answer_faults<D: Desk>(alloc: Global, desk: &mut D, view: &View) -> Response
    requires { D.sees desk.old view.now.snapshot.files }
    ensures told { AnswersFaults view.now result }
    ensures same { desk.new ≡ desk.old }
{
    match find_faults(alloc, desk, view) {
        Ok(faults) => Response::Faults {
            number: view.snapshot.number(),
            faults,
        },
        Err(_) => Response::Refused {
            refusal: Refusal::Memory,
        },
    }
}

/// Acts on a command that is meant for the state that the view shows.
fn act_on<D: Desk>(alloc: Global, desk: &mut D, view: &View, command: StateCommand<'_>) -> Response
    requires sees { D.sees desk.old view.now.snapshot.files }
    requires history { NeedsHistory command → ShowsHistory view.now }
    ensures { ActsOn D.steps desk.old view.now command.entry result desk.new }
{
    match command {
        StateCommand::Look => Response::Steps {
            number: view.snapshot.number(),
            undo: view.undo,
            redo: view.redo,
        },
        StateCommand::Put {
            basis,
            path,
            body,
            ..
        } => put(alloc, desk, view, basis, path, body),
        StateCommand::Del { basis, path } => del(alloc, desk, view, basis, path),
        StateCommand::Rename {
            basis,
            path,
            offset,
            name,
        } => rename(alloc, desk, view, basis, NamedByte { path, offset }, name),
        StateCommand::Move { basis, from, to } => move_to(alloc, desk, view, basis, from, to),
        StateCommand::Undo { basis } => undo(desk, basis),
        StateCommand::Redo { basis } => redo(desk, basis),
        StateCommand::Cat { path } => answer_cat(alloc, view, path),
        StateCommand::Uses { path, offset } => answer_uses(alloc, desk, view, path, offset),
        StateCommand::Object { path } => answer_object(alloc, view, path),
        StateCommand::Objects { basis } => answer_objects(alloc, view, basis),
        StateCommand::Work => work(alloc, desk),
        StateCommand::List => answer_list(view),
        StateCommand::Faults => answer_faults(alloc, desk, view),
    }
}

/// Acts on a command after its look has shown the view. A command that is meant for another state is refused.
fn act_after<D: Desk>(
    alloc: Global,
    desk: &mut D,
    view: &View,
    command: StateCommand<'_>,
) -> Response
    requires sees { D.sees desk.old view.now.snapshot.files }
    requires history { NeedsHistory command → ShowsHistory view.now }
    ensures { ActsAfter D.steps desk.old view.now command.entry result desk.new }
{
    if fits_view(view, &command) {
        act_on(alloc, desk, view, command)
    } else {
        drop(command);
        Response::Refused {
            refusal: Refusal::Moved {
                current: view.snapshot.number(),
            },
        }
    }
}

/// Whether the command is about the states of the history.
fn needs_history(command: &StateCommand<'_>) -> bool
    ensures { IsTrue result ↔ NeedsHistory command.now }
{
    matches!(command, StateCommand::Objects { .. })
}

/// Looks at the current state, and acts on a command that is not about other states.
fn act_looking<D: Desk>(alloc: Global, desk: &mut D, command: StateCommand<'_>) -> Response
    requires { NeedsHistory command → ⊥ }
    ensures { LooksFirst D.steps desk.old command.entry result desk.new }
{
    match desk.look() {
        Ok(view) => act_after(alloc, desk, &view, command),
        Err(refusal) => Response::Refused { refusal },
    }
}

/// Looks at all states of the history, and acts on a command about the current state.
fn act_looking_back<D: Desk>(alloc: Global, desk: &mut D, command: StateCommand<'_>) -> Response
    ensures { LooksFirst D.steps desk.old command.entry result desk.new }
{
    match desk.look_back() {
        Ok(view) => act_after(alloc, desk, view.get(), command),
        Err(refusal) => Response::Refused { refusal },
    }
}

/// Looks, and acts on a command about the current state.
fn act_on_state<D: Desk>(alloc: Global, desk: &mut D, command: StateCommand<'_>) -> Response
    ensures { LooksFirst D.steps desk.old command.entry result desk.new }
{
    if needs_history(&command) {
        act_looking_back(alloc, desk, command)
    } else {
        act_looking(alloc, desk, command)
    }
}

/// Waits until every package of the current state is finished.
fn wait<D: Desk>(desk: &mut D) -> Response
    ensures { Waits D.waits desk.old result desk.new }
{
    match desk.wait() {
        Ok(number) => Response::Done { number },
        Err(refusal) => Response::Refused { refusal },
    }
}

/// Answers a log. No look comes before it.
fn log<D: Desk>(desk: &mut D, number: u64) -> Response
    ensures { Sends D.steps desk.old (Log number) result desk.new }
{
    match desk.step(Logging(number)) {
        Ok((current, shown)) => Response::Entry {
            number: current,
            shown,
        },
        Err(refusal) => Response::Refused { refusal },
    }
}

/// Answers what the server tells of itself. No look comes before it.
fn status<D: Desk>(desk: &D) -> Response
    ensures { TellsNumbers D.waits desk.now result desk.now }
{
    match desk.numbers() {
        Ok(numbers) => Response::Status { numbers },
        Err(refusal) => Response::Refused { refusal },
    }
}

/// Acts on one command, and answers it.
pub fn act<D: Desk>(alloc: Global, desk: &mut D, command: Command<'_>) -> Response
    ensures { Acts D.steps D.waits desk.old command.entry result desk.new }
{
    match command {
        Command::OnState(command) => act_on_state(alloc, desk, command),
        Command::Wait => wait(desk),
        Command::Status => status(desk),
        Command::Log { number } => log(desk, number),
    }
}
