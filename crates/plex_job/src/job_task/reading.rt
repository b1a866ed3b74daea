//! Reading what was taken.
ghost use Rattle.std.specs.Prelude.{◌≡◌, ◌≢◌, ◌≤◌, length, map, MatchResult, IfOk, IfErr, None, Some, Ok, string_bytes};
ghost use Rattle.cause_defs.specs.Faults.{FailsTake};
ghost use Rattle.input_defs.specs.declared.MshFault.TheVariants as msh;
ghost use Rattle.input_defs.specs.declared.MeshFault.TheVariants as mesh;
ghost use Rattle.input_defs.specs.declared.PlanFault.TheVariants as plans;
ghost use Rattle.input_defs.specs.Refused.{mesh_in, where_fits};
ghost use Rattle.input_defs.specs.Words.{request};
ghost use Rattle.headline_defs.specs.Tops.{asking_built};
ghost use Rattle.plex_job.specs.job_task.Files.{UnlessUnread, bytes_of};
ghost use Rattle.plex_job.specs.job_task.Reading.{task_view, plan_given, mesh_given, task_given, IsStopOf, WhereRefused, IsShort, IsReadable, Gives, IsStop, IsSayable, IsBuilt};

use crate::job_task::files::{Input, take_mesh, take_plan};
use crate::job_task::stop::Stop;
use crate::job_task::task::Task;
use input_defs::{MeshFault, MshFault, PlanFault};
use job_words::read_words;
use mesh_check::accept;
use mesh_make::make;
use msh_reader::read_msh;
use plan_reader::{Plan, read_plan};
use plex_base::{MAX_FILE_BYTES, NoMemory};
use plex_mesh::Mesh;
use report::Refusal;
use shelf_io::Shelf;
use std::alloc::Global;

/// A plan with this fault is refused, unless memory ran out.
fn refuse_plan<'a>(fault: PlanFault) -> Stop<'a>
    ensures { WhereRefused result (λ refusal. (refusal ≡ Refusal.Plan fault) × (fault ≢ plans.NoMemory)) }
{
    if fault == PlanFault::NoMemory {
        return Stop::NoMemory;
    }
    Stop::Refused(Refusal::Plan(fault))
}

/// A mesh file with this fault is refused, unless memory ran out.
fn refuse_file<'a>(fault: MshFault) -> Stop<'a>
    ensures { WhereRefused result (λ refusal. (refusal ≡ Refusal.Msh fault) × (fault ≢ msh.NoMemory)) }
{
    if fault == MshFault::NoMemory {
        return Stop::NoMemory;
    }
    Stop::Refused(Refusal::Msh(fault))
}

/// A content with this fault is refused, unless memory ran out.
fn refuse_mesh<'a>(fault: MeshFault) -> Stop<'a>
    ensures { WhereRefused result (λ refusal. (refusal ≡ Refusal.Mesh fault) × (fault ≢ mesh.NoMemory)) }
{
    if fault == MeshFault::NoMemory {
        return Stop::NoMemory;
    }
    Stop::Refused(Refusal::Mesh(fault))
}

/// The plan that a file says, of which all lines are built.
fn built_plan<'a>(alloc: Global, bytes: &[u8]) -> Result<Plan, Stop<'a>>
    requires { length bytes.now ≤ MAX_FILE_BYTES }
    ensures ok { IfOk result (λ plan. plan_given (Some bytes.now) ≡ Ok plan.plan) }
    ensures err { IfErr result (λ stop. IsStopOf (plan_given (Some bytes.now)) stop) }
{
    let plan = match read_plan(alloc, bytes) {
        Ok(plan) => plan,
        Err(fault) => return Err(refuse_plan(fault)),
    };
    if let Some(line) = plan.ahead() {
        return Err(Stop::Refused(Refusal::Plan(PlanFault::NotYet { line })));
    }
    Ok(plan)
}

/// The plan of a file, or the plain one without a file.
fn plan_of<'a>(alloc: Global, file: &Option<Vec<u8>>) -> Result<Plan, Stop<'a>>
    requires { IsShort (bytes_of file.now) }
    ensures ok { IfOk result (λ plan. plan_given (bytes_of file.now) ≡ Ok plan.plan) }
    ensures err { IfErr result (λ stop. IsStopOf (plan_given (bytes_of file.now)) stop) }
{
    match file {
        Some(bytes) => built_plan(alloc, bytes),
        None => match Plan::plain(alloc) {
            Ok(plan) => Ok(plan),
            Err(NoMemory) => Err(Stop::NoMemory),
        },
    }
}

/// The mesh of a file.
fn read_mesh<'a>(alloc: Global, bytes: &[u8]) -> Result<Mesh, Stop<'a>>
    requires { length bytes.now ≤ MAX_FILE_BYTES }
    ensures ok { IfOk result (λ mesh. mesh_in bytes.now ≡ Ok mesh) }
    ensures err { IfErr result (λ stop. IsStopOf (mesh_in bytes.now) stop) }
{
    let text = match read_msh(alloc, bytes) {
        Ok(text) => text,
        Err(fault) => return Err(refuse_file(fault)),
    };
    match accept(alloc, text) {
        Ok(mesh) => Ok(mesh),
        Err(fault) => Err(refuse_mesh(fault)),
    }
}

/// The mesh of a file, or the one that is made.
fn mesh_of<'a>(alloc: Global, input: &Input) -> Result<Mesh, Stop<'a>>
    requires { IsReadable input.now }
    ensures ok { IfOk result (λ mesh. mesh_given input.now ≡ Ok mesh) }
    ensures err { IfErr result (λ stop. IsStopOf (mesh_given input.now) stop) }
{
    match input {
        Input::File(bytes) => read_mesh(alloc, bytes),
        Input::Made(kind, n) => match make(alloc, *kind, *n) {
            Ok(mesh) => Ok(mesh),
            Err(NoMemory) => Err(Stop::NoMemory),
        },
    }
}

/// What is to be done, where the plan fits the mesh.
fn fit<'a>(plan: Plan, mesh: Mesh, summary: bool) -> Result<Task, Stop<'a>>
    ensures ok { IfOk result (λ task. where_fits summary plan.plan mesh ≡ Ok (task_view task)) }
    ensures err { IfErr result (λ stop. IsStopOf (where_fits summary plan.plan mesh) stop) }
{
    match plan.fits(mesh.cells()) {
        Ok(()) => Ok(Task {
            mesh,
            plan,
            summary,
        }),
        Err(fault) => Err(refuse_plan(fault)),
    }
}

/// What the files ask for that were taken.
fn read_files<'a>(
    alloc: Global,
    plan: &Option<Vec<u8>>,
    mesh: &Input,
    summary: bool,
) -> Result<Task, Stop<'a>>
    requires plan { IsShort (bytes_of plan.now) }
    requires mesh { IsReadable mesh.now }
    ensures ok { IfOk result (λ task. task_given summary (plan_given (bytes_of plan.now)) (mesh_given mesh.now) ≡ Ok (task_view task)) }
    ensures err { IfErr result (λ stop. IsStopOf (task_given summary (plan_given (bytes_of plan.now)) (mesh_given mesh.now)) stop) }
{
    let plan = plan_of(alloc, plan)?;
    let mesh = mesh_of(alloc, mesh)?;
    fit(plan, mesh, summary)
}

/// What words and the files of a shelf ask for.
pub fn read_task<'a, S: Shelf>(
    alloc: Global,
    words: &'a [String],
    shelf: &mut S,
) -> Result<Task, Stop<'a>>
    ensures task { IfOk result (λ task. Gives (asking_built (map string_bytes words.now)) (S.file shelf.old) (Ok (task_view task))) }
    ensures built { IfOk result (λ task. IsBuilt (task_view task)) }
    ensures stop { IfErr result (λ stop. IsStop (asking_built (map string_bytes words.now)) (S.file shelf.old) (FailsTake S.faults S.last_failed shelf.old shelf.new) stop) }
    ensures sayable { IfErr result (λ stop. IsSayable stop) }
    ensures refused_words { request (map string_bytes words.now) ≡ None → shelf.new ≡ shelf.old }
    ensures count { UnlessUnread result (S.faults shelf.new ≡ S.faults shelf.old) }
{
    let asked = match read_words(alloc, words)? {
        Some(asked) => asked,
        None => return Err(Stop::Refused(Refusal::Words)),
    };
    let plan = take_plan(alloc, asked.plan, shelf)?;
    let mesh = take_mesh(alloc, asked.source, shelf)?;
    read_files(alloc, &plan, &mesh, asked.summary)
}
