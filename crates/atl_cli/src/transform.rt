// The command `transform`: reads the module and the source, and writes the target.
ghost use Rattle.std.specs.Prelude.{◌≡◌, ◌≢◌, ◌⊎◌, ℕ, [], ◌≤◌, List, IfOk, IfSome, IsErr, OnErr, MatchOption, All, map, length};
ghost use Rattle.atl_cli.specs.Transform.{ArePaths, HasPath, HasPaths, HasSpace, Ended, IsWritten};
ghost use Rattle.atl_cli.specs.Flat.{flat, item};
ghost use Rattle.atl_cli.specs.Source.{IsSource};
ghost use Rattle.atl_cli.specs.declared.source.SourceElement.{SourceElement as SomeElement};
ghost use Rattle.atl_cli.specs.Words.{IsPair, IsRequest};

use crate::flat::write_flat;
use crate::one_rule::{OneRule, read_module};
use crate::source::{Kept, read_source};
use crate::status::{Form, Size, Status};
use crate::words::{Pair, Request, read_words};
use atl_base::text::Text;
use atl_outside::files::{FileFault, Files};
use std::alloc::{AllocError, Global};

/// How many bytes a file has at most.
pub(crate) const FILE_LIMIT: u64 = 67_108_864;

/// How many objects a source has at most.
const OBJECT_LIMIT: usize = 1_000_000;

// Where the models lie.
#[derive(Drop)]
struct Paths {
    target: Text,
    source: Text,
}

// The path that a pair gives to a name.
fn path_of<'a>(pairs: &'a [Pair], name: &Text) -> Option<&'a Text>
    ensures { MatchOption result ((path : List ℕ) → HasPath pairs.now name.now path → ⊥) (λ path. HasPath pairs.now name.now path.now) }
{
    for pair in pairs {
        if pair.name == *name {
            return Some(&pair.path);
        }
    }
    None
}

// The paths of the models, where the pairs' names are those of the header.
fn read_paths(alloc: Global, rule: &OneRule, pairs: &[Pair]) -> Result<Option<Paths>, AllocError>
    ensures { IfOk result (λ read. MatchOption read
        ((target source : List ℕ) → ArePaths rule.now pairs.now target source → ⊥)
        (λ p. ArePaths rule.now pairs.now p.target p.source)) }
{
    let Some(target) = path_of(pairs, &rule.target) else {
        return Ok(None);
    };
    let Some(source) = path_of(pairs, &rule.source) else {
        return Ok(None);
    };
    let Some(_) = path_of(pairs, &rule.target_metamodel) else {
        return Ok(None);
    };
    let Some(_) = path_of(pairs, &rule.source_metamodel) else {
        return Ok(None);
    };
    Ok(Some(Paths {
        target: target.copy(alloc)?,
        source: source.copy(alloc)?,
    }))
}

// How a read that gave no bytes ends the call.
pub(crate) fn after_read_fault(
    alloc: Global,
    fault: FileFault,
    path: &Text,
) -> Result<Status, AllocError>
    ensures failed { fault ≡ FileFault.Failed → IfOk result (λ s. s ≡ Status.ReadFault path.now) }
    ensures too_big { fault ≡ FileFault.TooBig → IfOk result (λ s. s ≡ Status.TooLarge Size.File) }
    ensures memory { fault ≡ FileFault.Memory → IsErr result }
{
    match fault {
        FileFault::Failed => Ok(Status::ReadFault(path.copy(alloc)?)),
        FileFault::TooBig => Ok(Status::TooLarge(Size::File)),
        FileFault::Memory => Err(AllocError),
    }
}

// Writes the target, and says how that ends the call.
fn write_target<F: Files>(
    alloc: Global,
    files: &mut F,
    path: Text,
    text: &Text,
) -> Result<Status, AllocError>
    requires { path ≢ [] }
    ensures ended { IfOk result (λ s. IsWritten path text.now (F.held files.old) (F.held files.new) (F.faults files.old) (F.faults files.new) s) }
    ensures memory { OnErr result (F.held files.new ≡ F.held files.old) }
    ensures counted { F.faults files.old ≤ F.faults files.new }
{
    match files.write(alloc, &path, text.bytes()) {
        Ok(()) => Ok(Status::Ok),
        Err(FileFault::Failed) => Ok(Status::WriteFault(path)),
        Err(FileFault::TooBig) => unreachable!(),
        Err(FileFault::Memory) => Err(AllocError),
    }
}

// Reads the source and writes the target.
fn run_rule<F: Files>(
    alloc: Global,
    files: &mut F,
    rule: &OneRule,
    paths: Paths,
) -> Result<Status, AllocError>
    requires names { HasSpace rule.now }
    requires target { paths.target ≢ [] }
    ensures ended { (words : List (List ℕ)) → IfSome (F.held files.old) (λ held. HasPaths words held rule.now paths.target paths.source)
        → IfOk result (λ s. Ended words (F.held files.old) (F.held files.new) (F.faults files.old) (F.faults files.new) s) }
    ensures memory { OnErr result (F.held files.new ≡ F.held files.old) }
    ensures counted { F.faults files.old ≤ F.faults files.new }
{
    let bytes = match files.read(alloc, &paths.source, FILE_LIMIT) {
        Ok(bytes) => bytes,
        Err(fault) => return after_read_fault(alloc, fault, &paths.source),
    };
    let Some(kept) = read_kept(alloc, rule, &bytes)? else {
        return Ok(Status::NotYet(Form::Model));
    };
    if kept.count > OBJECT_LIMIT {
        return Ok(Status::TooLarge(Size::Objects));
    }
    let text = write_flat(alloc, rule, kept.values.as_slice())?;
    write_target(alloc, files, paths.target, &text)
}

// What the rule keeps of a source.
fn read_kept(alloc: Global, rule: &OneRule, bytes: &[u8]) -> Result<Option<Kept>, AllocError>
    requires { HasSpace rule.now }
    ensures { IfOk result (λ read. MatchOption read
        ((es : List SomeElement) → IsSource rule.now.source_metamodel bytes.now es → ⊥)
        (λ k. (es : List SomeElement) × IsSource rule.now.source_metamodel bytes.now es × (map (item rule.now) k.values ≡ flat rule.now es) × (k.count ≡ length es))) }
{
    read_source(
        alloc,
        bytes,
        &rule.source_metamodel,
        &rule.class,
        &rule.read,
    )
}

// Reads the module, and then runs its rule.
fn run_request<F: Files>(
    alloc: Global,
    files: &mut F,
    request: &Request,
) -> Result<Status, AllocError>
    requires { All IsPair request.now.pairs }
    ensures ended { (words : List (List ℕ)) → IsRequest words request.now
        → IfOk result (λ s. Ended words (F.held files.old) (F.held files.new) (F.faults files.old) (F.faults files.new) s) }
    ensures memory { OnErr result (F.held files.new ≡ F.held files.old) }
    ensures counted { F.faults files.old ≤ F.faults files.new }
{
    let bytes = match files.read(alloc, &request.module, FILE_LIMIT) {
        Ok(bytes) => bytes,
        Err(fault) => return after_read_fault(alloc, fault, &request.module),
    };
    let Some(rule) = read_module(alloc, &bytes)? else {
        return Ok(Status::NotYet(Form::Module));
    };
    let Some(paths) = read_paths(alloc, &rule, request.pairs.as_slice())? else {
        return Ok(Status::NotYet(Form::Words));
    };
    run_rule(alloc, files, &rule, paths)
}

/// Runs the command of these words over the files, and says how that ends the call. After an `Err` no file is changed.
pub fn transform<F: Files>(
    alloc: Global,
    words: &[Text],
    files: &mut F,
) -> Result<Status, AllocError>
    ensures ended { IfOk result (λ s. Ended words.now (F.held files.old) (F.held files.new) (F.faults files.old) (F.faults files.new) s) }
    ensures memory { OnErr result (F.held files.new ≡ F.held files.old) }
{
    let Some(request) = read_words(alloc, words)? else {
        return Ok(Status::NotYet(Form::Words));
    };
    run_request(alloc, files, &request)
}
