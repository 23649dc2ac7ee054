// The header: the module's name, and its models.
ghost use Rattle.std.specs.Prelude.{◌≡◌, IfOk, true};
ghost use Rattle.module_states.specs.Machine.{ForSources, ForTargets, declared as declared_of, model_end as model_end_of, step as stepped};
ghost use Rattle.module_states.specs.Nexts.{header_of, meant, models_of, step_of};
ghost use Rattle.module_states.specs.declared.next.Header.TheVariants as H;

use atl_base::place::Place;
use atl_tree::module::{ModelDecl, Module};
use atl_tree::name::Name;
use module_grammar::keyword::Keyword;
use module_states::content::Content;
use module_states::next::{Header, Models, Move, Next};
use module_states::wanted::{a_colon, a_name, a_semicolon};
use ocl_parse::sign::{Ender, Sign};
use ocl_parse::symbol::Symbol;
use sqlite_items::Items;
use std::alloc::{AllocError, Global};

fn start(content: Content, place: Place) -> Move
    ensures { stepped true (header_of H.Start) (meant content) place ≡ step_of result }
{
    match content {
        Content::Word(Keyword::Module) => Move::Goes(Next::InHeader(Header::ModuleName)),
        _ => Move::Refuses,
    }
}

fn module_name(content: Content, place: Place) -> Move
    ensures { stepped true (header_of H.ModuleName) (meant content) place ≡ step_of result }
{
    match a_name(content, place) {
        Some(name) => Move::Goes(Next::InHeader(Header::ModuleEnd(name))),
        None => Move::Refuses,
    }
}

fn create(alloc: Global, name: Name, content: Content, place: Place) -> Move
    ensures { stepped true (header_of (H.Create name)) (meant content) place ≡ step_of result }
{
    match content {
        Content::Word(Keyword::Create) => Move::Goes(Next::InHeader(Header::Model(
            Models::ForTargets(name, Items::new(alloc)),
        ))),
        _ => Move::Refuses,
    }
}

fn model(models: Models, content: Content, place: Place) -> Move
    ensures { stepped true (header_of (H.Model models)) (meant content) place ≡ step_of result }
{
    match a_name(content, place) {
        Some(name) => Move::Goes(Next::InHeader(Header::ModelColon(models, name))),
        None => Move::Refuses,
    }
}

// The models with one more.
fn declared(models: Models, model: Name, meta: Name) -> Result<Models, AllocError>
    ensures { IfOk result (λ ms. declared_of (models_of models) model meta ≡ models_of ms) }
{
    let decl = ModelDecl { model, meta };
    match models {
        Models::ForTargets(name, targets) => {
            let mut targets = targets;
            targets.push(decl)?;
            Ok(Models::ForTargets(name, targets))
        }
        Models::ForSources(name, targets, sources) => {
            let mut sources = sources;
            sources.push(decl)?;
            Ok(Models::ForSources(name, targets, sources))
        }
    }
}

fn meta(models: Models, model: Name, content: Content, place: Place) -> Result<Move, AllocError>
    ensures { IfOk result (λ m. stepped true (header_of (H.Meta models model)) (meant content) place ≡ step_of m) }
{
    match a_name(content, place) {
        Some(name) => {
            let longer = declared(models, model, name)?;
            Ok(Move::Goes(Next::InHeader(Header::ModelEnd(longer))))
        }
        None => Ok(Move::Refuses),
    }
}

// Behind a target.
fn targets_end(alloc: Global, name: Name, targets: Items<ModelDecl>, content: Content) -> Move
    ensures { model_end_of (ForTargets name targets) (meant content) ≡ step_of result }
{
    match content {
        Content::Shared(Symbol::Fixed(Sign::End(Ender::Comma))) => Move::Goes(Next::InHeader(
            Header::Model(Models::ForTargets(name, targets)),
        )),
        Content::Word(Keyword::From) => Move::Goes(Next::InHeader(Header::Model(Models::ForSources(
            name,
            targets,
            Items::new(alloc),
        )))),
        _ => Move::Refuses,
    }
}

// Behind a source.
fn sources_end(
    alloc: Global,
    name: Name,
    targets: Items<ModelDecl>,
    sources: Items<ModelDecl>,
    content: Content,
) -> Move
    ensures { model_end_of (ForSources name targets sources) (meant content) ≡ step_of result }
{
    match content {
        Content::Shared(Symbol::Fixed(Sign::End(Ender::Comma))) => Move::Goes(Next::InHeader(
            Header::Model(Models::ForSources(name, targets, sources)),
        )),
        Content::Shared(Symbol::Fixed(Sign::Semicolon)) => Move::Goes(Next::Item(Module {
            name,
            targets,
            sources,
            items: Items::new(alloc),
        })),
        _ => Move::Refuses,
    }
}

fn model_end(alloc: Global, models: Models, content: Content) -> Move
    ensures { model_end_of (models_of models) (meant content) ≡ step_of result }
{
    match models {
        Models::ForTargets(name, targets) => targets_end(alloc, name, targets, content),
        Models::ForSources(name, targets, sources) => {
            sources_end(alloc, name, targets, sources, content)
        }
    }
}

/// One token of the header.
pub fn step(
    alloc: Global,
    header: Header,
    content: Content,
    place: Place,
) -> Result<Move, AllocError>
    ensures { IfOk result (λ m. stepped true (header_of header) (meant content) place ≡ step_of m) }
{
    match header {
        Header::Start => Ok(start(content, place)),
        Header::ModuleName => Ok(module_name(content, place)),
        Header::ModuleEnd(name) => {
            Ok(a_semicolon(content, Next::InHeader(Header::Create(name))))
        }
        Header::Create(name) => Ok(create(alloc, name, content, place)),
        Header::Model(models) => Ok(model(models, content, place)),
        Header::ModelColon(models, name) => {
            Ok(a_colon(content, Next::InHeader(Header::Meta(models, name))))
        }
        Header::Meta(models, name) => meta(models, name, content, place),
        Header::ModelEnd(models) => Ok(model_end(alloc, models, content)),
    }
}
