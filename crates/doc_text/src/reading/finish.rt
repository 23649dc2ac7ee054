// The end of the text.
ghost use Rattle.std.specs.Prelude.{◌≡◌, true};
ghost use Rattle.doc_text.specs.Answers.{IsRefusal};
ghost use Rattle.doc_text.specs.Faults.{Expected};
ghost use Rattle.doc_text.specs.Machine.{Refused, after, finish as finish_of};
ghost use Rattle.doc_text.specs.Nexts.{around_of, bearer_of, content_of, declaration_of, markup_of, naming_of, state_of, tag_of};
ghost use Rattle.doc_text.specs.RawTrees.{open_of};
ghost use Rattle.doc_text.specs.State.{BangDash, Banged, Begun, Localing, Naming as InNaming, Stops};
ghost use Rattle.doc_text.specs.Steps.{matched};
ghost use Rattle.doc_text.specs.Stopping.{IsRead};
ghost use Rattle.doc_text.specs.declared.refusal.DocRefusal.TheVariants as R;

use crate::reading::naming::same_name;
use crate::reading::next::{
    Around, Bearer, Citing, Content, Declaration, Markup, Naming, Next, Tag, Valuing,
};
use crate::reading::open::Open;
use crate::refusal::DocRefusal;
use crate::state::{Cited, Name, Start};
use atl_base::place::Place;
use atl_base::text::Text;
use sqlite_items::{Boxed, Items};
use std::alloc::Global;

// Only after the root the text may end.
fn finish_content(content: Content, end: Place) -> Result<Open, DocRefusal>
    ensures { IsRead (finish_of true end (content_of content)) result }
{
    match content {
        Content::Beginning => Err(DocRefusal::Expected(end)),
        Content::InProlog => Err(DocRefusal::Expected(end)),
        Content::Inside(_brackets, _innermost, _outer) => Err(DocRefusal::Expected(end)),
        Content::Epilog(root) => Ok(root),
    }
}

// An end tag's name may be over at the end.
fn finish_end(innermost: &Open, name: &Name, end: Place) -> DocRefusal
    ensures { IsRefusal (after (matched true (open_of innermost.now) name.now Stops) (Expected, end) (λ s. Refused (Expected, end))) result }
{
    if same_name(name, &innermost.tag.get().name) {
        return DocRefusal::Expected(end);
    }
    DocRefusal::MismatchedEnd(name.at)
}

fn finish_plain(alloc: Global, bearer: Bearer, at: Place, name: Text, end: Place) -> DocRefusal
    ensures { IsRefusal (finish_of true end (InNaming (bearer_of bearer) at name)) result }
{
    match bearer {
        Bearer::OfStart(_outer, _less) => DocRefusal::Expected(end),
        Bearer::OfAttribute(_outer, _tag) => DocRefusal::Expected(end),
        Bearer::OfEnd(innermost, _outer) => {
            let name = Name {
                at,
                prefix: Text::new(alloc),
                local: name,
            };
            finish_end(&innermost, &name, end)
        }
    }
}

fn finish_local(bearer: Bearer, at: Place, prefix: Text, name: Text, end: Place) -> DocRefusal
    ensures { IsRefusal (finish_of true end (Localing (bearer_of bearer) at prefix name)) result }
{
    match bearer {
        Bearer::OfStart(_outer, _less) => DocRefusal::Expected(end),
        Bearer::OfAttribute(_outer, _tag) => DocRefusal::Expected(end),
        Bearer::OfEnd(innermost, _outer) => {
            let name = Name {
                at,
                prefix,
                local: name,
            };
            finish_end(&innermost, &name, end)
        }
    }
}

fn finish_name(alloc: Global, naming: Naming, end: Place) -> DocRefusal
    ensures { IsRefusal (finish_of true end (naming_of naming)) result }
{
    match naming {
        Naming::Plain(bearer, at, name) => finish_plain(alloc, bearer, at, name, end),
        Naming::Coloned(_bearer, _at, _prefix) => DocRefusal::Expected(end),
        Naming::Local(bearer, at, prefix, name) => finish_local(bearer, at, prefix, name, end),
    }
}

// Markup that has begun is refused where it stands after the root.
fn finish_begun(around: Around, less: Place, end: Place) -> DocRefusal
    ensures begun { IsRefusal (finish_of true end (Begun (around_of around) less)) result }
    ensures banged { IsRefusal (finish_of true end (Banged (around_of around) less)) result }
    ensures bang_dash { IsRefusal (finish_of true end (BangDash (around_of around) less)) result }
{
    match around {
        Around::First => DocRefusal::Expected(end),
        Around::Before => DocRefusal::Expected(end),
        Around::Within(_innermost, _outer) => DocRefusal::Expected(end),
        Around::After(_root) => DocRefusal::Trailing(less),
    }
}

// In a comment or an instruction.
fn finish_aside(around: Around, end: Place) -> DocRefusal
    ensures { result ≡ R.Expected end }
{
    match around {
        Around::First => DocRefusal::Expected(end),
        Around::Before => DocRefusal::Expected(end),
        Around::Within(_innermost, _outer) => DocRefusal::Expected(end),
        Around::After(_root) => DocRefusal::Expected(end),
    }
}

fn finish_target(around: Around, _target: Text, end: Place) -> DocRefusal
    ensures { result ≡ R.Expected end }
{
    finish_aside(around, end)
}

fn finish_markup(markup: Markup, end: Place) -> DocRefusal
    ensures { IsRefusal (finish_of true end (markup_of markup)) result }
{
    match markup {
        Markup::Begun(around, less) => finish_begun(around, less, end),
        Markup::Banged(around, less) => finish_begun(around, less, end),
        Markup::BangDash(around, less) => finish_begun(around, less, end),
        Markup::Remarking(around) => finish_aside(around, end),
        Markup::RemarkDash(around) => finish_aside(around, end),
        Markup::RemarkEnd(around) => finish_aside(around, end),
        Markup::Asked(around) => finish_aside(around, end),
        Markup::Targeting(around, target) => finish_target(around, target, end),
        Markup::TargetEnd(around) => finish_aside(around, end),
        Markup::Telling(_asked, around) => finish_aside(around, end),
    }
}

fn finish_declaration(declaration: Declaration, end: Place) -> DocRefusal
    ensures { IsRefusal (finish_of true end (declaration_of declaration)) result }
{
    match declaration {
        Declaration::Declaring(_stage) => DocRefusal::Expected(end),
        Declaration::Wording(_clause, _read) => DocRefusal::Expected(end),
        Declaration::Equating(_clause) => DocRefusal::Expected(end),
        Declaration::Quoting(_clause) => DocRefusal::Expected(end),
        Declaration::Numbering(_double, _read) => DocRefusal::Expected(end),
        Declaration::Numbered(_double) => DocRefusal::Expected(end),
        Declaration::Encoding(_double, _first, _name) => DocRefusal::Expected(end),
        Declaration::Answer(_double) => DocRefusal::Expected(end),
        Declaration::Answering(_double, _agreed, _read) => DocRefusal::Expected(end),
        Declaration::Stated(_stage) => DocRefusal::Expected(end),
        Declaration::DeclEnd => DocRefusal::Expected(end),
    }
}

// In a start tag.
fn finish_start(_outer: Items<Open>, _tag: Boxed<Start>, end: Place) -> DocRefusal
    ensures { result ≡ R.Expected end }
{
    DocRefusal::Expected(end)
}

// In an attribute.
fn finish_attribute(outer: Items<Open>, tag: Boxed<Start>, _name: Name, end: Place) -> DocRefusal
    ensures { result ≡ R.Expected end }
{
    finish_start(outer, tag, end)
}

fn finish_value(_value: Valuing, end: Place) -> DocRefusal
    ensures { result ≡ R.Expected end }
{
    DocRefusal::Expected(end)
}

// In an element, or in its end tag.
fn finish_element(_innermost: Open, _outer: Items<Open>, end: Place) -> DocRefusal
    ensures { result ≡ R.Expected end }
{
    DocRefusal::Expected(end)
}

fn finish_tag(tag: Tag, end: Place) -> DocRefusal
    ensures { IsRefusal (finish_of true end (tag_of tag)) result }
{
    match tag {
        Tag::Spaced(outer, tag) => finish_start(outer, tag, end),
        Tag::Valued(outer, tag) => finish_start(outer, tag, end),
        Tag::Shutting(outer, tag) => finish_start(outer, tag, end),
        Tag::Equalling(outer, tag, name) => finish_attribute(outer, tag, name, end),
        Tag::Opening(outer, tag, name) => finish_attribute(outer, tag, name, end),
        Tag::Valuing(value) => finish_value(value, end),
        Tag::Ending(innermost, outer) => finish_element(innermost, outer, end),
        Tag::Closing(innermost, outer) => finish_element(innermost, outer, end),
    }
}

fn finish_citing(citing: Citing, end: Place) -> DocRefusal
    ensures { result ≡ R.Expected end }
{
    match citing {
        Citing::InText(innermost, outer) => finish_element(innermost, outer, end),
        Citing::InValue(value) => finish_value(value, end),
    }
}

fn finish_reference(citing: Citing, _cited: Cited, end: Place) -> DocRefusal
    ensures { result ≡ R.Expected end }
{
    finish_citing(citing, end)
}

/// The root, where the text may end there.
pub fn finish(alloc: Global, next: Next, end: Place) -> Result<Open, DocRefusal>
    ensures { IsRead (finish_of true end (state_of next)) result }
{
    match next {
        Next::InContent(content) => finish_content(content, end),
        Next::InMarkup(markup) => Err(finish_markup(markup, end)),
        Next::InDeclaration(declaration) => Err(finish_declaration(declaration, end)),
        Next::InName(naming) => Err(finish_name(alloc, naming, end)),
        Next::InTag(tag) => Err(finish_tag(tag, end)),
        Next::InReference(citing, _at, cited) => Err(finish_reference(citing, cited, end)),
    }
}
