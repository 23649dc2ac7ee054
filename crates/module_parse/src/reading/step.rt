// One step of reading.
ghost use Rattle.std.specs.Prelude.{◌≡◌, IfOk, true};
ghost use Rattle.module_states.specs.Machine.{step as stepped};
ghost use Rattle.module_states.specs.Nexts.{meant, state_of, step_of};

use crate::reading::{block, header};
use atl_base::place::Place;
use module_elements::{expr, head, helper, item, kind, params, rule, target};
use module_states::content::Content;
use module_states::next::{Move, Next};
use std::alloc::{AllocError, Global};

/// What a token leads to.
pub fn step(alloc: Global, next: Next, content: Content, place: Place) -> Result<Move, AllocError>
    ensures { IfOk result (λ m. stepped true (state_of next) (meant content) place ≡ step_of m) }
{
    match next {
        Next::InHeader(header) => header::step(alloc, header, content, place),
        Next::Item(before) => Ok(item::step(before, content)),
        Next::InHelper(helping) => helper::step(alloc, helping, content, place),
        Next::InParams(params) => params::step(alloc, params, content, place),
        Next::InKind(purpose, part) => kind::step(alloc, purpose, part, content, place),
        Next::InExpr(purpose, part) => expr::step(alloc, purpose, part, content, place),
        Next::InHead(head) => head::step(alloc, head, content, place),
        Next::InRule(point, draft) => rule::step(alloc, point, draft, content, place),
        Next::BeforeColon(kind, draft, name) => {
            rule::colon(alloc, kind, draft, name, content, place)
        }
        Next::InClass(class) => target::step_class(alloc, class, content, place),
        Next::InTarget(point, draft, target) => {
            target::step(alloc, point, draft, target, content, place)
        }
        Next::Gives(draft, target, feature) => {
            target::gives(alloc, draft, target, feature, content, place)
        }
        Next::InBlock(stating) => block::step(alloc, stating, content, place),
    }
}
