// Which of the kinds that plan names are those of scopes, and of scopes with an undo part.
ghost use Rattle.std.specs.Prelude.{◌≡◌};
ghost use Rattle.order.specs.Answering.{scope_kind, undo_kind};

use plan::kind;

// Whether this is the kind of a scope, with an undo part or with none, with fault parts by number or with none.
#[tactic(auto, unfolding(crate::specs::Answering::scope_kind))]
pub fn is_scope(kind: u32) -> bool
    ensures { result ≡ scope_kind kind }
{
    matches!(kind, kind::SCOPE | kind::OPEN_SCOPE | kind::NUMBERED_SCOPE)
}

// Whether this is the kind of a scope with an undo part of its own: fault parts by number come with one.
#[tactic(auto, unfolding(crate::specs::Answering::undo_kind))]
pub fn has_undo(kind: u32) -> bool
    ensures { result ≡ undo_kind kind }
{
    matches!(kind, kind::SCOPE | kind::NUMBERED_SCOPE)
}
