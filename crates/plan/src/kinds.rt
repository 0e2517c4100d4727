// Which kinds are those of scopes.
ghost use Rattle.std.specs.Prelude.{◌≡◌};
ghost use Rattle.plan.specs.Read.{is_scope_code};

use super::kind;

// Whether an activity of this kind is a scope: one with an undo part, one with none, or one with fault parts by number.
pub(crate) fn is_scope(kind: u32) -> bool
    ensures { result ≡ is_scope_code kind }
{
    matches!(kind, kind::SCOPE | kind::OPEN_SCOPE | kind::NUMBERED_SCOPE)
}
