//! Laws of the definitions of actions.
ghost use Rattle.std.specs.Prelude.{◌≡◌, ◌↔◌, Err, IsOk, Some};
ghost use Rattle.ocppj_frame.specs.Tree.{Tree};
ghost use Rattle.messages.specs.declared.action_kind.ActionKind.{ActionKind};
ghost use Rattle.messages.specs.declared.call_fault.CallFault.{CallFault};
ghost use Rattle.messages.specs.Action.{action_of_kind};
ghost use Rattle.messages.specs.ActionKind.{action_named, name_of_kind};
ghost use Rattle.messages.specs.FieldFaults.{field_faults, HaveNoFault, IsFirstFault};

/// States a law of the table of actions: each is found by its name, so none is missing from the
/// look-up. It does nothing.
pub fn action_names()
    ensures { (kind : ActionKind) → action_named (name_of_kind kind) ≡ Some kind }
{}

/// States a law of all payloads: an action is read exactly if none of its fields has a fault.
/// Otherwise its fault is the first in the order of the checks. It does nothing.
pub fn first_faults()
    ensures action { (kind : ActionKind) (payload : Tree)
        → IsOk (action_of_kind kind payload) ↔ HaveNoFault (field_faults kind payload) }
    ensures fault { (kind : ActionKind) (payload : Tree) (fault : CallFault)
        → (action_of_kind kind payload ≡ Err fault)
        ↔ IsFirstFault (field_faults kind payload) fault }
{}
